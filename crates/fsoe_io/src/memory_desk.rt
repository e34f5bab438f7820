//! Desks in memory.
ghost use Rattle.std.specs.Prelude.{◌≡◌, ◌≢◌, ◌≤◌, ◌<◌, ◌+◌, ◌⊎◌, Some, [], ◌∷◌, ◌++◌, if◌then◌else◌, length, map, IsSome, IsNone, IfOk, IfSome, option_map};
ghost use Rattle.fsoe_io.specs.Desk.{named, text_under, failed_loads};
ghost use Rattle.fsoe_io.specs.Calls.{has_failed};
ghost use Rattle.fsoe_io.specs.Planned.{is_next_listed, with_one_more};

use crate::desk::{Desk, LoadFault};
use crate::failed_loads::FailedLoads;
use crate::planned::PlannedCalls;
use std::marker::Model;

/// A copy of a text of at most `limit` bytes.
fn copy_of(text: &Vec<u8>, limit: usize) -> Result<Vec<u8>, LoadFault>
    ensures bytes { IfOk result (λ copied. copied.items ≡ text.now.items) }
    ensures within { IfOk result (λ copied. length copied.items ≤ limit) }
    ensures too_long { result ≡ Err LoadFault.TooLong → limit < length text.now.items }
    ensures sure { result ≢ Err LoadFault.Failed }
{
    if text.len() > limit {
        return Err(LoadFault::TooLong);
    }
    text.clone().or(Err(LoadFault::Memory))
}

/// A desk in memory that never fails. It has the same text under every name; in contracts the value is that text.
#[derive(Drop)]
pub struct SureDesk {
    text: Vec<u8>,
}

impl Model for SureDesk {
    ghost use Rattle.std.specs.Prelude.{List, ℕ};

    ghost Value = { List ℕ };

    ghost view = { λ d. d.text.items };
}

impl SureDesk {
    /// A desk that holds this text under every name.
    pub fn new(text: Vec<u8>) -> SureDesk
        ensures { result ≡ text.items }
    {
        SureDesk { text }
    }
}

impl Desk for SureDesk {
    ghost holds = { λ d _. Some d };

    ghost faults = { λ _ _. 0 };

    fn load(&mut self, name: &str, limit: usize) -> Result<Vec<u8>, LoadFault> {
        copy_of(&self.text, limit)
    }
}

/// The first text under a name.
fn find_text<'a>(files: &'a [(String, Vec<u8>)], name: &str) -> Option<&'a Vec<u8>>
    ensures { option_map (λ text. text.now.items) result ≡ text_under (map named files.now) name.now }
{
    for file in files {
        if file.0.as_str() == name {
            return Some(&file.1);
        }
    }
    None
}

/// A desk in memory for tests. A load fails if its call is listed or the name is absent, unless memory runs out. It
/// records the names of the loads that failed.
#[derive(Drop)]
pub struct MemDesk {
    files: Vec<(String, Vec<u8>)>,
    calls: PlannedCalls,
    failed: FailedLoads,
}

impl Model for MemDesk {
    ghost use Rattle.std.specs.Prelude.{map};
    ghost use Rattle.fsoe_io.specs.Desk.{Shelf, named};

    ghost Value = { Shelf };

    ghost view = { λ d. record { files = map named d.files.items; planned = d.calls; failed = d.failed.names } };
}

impl MemDesk {
    /// Creates a desk of these texts under their names; if a name occurs twice, the first one is used. It fails at the
    /// calls that `fails` lists by their number from 1.
    pub fn new(files: Vec<(String, Vec<u8>)>, fails: Vec<u64>) -> MemDesk
        ensures { result ≡ record { files = map named files.items; planned = record { fails = fails.items; calls = 0 }; failed = [] } }
    {
        let alloc = *files.allocator();
        MemDesk {
            files,
            calls: PlannedCalls::new(fails),
            failed: FailedLoads::new(alloc),
        }
    }
}

impl Desk for MemDesk {
    ghost holds = { λ d name. text_under d.files name };

    ghost faults = { λ d name. failed_loads d.failed name };

    fn load(&mut self, name: &str, limit: usize) -> Result<Vec<u8>, LoadFault>
        ensures bytes { IfOk result (λ text. IfSome (text_under self.old.files name.now) (λ held. text.items ≡ held)) }
        ensures within { IfOk result (λ text. length text.items ≤ limit) }
        ensures too_long { result ≡ Err LoadFault.TooLong → IfSome (text_under self.old.files name.now) (λ held. limit < length held) }
        // It fails exactly at the listed calls and where the name is absent, unless memory runs out.
        ensures fails { IsSome (text_under self.old.files name.now) → result ≢ Err LoadFault.Memory → has_failed result ≡ is_next_listed self.old.planned }
        ensures absent { IsNone (text_under self.old.files name.now) → (result ≡ Err LoadFault.Failed) ⊎ (result ≡ Err LoadFault.Memory) }
        ensures counts { self.new.planned ≡ with_one_more self.old.planned }
        ensures noted { self.new.failed ≡ (if has_failed result then self.old.failed ++ name.now ∷ [] else self.old.failed) }
        ensures files { self.new.files ≡ self.old.files }
    {
        let fails = self.calls.next_fails();
        let Ok(copied) = self.failed.room_for(name) else {
            return Err(LoadFault::Memory);
        };
        let loaded = match find_text(&self.files, name) {
            Some(text) if !fails => copy_of(text, limit),
            _ => Err(LoadFault::Failed),
        };
        self.failed.note(copied, &loaded);
        loaded
    }
}
