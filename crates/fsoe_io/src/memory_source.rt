//! Sources in memory.
ghost use Rattle.std.specs.Io.KnownBytes.{ReadConsumes};
ghost use Rattle.std.specs.Io.{ReadsAtMost};
ghost use Rattle.std.specs.Prelude.{◌≡◌, ◌<◌, Some, List, ℕ, length, min, is_err, IfOk};
ghost use Rattle.fsoe_io.specs.Calls.{HasCause};
ghost use Rattle.fsoe_io.specs.Planned.{is_next_listed, planned_faults, with_one_more};

use crate::planned::PlannedCalls;
use crate::source::{Failed, Source};
use std::marker::Model;

/// A source in memory that never fails. In contracts the value is the bytes that are left.
#[derive(Drop)]
pub struct SureSource {
    bytes: Vec<u8>,
    at: usize,
}

impl Model for SureSource {
    ghost use Rattle.std.specs.Prelude.{◌≤◌, List, ℕ, drop, vec_len};

    ghost Value = { List ℕ };

    ghost view = { λ s. drop s.at s.bytes.items };

    ghost invariant = { λ s. s.at ≤ vec_len s.bytes };
}

impl SureSource {
    /// A source of these bytes.
    pub fn new(bytes: Vec<u8>) -> SureSource
        ensures { result ≡ bytes.items }
    {
        SureSource { bytes, at: 0 }
    }
}

impl Source for SureSource {
    ghost left = { λ s. Some s };

    ghost faults = { λ _. 0 };

    fn read(&mut self, buffer: &mut [u8]) -> Result<usize, Failed>
        ensures bound { ReadsAtMost result buffer.new }
        ensures bytes { ReadConsumes (Some self.old) (Some self.new) result buffer.new }
        // It gives as much as there is room for.
        ensures count { result ≡ Ok (min (length buffer.old) (length self.old)) }
    {
        let count = buffer.len().min(self.bytes.len() - self.at);
        buffer[..count].copy_from_slice(&self.bytes[self.at..self.at + count]);
        self.at += count;
        Ok(count)
    }
}

/// A source in memory for tests, whose listed calls fail. Its count of faults is the number of listed calls so far.
#[derive(Drop)]
pub struct MemSource {
    whole: SureSource,
    most: usize,
    calls: PlannedCalls,
}

impl Model for MemSource {
    ghost use Rattle.std.specs.Prelude.{◌<◌};
    ghost use Rattle.fsoe_io.specs.Ends.{Feed};

    ghost Value = { Feed };

    ghost view = { λ s. record { left = s.whole; most = s.most; planned = s.calls } };

    ghost invariant = { λ s. 0 < s.most };
}

impl MemSource {
    /// A source of these bytes that gives at most `most` bytes in a call, and fails at the calls that `fails` lists
    /// by their number from 1.
    pub fn new(bytes: Vec<u8>, most: usize, fails: Vec<u64>) -> MemSource
        requires { 0 < most }
        ensures { result ≡ record { left = bytes.items; most = most; planned = record { fails = fails.items; calls = 0 } } }
    {
        MemSource {
            whole: SureSource::new(bytes),
            most,
            calls: PlannedCalls::new(fails),
        }
    }
}

impl Source for MemSource {
    ghost left = { λ s. Some s.left };

    ghost faults = { λ s. planned_faults s.planned };

    fn read(&mut self, buffer: &mut [u8]) -> Result<usize, Failed>
        ensures bound { ReadsAtMost result buffer.new }
        ensures bytes { ReadConsumes (Some self.old.left) (Some self.new.left) result buffer.new }
        ensures cause { HasCause (planned_faults self.old.planned) (planned_faults self.new.planned) result }
        // Each call counts. It fails exactly at the listed ones, and else gives as much as it may.
        ensures counts { self.new.planned ≡ with_one_more self.old.planned }
        ensures fails { is_err result ≡ is_next_listed self.old.planned }
        ensures count { IfOk result (λ n. n ≡ min (min (length buffer.old) self.old.most) (length self.old.left)) }
        ensures most { self.new.most ≡ self.old.most }
    {
        if self.calls.next_fails() {
            return Err(Failed);
        }
        let most = buffer.len().min(self.most);
        self.whole.read(&mut buffer[..most])
    }
}
