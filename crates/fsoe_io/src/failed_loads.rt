//! The names of loads that failed.
ghost use Rattle.std.specs.Prelude.{◌≡◌, ◌<◌, [], ◌∷◌, ◌++◌, IfOk, OnOk, if◌then◌else◌, string_bytes};
ghost use Rattle.fsoe_io.specs.Calls.{has_failed};

use crate::desk::LoadFault;
use std::alloc::{AllocError, Global};
use std::marker::Model;

/// The names of the loads that failed, in order. Room for the next name is allocated before its load.
#[derive(Drop)]
pub struct FailedLoads {
    names: Vec<String>,
}

impl Model for FailedLoads {
    ghost use Rattle.std.specs.Prelude.{◌-◌, map, string_bytes, vec_len, vec_capacity};
    ghost use Rattle.fsoe_io.specs.Desk.{FailedNames};

    ghost Value = { FailedNames };

    ghost view = { λ f. record {
      names = map string_bytes f.names.items;
      room = vec_capacity f.names - vec_len f.names;
    } };
}

impl FailedLoads {
    /// No names.
    pub fn new(alloc: Global) -> FailedLoads
        ensures { result.names ≡ [] }
    {
        FailedLoads {
            names: Vec::new(alloc),
        }
    }

    /// Allocates room for one more name, and copies the name for it.
    pub fn room_for(&mut self, name: &str) -> Result<String, AllocError>
        ensures names { self.new.names ≡ self.old.names }
        ensures room { OnOk result (0 < self.new.room) }
        ensures copied { IfOk result (λ copied. string_bytes copied ≡ name.now) }
    {
        let alloc = *self.names.allocator();
        self.names.reserve(1)?;
        String::from_str(alloc, name)
    }

    /// Records the name where its load failed.
    pub fn note(&mut self, name: String, loaded: &Result<Vec<u8>, LoadFault>)
        requires { 0 < self.old.room }
        ensures { self.new.names ≡ (if has_failed loaded.now then self.old.names ++ string_bytes name ∷ [] else self.old.names) }
    {
        if matches!(loaded, Err(LoadFault::Failed)) {
            self.names.push_reserved(name);
        }
    }
}
