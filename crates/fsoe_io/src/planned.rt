//! Calls that are planned to fail.
ghost use Rattle.std.specs.Prelude.{◌≡◌, ◌+◌, if◌then◌else◌};
ghost use Rattle.fsoe_io.specs.Planned.{is_next_listed, planned_faults, with_one_more};

use std::marker::Model;

/// Counts the calls of a source or sink in memory; those fail that are listed by their number from 1.
#[derive(Drop)]
pub struct PlannedCalls {
    fails: Vec<u64>,
    calls: u64,
}

impl Model for PlannedCalls {
    ghost use Rattle.fsoe_io.specs.Planned.{Planned};

    ghost Value = { Planned };

    ghost view = { λ p. record { fails = p.fails.items; calls = p.calls } };
}

impl PlannedCalls {
    /// The calls that `fails` lists are to fail, and none was made.
    pub fn new(fails: Vec<u64>) -> PlannedCalls
        ensures { result ≡ record { fails = fails.items; calls = 0 } }
    {
        PlannedCalls { fails, calls: 0 }
    }

    /// Counts a call, and returns true if it fails. After 2^64 - 1 calls none fails, and the count doesn't change.
    pub fn next_fails(&mut self) -> bool
        ensures listed { result ≡ is_next_listed self.old }
        ensures counts { self.new ≡ with_one_more self.old }
        ensures faults { planned_faults self.new ≡ planned_faults self.old + (if result then 1 else 0) }
    {
        if self.calls == u64::MAX {
            return false;
        }
        self.calls += 1;
        self.fails.contains(&self.calls)
    }
}
