//! The list of what a plant did.
ghost use Rattle.std.specs.Prelude.{◌≡◌, ◌+◌, ◌≤◌, OnOk, vec_len, vec_capacity};

use fsoe_base::Memory;
use plant_model::JournalStep;
use std::alloc::Global;
use std::marker::Model;

/// The steps of a plant, oldest first. In contracts the value is their list.
#[derive(Drop)]
pub struct Journal {
    pub(crate) steps: Vec<JournalStep>,
}

impl Model for Journal {
    ghost use Rattle.std.specs.Prelude.{List};
    ghost use Rattle.plant_model.specs.declared.journal.JournalStep.{JournalStep};

    ghost Value = { List JournalStep };

    ghost view = { λ j. j.steps.items };
}

impl Journal {
    ghost use Rattle.std.specs.Prelude.{◌≡◌, []};

    /// Creates an empty journal. Doesn't allocate.
    pub fn new(alloc: Global) -> Journal
        ensures { result ≡ [] }
    {
        Journal {
            steps: Vec::new(alloc),
        }
    }

    /// The steps, oldest first.
    pub fn steps(&self) -> &[JournalStep]
        ensures { result.now ≡ self.now }
    {
        self.steps.as_slice()
    }
}

/// Allocates room for `count` more steps. After `Memory` nothing is changed.
pub(crate) fn take_room(steps: &mut Vec<JournalStep>, count: usize) -> Result<(), Memory>
    ensures steps { steps.new.items ≡ steps.old.items }
    ensures room { OnOk result (vec_len steps.new + count ≤ vec_capacity steps.new) }
{
    steps.reserve(count).or(Err(Memory))
}
