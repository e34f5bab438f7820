//! What is counted of both ends over their entries.
ghost use Rattle.std.specs.Prelude.{◌≡◌, ◌+◌, is_some, if◌then◌else◌};
ghost use Rattle.exchange_model.specs.Fair.{data_taken};

use fsoe_base::{Command, Did, End, State};

/// What a summary has of an end: how many entries took a data frame, reset it and dropped a frame; its last state.
#[derive(Clone, Copy)]
pub(crate) struct Counts {
    pub(crate) taken: u64,
    pub(crate) resets: u64,
    pub(crate) drops: u64,
    pub(crate) state: State,
}

/// What a summary has of both ends of a pair.
#[derive(Clone, Copy)]
pub(crate) struct Summary {
    pub(crate) master: Counts,
    pub(crate) slave: Counts,
}

/// Whether a data frame was taken.
fn takes_data(did: &Did) -> bool
    ensures { result ≡ is_some (data_taken did.now.took) }
{
    match &did.took {
        Some(took) => match took.command {
            Command::ProcessData | Command::FailSafeData => true,
            _ => false,
        },
        None => false,
    }
}

impl Counts {
    ghost use Rattle.std.specs.Prelude.{◌≡◌, ◌+◌, is_some, if◌then◌else◌};
    ghost use Rattle.exchange_model.specs.Fair.{data_taken};
    ghost use Rattle.duo_run.specs.Duo.{HasRoom};

    /// Counts the next entry of the end.
    fn note(&mut self, did: &Did, state: State)
        requires { HasRoom self.old }
        ensures taken { self.new.taken ≡ self.old.taken + (if is_some (data_taken did.now.took) then 1 else 0) }
        ensures resets { self.new.resets ≡ self.old.resets + (if is_some did.now.reset then 1 else 0) }
        ensures drops { self.new.drops ≡ self.old.drops + (if is_some did.now.dropped then 1 else 0) }
        ensures state { self.new.state ≡ state }
    {
        if takes_data(did) {
            self.taken += 1;
        }
        if did.reset.is_some() {
            self.resets += 1;
        }
        if did.dropped.is_some() {
            self.drops += 1;
        }
        self.state = state;
    }
}

impl Summary {
    ghost use Rattle.std.specs.Prelude.{◌≡◌, []};
    ghost use Rattle.duo_run.specs.Summary.{summary_of};
    ghost use Rattle.duo_run.specs.Duo.{HasRoom, CountsEntry};

    /// What is told of no entries.
    pub(crate) fn new() -> Summary
        ensures { result ≡ summary_of [] }
    {
        let none = Counts {
            taken: 0,
            resets: 0,
            drops: 0,
            state: State::Reset,
        };
        Summary {
            master: none,
            slave: none,
        }
    }

    /// Counts the next entry by its end, what the end did and its state.
    #[tactic(auto, using(crate::proofs::Numbers::Counted::counted_at_master, crate::proofs::Numbers::Counted::counted_at_slave))]
    pub(crate) fn note(&mut self, at: End, did: &Did, state: State)
        requires master { HasRoom self.old.master }
        requires slave { HasRoom self.old.slave }
        ensures { CountsEntry self.old at did.now state self.new }
    {
        match at {
            End::Master => self.master.note(did, state),
            End::Slave => self.slave.note(did, state),
        }
    }
}
