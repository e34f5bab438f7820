//! What holds of a slave over all calls. The calls do nothing: each law is a contract.

ghost use Rattle.std.specs.Prelude.{◌≡◌, List, []};
ghost use Rattle.param_load.specs.declared.slave_settings.SlaveSettings.{SlaveSettings};
ghost use Rattle.end_model.specs.Setup.{OfSlave};
ghost use Rattle.end_model.specs.Deed.{Deed};
ghost use Rattle.end_model.specs.Runs.{events_of};
ghost use Rattle.end_model.specs.Step.{run};
ghost use Rattle.slave_core.specs.SlaveView.{SlaveView};
ghost use Rattle.slave_core.specs.Standing.{SlaveIsAfter, Called};

/// Create a slave and call its methods in any order. Then each call did and sent exactly what the run of these events
/// does and sends. The slave is after that run: its getters show the state, outputs, terms, age, offer and hold of the
/// run.
#[tactic(auto, using(crate::proofs::Law::called_run))]
pub fn calls()
    ensures run { (settings : SlaveSettings) (first last : SlaveView) (calls : List Deed) → SlaveIsAfter settings first [] → Called first calls last → calls ≡ run (OfSlave settings) (events_of calls) }
    ensures is_after { (settings : SlaveSettings) (first last : SlaveView) (calls : List Deed) → SlaveIsAfter settings first [] → Called first calls last → SlaveIsAfter settings last calls }
{}
