//! What holds of a master over all calls. The call does nothing: the law is its contract.

ghost use Rattle.std.specs.Prelude.{◌≡◌, List, [], Some, None};
ghost use Rattle.param_load.specs.declared.master_settings.MasterSettings.{MasterSettings};
ghost use Rattle.end_model.specs.Setup.{OfMaster};
ghost use Rattle.end_model.specs.Runs.{events_of};
ghost use Rattle.end_model.specs.Step.{run};
ghost use Rattle.master_core.specs.Calls.{Call, Called, Pending, delivery_after, deeds_of, pending};
ghost use Rattle.master_core.specs.MasterView.{MasterView};
ghost use Rattle.master_core.specs.Standing.{MasterIsAfter};
ghost use Rattle.master_core.specs.Waiting.{Waits};

/// Create a master and call its methods in any order, with deliveries in one call or in two. Then the calls did and
/// sent exactly what the run of these events does and sends. If no frame is due, the master is after that run: its
/// getters show the state, outputs, terms, age, offer and hold of the run. While a frame is due, the master waits in a
/// delivery after that run, and its getters show the values after the run and this delivery.
#[tactic(auto, using(crate::proofs::Calls::calls_run))]
pub fn calls()
    ensures run { (settings : MasterSettings) (first last : MasterView) (calls : List Call) → MasterIsAfter settings first [] → Called first calls last → deeds_of calls ≡ run (OfMaster settings) (events_of (deeds_of calls)) }
    ensures is_after { (settings : MasterSettings) (first last : MasterView) (calls : List Call) → MasterIsAfter settings first [] → Called first calls last → pending calls ≡ None → MasterIsAfter settings last (deeds_of calls) }
    ensures waits { (settings : MasterSettings) (first last : MasterView) (calls : List Call) → MasterIsAfter settings first [] → Called first calls last → (p : Pending) → pending calls ≡ Some p → Waits last (delivery_after settings (deeds_of calls) p) }
{}
