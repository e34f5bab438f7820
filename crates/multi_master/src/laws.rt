//! What holds of a master of many connections over all its calls. The calls do nothing: each law is a contract.

ghost use Rattle.std.specs.Prelude.{◌≡◌, ℕ, List, [], map, replicate, Some, IfSome, slice_get};
ghost use Rattle.param_load.specs.declared.master_settings.MasterSettings.{MasterSettings};
ghost use Rattle.param_load.specs.declared.entry.Move.TheVariants as event;
ghost use Rattle.end_model.specs.Runs.{events_of};
ghost use Rattle.end_model.specs.Step.{run};
ghost use Rattle.master_core.specs.MasterView.{MasterView};
ghost use Rattle.multi_master.specs.Connection.{Connection, setup, with_event, with_offer, offer_len};
ghost use Rattle.multi_master.specs.Calls.{AppView, Call, numbered_connection, meant};
ghost use Rattle.multi_master.specs.Own.{own_events, without_puts};
ghost use Rattle.multi_master.specs.Standing.{IsWhere};

/// A connection is independent of its neighbours: over every list of calls its deeds are the run of its own events.
/// These are its deliveries, ticks, resets, holds and session ids, in the order of the calls, and the offers that were
/// put between them. Its settings don't change.
#[tactic(auto, using(crate::proofs::Neighbours::runs_alone, crate::proofs::Neighbours::events_alone, crate::proofs::Neighbours::settings_alone))]
pub fn neighbours()
    ensures run { (settings : List MasterSettings) (app : AppView) (calls : List Call) (link : ℕ) → IfSome (numbered_connection link (meant settings app calls)) (λ c. c.deeds ≡ run (setup c) (events_of c.deeds)) }
    ensures events { (settings : List MasterSettings) (app : AppView) (calls : List Call) (link : ℕ) → IfSome (numbered_connection link (meant settings app calls)) (λ c. without_puts (events_of c.deeds) ≡ own_events link calls) }
    ensures settings { (settings : List MasterSettings) (app : AppView) (calls : List Call) → map (λ c. c.settings) (meant settings app calls).connections ≡ settings }
{}

/// While the application is changed, all offers are zeros until its first results are put. No frame is built and no
/// call ends in between, so this can't be observed. A master to which zeros were put and then a result is as after only
/// the result, which is put unless it was the offer already.
pub fn change()
    ensures { (c : Connection) (m : MasterView) (load : List ℕ) → IsWhere (with_event (event.Put load) (with_event (event.Put (replicate (offer_len c) 0)) c)) m → IsWhere (with_offer load c) m }
{}
