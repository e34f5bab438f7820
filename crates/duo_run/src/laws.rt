//! What holds of a pair over all its steps, and of the reports of its runs. The calls do nothing: each law is a
//! contract.

ghost use Rattle.std.specs.Prelude.{◌≡◌, ℕ, List, [], All};
ghost use Rattle.fsoe_base.specs.declared.command.End.{End};
ghost use Rattle.fsoe_io.specs.declared.status.Ended.{Ended};
ghost use Rattle.param_load.specs.declared.entry.Entry.{Entry};
ghost use Rattle.param_load.specs.declared.master_settings.MasterSettings.{MasterSettings};
ghost use Rattle.param_load.specs.declared.slave_settings.SlaveSettings.{SlaveSettings};
ghost use Rattle.schedule_file.specs.Input.{Input, input_of};
ghost use Rattle.schedule_file.specs.PairsInput.{pairs_input};
ghost use Rattle.schedule_file.specs.declared.event.Event.{Event};
ghost use Rattle.schedule_file.specs.declared.header_kind.HeaderKind.TheVariants as kind;
ghost use Rattle.end_model.specs.Runs.{entries};
ghost use Rattle.end_model.specs.Step.{run};
ghost use Rattle.exchange_model.specs.Ends.{of_end};
ghost use Rattle.exchange_model.specs.Fair.{Fair};
ghost use Rattle.exchange_model.specs.Honest.{Match, IsSteady, IsHonest};
ghost use Rattle.exchange_model.specs.Other.{before_other};
ghost use Rattle.exchange_model.specs.Serving.{Serves, ServesSteadily};
ghost use Rattle.exchange_model.specs.World.{setup_of, world, SameLengths};
ghost use Rattle.exchange_model.specs.Schedules.{moves};
ghost use Rattle.exchange_model.specs.Worlds.{IsProperEvent};
ghost use Rattle.duo_run.specs.Duo.{DuoView, DuoStands};
ghost use Rattle.duo_run.specs.Pairs.{Pair};
ghost use Rattle.duo_run.specs.PairsReport.{PairsInput, PairsReports};
ghost use Rattle.duo_run.specs.Ran.{Ran};
ghost use Rattle.duo_run.specs.Replay.{ReplayReports};

/// The entries of a new pair over any list of events are the world of that schedule, which the pair then represents.
pub fn steps()
    ensures world { (ms : MasterSettings) (ss : SlaveSettings) (first last : DuoView) (events : List Event) (w : List Entry) → DuoStands ms ss first [] → Ran first events [] last w → w ≡ world ms ss events }
    ensures stands { (ms : MasterSettings) (ss : SlaveSettings) (first last : DuoView) (events : List Event) (w : List Entry) → DuoStands ms ss first [] → Ran first events [] last w → DuoStands ms ss last w }
{}

/// The entries of a pair before the first `other` entry, all if there is none, are fair.
pub fn fair()
    ensures { (ms : MasterSettings) (ss : SlaveSettings) (v : DuoView) (w : List Entry) → SameLengths ms ss → DuoStands ms ss v w → Fair ms.lengths (before_other w) }
{}

/// Over a steady schedule of proper events between matching ends a new pair refuses no event, and its entries fulfil
/// `ServesSteadily` and `Fair`.
pub fn steady()
    ensures serves { (ms : MasterSettings) (ss : SlaveSettings) (first last : DuoView) (events : List Event) (w : List Entry) → Match ms ss → All (IsProperEvent ms ss) events → IsSteady ms ss events → DuoStands ms ss first [] → Ran first events [] last w → ServesSteadily ms events w }
    ensures fair { (ms : MasterSettings) (ss : SlaveSettings) (first last : DuoView) (events : List Event) (w : List Entry) → Match ms ss → All (IsProperEvent ms ss) events → IsSteady ms ss events → DuoStands ms ss first [] → Ran first events [] last w → Fair ms.lengths w }
{}

/// Over an honest schedule of proper events between matching ends a new pair refuses no event, and its entries fulfil
/// `Serves` and `Fair`.
pub fn honest()
    ensures serves { (ms : MasterSettings) (ss : SlaveSettings) (first last : DuoView) (events : List Event) (w : List Entry) → Match ms ss → All (IsProperEvent ms ss) events → IsHonest ms ss events → DuoStands ms ss first [] → Ran first events [] last w → Serves ms events w }
    ensures fair { (ms : MasterSettings) (ss : SlaveSettings) (first last : DuoView) (events : List Event) (w : List Entry) → Match ms ss → All (IsProperEvent ms ss) events → IsHonest ms ss events → DuoStands ms ss first [] → Ran first events [] last w → Fair ms.lengths w }
{}

/// The entries of one end of a pair are those of the run of only that end's own events.
pub fn projection()
    ensures { (ms : MasterSettings) (ss : SlaveSettings) (which : End) (v : DuoView) (w : List Entry) → DuoStands ms ss v w → of_end which w ≡ entries (setup_of ms ss which) (run (setup_of ms ss which) (moves which w)) }
{}

/// For each input there is exactly one report of both ends and exactly one status with its place. A complete header has
/// all settings of both ends, and all of them are valid.
pub fn one_replay()
    ensures some { (bytes : List ℕ) → (report : List ℕ) × (ended : Ended) × ReplayReports (input_of kind.Pair bytes) ended report }
    ensures one_text { (input : Input) (a b : Ended) (x y : List ℕ) → ReplayReports input a x → ReplayReports input b y → x ≡ y }
    ensures one_ending { (input : Input) (a b : Ended) (x y : List ℕ) → ReplayReports input a x → ReplayReports input b y → a ≡ b }
{}

/// For each input there is exactly one report of several pairs, and exactly one status with its place.
pub fn one_replay_of_pairs()
    ensures some { (bytes : List ℕ) → (report : List ℕ) × (ended : Ended) × PairsReports (pairs_input bytes) ended report }
    ensures one_text { (input : PairsInput) (a b : Ended) (x y : List ℕ) → PairsReports input a x → PairsReports input b y → x ≡ y }
    ensures one_ending { (input : PairsInput) (a b : Ended) (x y : List ℕ) → PairsReports input a x → PairsReports input b y → a ≡ b }
{}
