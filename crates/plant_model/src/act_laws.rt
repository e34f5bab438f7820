//! What holds of the acts of a plant. The calls do nothing: each law is a contract.

ghost use Rattle.std.specs.Prelude.{◌≡◌, List, map};
ghost use Rattle.fb_net.specs.NetView.{NetView};
ghost use Rattle.fb_net.specs.Standing.{IsNewNet};
ghost use Rattle.plant_model.specs.Acts.{Beginning, Act, journal, uses, line_step};
ghost use Rattle.plant_model.specs.NetCycles.{AnswersByNet};
ghost use Rattle.plant_model.specs.JournalLaws.{MastersAgree, Cycles, PullsFit, line_steps, pulled_in, short_ticks};
ghost use Rattle.plant_model.specs.Past.{AppsAreSpare, IsPast, Named, said, said_in};
ghost use Rattle.plant_model.specs.Gifts.{gifts, empty_pulls};
ghost use Rattle.plant_model.specs.declared.event.PlantLine.{PlantLine};
ghost use Rattle.plant_model.specs.WorkedActs.{FirstActs, CutActs};

/// The master of each pair of the journal does what this connection of the master of many connections does.
#[tactic(auto, using(crate::proofs::Masters::masters_agree))]
pub fn masters()
    ensures { (b : Beginning) (acts : List Act) → MastersAgree b acts }
{}

/// Between a tick and the next line of the script at most 64 parcels were pulled, and none elsewhere.
#[tactic(auto, using(crate::proofs::Lines::pulls_fit))]
pub fn pulls()
    ensures { (b : Beginning) (acts : List Act) → IsPast 0 acts → PullsFit 0 (journal b acts) }
{}

/// The lines of the script in a journal are the parsed ones, in order.
#[tactic(auto, using(crate::proofs::Lines::lines_are_said))]
pub fn lines()
    ensures { (b : Beginning) (acts : List Act) → line_steps (journal b acts) ≡ map line_step (said_in acts) }
{}

/// The applications that a script takes are among those of the caller, each an entry that no earlier line took.
#[tactic(auto, using(crate::proofs::SpareApps::apps_are_spare))]
pub fn apps()
    ensures { (spare : List Named) (lines : List PlantLine) → AppsAreSpare spare (said spare lines) }
{}

/// Exactly these acts run a cycle of the application: the start, each tick, each change of the application, and each
/// parcel that a master takes or resets on.
#[tactic(auto, using(crate::proofs::Cycled::cycles))]
pub fn cycles()
    ensures { (b : Beginning) (act : Act) (acts : List Act) → Cycles b act acts }
{}

/// While a net runs that had no cycle before, its answers are what looking back over its cycles says.
#[tactic(auto, using(crate::proofs::ByNet::answers_by_net))]
pub fn nets()
    ensures { (v : NetView) → IsNewNet v → (b : Beginning) (act : Act) (acts : List Act) → AnswersByNet v b act acts }
{}

/// The parcels that the channel gave are those in the journal, in their order. Its pulls that gave nothing are as many
/// as the ticks after which fewer than 64 parcels were pulled.
#[tactic(auto, using(crate::proofs::Lines::given, crate::proofs::Lines::empties))]
pub fn given()
    ensures gifts { (b : Beginning) (acts : List Act) → gifts (uses b acts) ≡ pulled_in (journal b acts) }
    ensures empties { (b : Beginning) (acts : List Act) → IsPast 0 acts → empty_pulls (uses b acts) ≡ short_ticks 0 (journal b acts) }
{}

/// Worked acts: the journal, and what happened to the channel.
pub fn worked_acts()
    ensures first { FirstActs }
    ensures cut { CutActs }
{}
