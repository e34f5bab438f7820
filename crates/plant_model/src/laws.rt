//! What holds of the definitions. The calls do nothing: each law is a contract.

ghost use Rattle.std.specs.Prelude.{List, All};
ghost use Rattle.black_channel.specs.Told.{ChannelTold};
ghost use Rattle.plant_conf.specs.Kept.{HasSameLengths};
ghost use Rattle.plant_conf.specs.declared.conf.LinkConf.{LinkConf};
ghost use Rattle.plant_model.specs.declared.journal.JournalStep.{JournalStep};
ghost use Rattle.plant_model.specs.FairPairs.{StepFits, PairsAreFair};
ghost use Rattle.plant_model.specs.Uses.{Use, Trace};
ghost use Rattle.plant_model.specs.Gifts.{ToldLists, ToldHolds, EmptiesRose};
ghost use Rattle.plant_model.specs.WorkedPlant.{SevenTicks, StopLines};

/// What is known of any channel follows from its uses: the parcels pushed and given, and what it holds and gives, each
/// if known. So does its count of pulls that gave nothing.
#[tactic(auto, using(crate::proofs::Traces::told_lists, crate::proofs::Traces::told_holds, crate::proofs::Traces::empties_rose))]
pub fn traces()
    ensures lists { (uses : List Use) (old new : ChannelTold) → Trace uses old new → ToldLists uses old new }
    ensures holds { (uses : List Use) (old new : ChannelTold) → Trace uses old new → ToldHolds uses old new }
    ensures empties { (uses : List Use) (old new : ChannelTold) → Trace uses old new → EmptiesRose uses old new }
{}

/// The law of the pair holds of each connection of a plant, whatever parcels its channel gave. The entries of its pair
/// before the first `other` entry, all if there is none, are fair.
#[tactic(auto, using(crate::proofs::Proper::pairs_are_fair))]
pub fn pairs()
    ensures fair { (links : List LinkConf) (journal : List JournalStep) → All HasSameLengths links → All (StepFits links) journal → PairsAreFair links journal }
{}

/// A worked plant: an emergency stop at one connection drives a bit of another, and its connection is cut.
pub fn worked_plant()
    ensures seven_ticks { SevenTicks }
    ensures stop_lines { StopLines }
{}
