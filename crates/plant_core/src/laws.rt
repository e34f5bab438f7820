//! What holds of a plant that does what its acts say. The calls do nothing: each law is a contract.

ghost use Rattle.std.specs.Prelude.{List, All};
ghost use Rattle.plant_conf.specs.Kept.{HasSameLengths};
ghost use Rattle.plant_model.specs.Acts.{Beginning, Act};
ghost use Rattle.plant_model.specs.Bound.{Reacts};
ghost use Rattle.plant_model.specs.Broken.{BrokenByOther};
ghost use Rattle.plant_model.specs.FairPairs.{PairsAreFair};
ghost use Rattle.plant_model.specs.Promises.{AllSound};
ghost use Rattle.plant_core.specs.Standing.{PlantView, PlantStands};

/// The law of the pair holds of each connection of a plant, whatever its channel gave. The entries before the first
/// `other` entry, all if there is none, are fair.
#[tactic(auto, using(crate::proofs::Worlds::plants_are_fair))]
pub fn fair()
    ensures { (b : Beginning) (v : PlantView) (acts : List Act) → PlantStands b v acts → All HasSameLengths b.links → PairsAreFair b.links v.journal }
{}

/// After each act that ran a cycle the offers of all connections are the results of the application. They have 0 in
/// each output bit that the application guards by a 0 input bit.
#[tactic(auto, using(crate::proofs::Worlds::sound))]
pub fn answers()
    ensures { (b : Beginning) (v : PlantView) (acts : List Act) → PlantStands b v acts → AllSound b acts }
{}

/// The reaction bound. Let an e-stop's bit be 0, or its slave held, from some acts on, and let each later cycle that
/// reads its bit as 0 keep the drive off. Then the drive is off after each step by which twice both watchdogs' ticks,
/// less 3, have come since. This holds whatever the channel gave, if neither pair has an `other` entry.
pub fn reacts()
    ensures { (b : Beginning) (v : PlantView) (acts : List Act) → PlantStands b v acts → All HasSameLengths b.links → Reacts b acts }
{}

/// A bound is broken only if the pair of one of its bits has an `other` entry. If none has one, no tick is late.
pub fn broken()
    ensures { (b : Beginning) (v : PlantView) (acts : List Act) → PlantStands b v acts → All HasSameLengths b.links → BrokenByOther b acts }
{}
