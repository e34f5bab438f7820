//! What holds of ages. The calls do nothing: each law is a contract.

ghost use Rattle.std.specs.Prelude.{◌≡◌, ℕ, ◌*◌, ◌-◌, ◌≤◌, true, false, IsTrue, IsSome, Some, None, List, [], ◌∷◌, IfSome, IsSomeAnd};
ghost use Rattle.fsoe_base.specs.declared.command.End.{End};
ghost use Rattle.param_load.specs.declared.entry.Entry.{Entry};
ghost use Rattle.param_load.specs.declared.master_settings.MasterSettings.{MasterSettings};
ghost use Rattle.param_load.specs.declared.slave_settings.SlaveSettings.{SlaveSettings};
ghost use Rattle.end_model.specs.Readiness.{told_terms};
ghost use Rattle.fsoe_base.specs.Image.{bit_of};
ghost use Rattle.exchange_model.specs.Ends.{of_end};
ghost use Rattle.exchange_model.specs.Fair.{received_len, outputs_due};
ghost use Rattle.exchange_model.specs.World.{setup_of, deeds, SameLengths};
ghost use Rattle.exchange_model.specs.Worlds.{IsWorld};
ghost use Rattle.exchange_model.specs.Other.{NoOther};
ghost use Rattle.reaction_bound.specs.Age.{age_of, worst_of};
ghost use Rattle.reaction_bound.specs.Reaction.{Quiet, Tick, broken_of};
ghost use Rattle.reaction_bound.specs.WorkedAge.{WorkedAges};

/// The law of the age, for both ends' settings with equal lengths and each world without an `other` entry. Outputs are
/// at most twice the watchdog in the end's terms, less 2, ticks old. The greatest age has this limit with the master's
/// watchdog, which all terms have. The ticks are the end's own: both ends share no clock.
#[tactic(auto, using(crate::proofs::Bounded::age_bounded, crate::proofs::Bounded::worst_bounded))]
pub fn bounded_ages()
    ensures age { (ms : MasterSettings) (ss : SlaveSettings) (which : End) (w : List Entry) → SameLengths ms ss → IsWorld ms ss w → NoOther w → IfSome (age_of which w) (λ n. IsSomeAnd (told_terms (setup_of ms ss which) (deeds which w)) (λ terms. n ≤ 2 * terms.watchdog - 2)) }
    ensures worst { (ms : MasterSettings) (ss : SlaveSettings) (which : End) (w : List Entry) → SameLengths ms ss → IsWorld ms ss w → NoOther w → IfSome (worst_of which w) (λ n. n ≤ 2 * ms.watchdog - 2) }
{}

/// In the same worlds outputs with a bit as 1 have an age, since they are from an item that the end awaited.
#[tactic(auto, using(crate::proofs::Aged::has_age))]
pub fn aged_outputs()
    ensures { (ms : MasterSettings) (ss : SlaveSettings) (which : End) (bit : ℕ) (w : List Entry) → SameLengths ms ss → IsWorld ms ss w → NoOther w → IsTrue (bit_of (outputs_due (received_len ms.lengths which) (of_end which w)) bit) → IsSome (age_of which w) }
{}

/// Worked reactions with a limit of two ticks: one is broken at the second tick with the drive on though the stop is
/// pressed, and not where it was let go between them.
pub fn worked_reactions()
    ensures broken { broken_of 2 (Tick true ∷ Tick true ∷ Quiet true ∷ []) ≡ Some 2 }
    ensures let_go { broken_of 2 (Tick true ∷ Quiet true ∷ Quiet false ∷ Tick true ∷ Quiet true ∷ []) ≡ None }
{}

/// Worked runs in which the outputs of each end get as old as the law allows and no older, and one without an age.
pub fn worked_ages()
    ensures { WorkedAges }
{}
