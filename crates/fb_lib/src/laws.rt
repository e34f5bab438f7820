//! What holds of all blocks. The calls do nothing: each law is a contract.
ghost use Rattle.std.specs.Prelude.{◌≡◌, ℕ, true, false, Bool, List, [], ◌∷◌};
ghost use Rattle.fb_lib.specs.declared.kind.BlockKind.{BlockKind};
ghost use Rattle.fb_lib.specs.declared.kind.TheConstants.{MOST_INPUTS};
ghost use Rattle.fb_lib.specs.Cycle.{Cycle};
ghost use Rattle.fb_lib.specs.Kind.{most_inputs};
ghost use Rattle.fb_lib.specs.Value.{value};
ghost use Rattle.fb_lib.specs.Standing.{values, BlockStands, Stepped, AreOff};
ghost use Rattle.fb_lib.specs.Steps.{BlockView};
ghost use Rattle.fb_lib.specs.Guarded.{is_guarded};
ghost use Rattle.fb_lib.specs.Rows.{EstopRow, OnDelayRow, OffDelayRow, TwoHandRow, FeedbackRow, GuardRows};

/// The constant is the limit of the definitions.
pub fn constants()
    ensures { MOST_INPUTS ≡ most_inputs }
{}

/// Worked rows of single blocks: the inputs cycle by cycle, and the values; and which inputs guard them.
#[tactic(auto, unfolding(crate::specs::Rows::EstopRow, crate::specs::Rows::OnDelayRow, crate::specs::Rows::OffDelayRow, crate::specs::Rows::TwoHandRow, crate::specs::Rows::FeedbackRow, crate::specs::Rows::GuardRows))]
pub fn worked_rows()
    ensures estop { EstopRow }
    ensures on_delay { OnDelayRow }
    ensures off_delay { OffDelayRow }
    ensures two_hand { TwoHandRow }
    ensures feedback { FeedbackRow }
    ensures guards { GuardRows }
{}

/// A new block that is stepped through any cycles gives in each its value by looking back, and stands for them all.
#[tactic(auto, using(crate::proofs::Calls::outputs_are, crate::proofs::Calls::stands))]
pub fn calls()
    ensures given { (k : BlockKind) (n : ℕ) (first last : BlockView) (e : List Cycle) (outputs : List Bool)
        → BlockStands k n first [] → Stepped first e outputs last → outputs ≡ values k n e }
    ensures stands { (k : BlockKind) (n : ℕ) (first last : BlockView) (e : List Cycle) (outputs : List Bool)
        → BlockStands k n first [] → Stepped first e outputs last → BlockStands k n last e }
{}

/// A guarded block is false in each cycle in which its guarded inputs are false, whatever came before.
#[tactic(auto, using(crate::proofs::Guarding::value_off))]
pub fn guards()
    ensures { (k : BlockKind) (n : ℕ) (gs : List Bool) (c : Cycle) (e : List Cycle)
        → AreOff gs c.ins → is_guarded k gs ≡ true → value k n (c ∷ e) ≡ false }
{}
