//! The numbers that only a controller has. The calls do nothing: the laws are their contracts.
ghost use Rattle.std.specs.Prelude.{◌≡◌, ◌≤◌, ◌+◌, Some, option_map};
ghost use Rattle.fsoe_base.specs.declared.command.Code.{Code};
ghost use Rattle.fsoe_base.specs.declared.did.Dropped.{Dropped};
ghost use Rattle.fb_lib.specs.declared.kind.BlockKind.TheVariants as kind;
ghost use Rattle.c_values.specs.Numbers.{dropped_number};
ghost use Rattle.controller_c.specs.Counts.{code_place, dropped_place};
ghost use Rattle.controller_c.specs.Making.{kind_number};
ghost use Rattle.controller_c.specs.declared.numbers.TheConstants.{NO_MEMORY, RUNNING, NOT_RUNNING, NO_CONNECTION, TOO_MANY, SAME_CONN, BAD_KIND, NO_BLOCK, ARITY, LATER, NO_INPUT, NO_OUTPUT, TWICE};

/// The answers are the numbers of `enum gp_controller_answer` in `embed/gatepast_controller.h`.
pub fn answers()
    ensures no_memory { NO_MEMORY ≡ 20 }
    ensures running { RUNNING ≡ 21 }
    ensures not_running { NOT_RUNNING ≡ 22 }
    ensures no_connection { NO_CONNECTION ≡ 23 }
    ensures too_many { TOO_MANY ≡ 24 }
    ensures same_conn { SAME_CONN ≡ 25 }
    ensures bad_kind { BAD_KIND ≡ 26 }
    ensures no_block { NO_BLOCK ≡ 27 }
    ensures arity { ARITY ≡ 28 }
    ensures later { LATER ≡ 29 }
    ensures no_input { NO_INPUT ≡ 30 }
    ensures no_output { NO_OUTPUT ≡ 31 }
    ensures twice { TWICE ≡ 32 }
{}

/// The kinds of blocks have the numbers of `enum gp_kind`.
pub fn kinds()
    ensures const0 { kind_number kind.Const0 ≡ 0 }
    ensures const1 { kind_number kind.Const1 ≡ 1 }
    ensures and { kind_number kind.And ≡ 2 }
    ensures or { kind_number kind.Or ≡ 3 }
    ensures latch { kind_number kind.Latch ≡ 4 }
    ensures estop { kind_number kind.Estop ≡ 5 }
    ensures two_hand { kind_number kind.TwoHand ≡ 6 }
    ensures on_delay { kind_number kind.OnDelay ≡ 7 }
    ensures off_delay { kind_number kind.OffDelay ≡ 8 }
    ensures feedback { kind_number kind.Feedback ≡ 9 }
{}

/// Dropped frames are counted by the numbers of `enum gp_dropped` less 1, and resets by codes up to 0Bh, and one for all
/// others.
pub fn counts()
    ensures dropped { (why : Dropped) → option_map (λ place. place + 1) (dropped_place (Some why)) ≡ Some (dropped_number (Some why)) }
    ensures codes { (code : Code) → code.0 ≤ 11 → code_place code ≡ code.0 }
    ensures others { (code : Code) → 12 ≤ code.0 → code_place code ≡ 12 }
{}
