//! What holds of reports.
ghost use Rattle.std.specs.Prelude.{◌≡◌, ℕ, List};
ghost use Rattle.fsoe_base.specs.declared.command.End.{End};
ghost use Rattle.schedule_file.specs.declared.header_kind.HeaderKind.TheVariants as kind;
ghost use Rattle.schedule_file.specs.Input.{Input, input_of};
ghost use Rattle.node_runner.specs.Report.{IsReport};

/// For each input there is exactly one report at an end: a complete header has all settings of the end, and all of them
/// are valid. The call does nothing: the laws are its contract.
pub fn one_report()
    ensures some { (end : End) (bytes : List ℕ) → (report : List ℕ) × IsReport end (input_of (kind.Node end) bytes) report }
    ensures only { (end : End) (input : Input) (a b : List ℕ) → IsReport end input a → IsReport end input b → a ≡ b }
{}
