//! What holds of the definitions. The calls do nothing: each law is a contract.
ghost use Rattle.std.specs.Prelude.{◌≡◌, List, [], ◌∷◌, Some, None};
ghost use Rattle.fsoe_base.specs.declared.lengths.Lengths.{Lengths};
ghost use Rattle.trace_diag.specs.Conforms.{Conforms};
ghost use Rattle.trace_diag.specs.Judged.{first_difference, AreOfBytes};
ghost use Rattle.trace_diag.specs.declared.difference.Difference.{Difference};
ghost use Rattle.trace_diag.specs.Trace.{Noted};
ghost use Rattle.trace_diag.specs.Verdicts.{DiffersFirst};
ghost use Rattle.trace_diag.specs.WorkedTraces.{WorkedTraces};

/// Worked traces: a handshake with the first data, its first frames, altered ones, and each byte of it altered. Each
/// row of the table, and frames of other lengths, also as ends send them in lock step. Rows in frames of several
/// groups, in parameters that are cut between frames, and at a number with the extra increment.
pub fn worked_traces()
    ensures { WorkedTraces }
{}

/// No row of the table applies to any frame of a trace if and only if two ends, set to what is read off the trace, send
/// it. Else the first frame to which a row applies is the first that differs.
#[tactic(auto, using(crate::proofs::Theorem::none_where_conforms, crate::proofs::Theorem::differs_first))]
pub fn table()
    ensures conforms { (lengths : Lengths) (t : List Noted) → AreOfBytes t → first_difference lengths t ≡ None → Conforms lengths t }
    ensures none { (lengths : Lengths) (t : List Noted) → AreOfBytes t → Conforms lengths t → first_difference lengths t ≡ None }
    ensures first { (lengths : Lengths) (t : List Noted) (d : Difference) → AreOfBytes t → first_difference lengths t ≡ Some d → DiffersFirst lengths t d.number d.field }
{}

/// No frames conform; and a trace that conforms did so before its newest frame.
pub fn beginnings()
    ensures empty { (lengths : Lengths) → Conforms lengths [] }
    ensures before { (lengths : Lengths) (newest : Noted) (t : List Noted) → AreOfBytes (newest ∷ t) → Conforms lengths (newest ∷ t) → Conforms lengths t }
{}
