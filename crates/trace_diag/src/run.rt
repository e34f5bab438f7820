//! The run over a recorded trace.
ghost use Rattle.trace_diag.specs.Ran.{RanDiagnose};
ghost use Rattle.file_run.specs.Outside.{told};

use crate::diagnosis::Diagnosis;
use file_run::run_over;
use fsoe_io::{Ended, Sink, Source};

/// Judges a trace: reads its header, `fsoe 1 trace`, `lengths <master> <slave>` and `go`, then a frame from each line,
/// `m <hex>` or `s <hex>`, up to `end`, at most 200,000. It writes `frames <n>`. Then it writes
/// `read <conn> <address> <watchdog> <app>`, with `-` for what is unknown, and `conforms`, or `frame <number> <field>`
/// for the first frame that differs. If a line is refused, it writes only `refused <line> <cause>`.
///
/// The status is `Ok` with place 0, or `Other` with the number of the first frame that differs. `Line` has the number
/// of the refused line. `Read` has the complete lines read, only if the source failed; `Write` has the bytes written,
/// only if the sink failed.
pub fn run_diagnose<S: Source, K: Sink>(source: &mut S, sink: &mut K) -> Ended
    ensures { RanDiagnose result (record { source = told S.left S.faults source.old source.new; sink = told K.written K.faults sink.old sink.new }) }
{
    run_over::<Diagnosis, S, K>(&mut (), source, sink)
}
