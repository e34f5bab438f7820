//! The run over a node file.
ghost use Rattle.node_runner.specs.Ran.{RanNode};
ghost use Rattle.file_run.specs.Outside.{told};

use crate::node::Node;
use file_run::run_over;
use fsoe_base::End;
use fsoe_io::{Ended, Sink, Source};

/// Runs the node at this end over a node file: reads its header, then an event from each line up to `end`. For each
/// event it writes a line `<n> <did> <state> <outputs>`, with ` > <frame>` if a frame was sent, and at the end
/// `events <n>`. If a line is refused, it writes `refused <line> <cause>`. Buffered output is flushed before each read
/// that may block, and at the end of the run.
///
/// The status is `Ok` with place 0. `Line` has the number of the refused line. `Read` has the complete lines read, only
/// if the source failed; `Write` has the bytes written, only if the sink failed.
pub fn run_node<S: Source, K: Sink>(mut end: End, source: &mut S, sink: &mut K) -> Ended
    ensures { RanNode end result (record { source = told S.left S.faults source.old source.new; sink = told K.written K.faults sink.old sink.new }) }
{
    run_over::<Node, S, K>(&mut end, source, sink)
}
