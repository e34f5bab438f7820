//! The replay of an input of either version: of one pair, or of several.
ghost use Rattle.duo_run.specs.Version.{RanReplay};
ghost use Rattle.file_run.specs.Outside.{told};

use crate::pair_run::PairRun;
use crate::pairs_run::PairsRun;
use file_run::run_either;
use fsoe_io::{Ended, Sink, Source};
use std::alloc::Global;

/// The first line of an input of several pairs.
const TITLE: &[u8] = b"fsoe 2 pairs";

/// Runs the pairs of an input of either version. If the first line is `fsoe 2 pairs`, the input has several pairs with
/// common ticks; any other input is run as `run_pair` does.
///
/// For each event it writes a line of each entry, `<n> <k> <m or s> <did> <state> <outputs>`, with ` > <frame>` if a
/// frame was sent: `n` is the event, `k` the pair. For a tick the lines of all slaves come first, then those of all
/// masters. At the end it writes `events <n>`, and for each pair `pair <k> other none` or `pair <k> other <n>`, with
/// the event of its first `other` entry. Refused lines and the output are handled as in `run_pair`.
///
/// The status is that of `run_pair`, and the place of `Other` is the smallest event with an `other` entry. For several
/// pairs it is `Memory` with place 0 if there was none before the first event; then nothing was written.
pub fn run_replay<S: Source, K: Sink>(mut alloc: Global, source: &mut S, sink: &mut K) -> Ended
    ensures { RanReplay result (record { source = told S.left S.faults source.old source.new; sink = told K.written K.faults sink.old sink.new }) }
{
    run_either::<PairsRun, PairRun, S, K>(TITLE, &mut alloc, &mut (), source, sink)
}
