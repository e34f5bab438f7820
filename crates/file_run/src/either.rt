//! The run of one of two machines, which the first line of its input decides.
ghost use Rattle.std.specs.Prelude.{◌≡◌};
ghost use Rattle.file_run.specs.ByTitle.{ByTitle};
ghost use Rattle.file_run.specs.Running.{Leaves};
ghost use Rattle.file_run.specs.Outside.{Outside, told};
ghost use Rattle.file_run.specs.Ran.{RanOver};

use crate::line::next_line;
use crate::machine::Machine;
use crate::run::{end_unread, run_on};
use fsoe_io::{Ended, LineReader, Sink, Source};

/// If the first line of the input is `title`, runs the machine `T`; this line is then the first of its header. Else,
/// also if the first line is too long or doesn't come, it runs the machine `M`. The run is that of `run_over`, and what
/// was handed for the other machine stays unchanged.
pub fn run_either<T: Machine, M: Machine, S: Source, K: Sink>(
    title: &[u8],
    titled: &mut T::Handed,
    plain: &mut M::Handed,
    source: &mut S,
    sink: &mut K,
) -> Ended
    ensures ran { let outside : Outside = record { source = told S.left S.faults source.old source.new; sink = told K.written K.faults sink.old sink.new } in
        ByTitle title.now (S.left source.old) (RanOver (T.reporting titled.old) result outside) (RanOver (M.reporting plain.old) result outside) }
    ensures leaves { let outside : Outside = record { source = told S.left S.faults source.old source.new; sink = told K.written K.faults sink.old sink.new } in
        ByTitle title.now (S.left source.old)
        ((plain.new ≡ plain.old)
        × Leaves (titled.new ≡ titled.old) (T.reporting titled.old) (λ h log text. (v : T) × T.stands titled.old v titled.new h log text) (T.closes titled.old titled.new) result outside)
        ((titled.new ≡ titled.old)
        × Leaves (plain.new ≡ plain.old) (M.reporting plain.old) (λ h log text. (v : M) × M.stands plain.old v plain.new h log text) (M.closes plain.old plain.new) result outside) }
{
    T::laws();
    M::laws();
    let mut reader = LineReader::new();
    match next_line(&mut reader, source) {
        Ok(()) => {
            if reader.line() == title {
                run_on::<T, S, K>(titled, &mut reader, source, sink)
            } else {
                run_on::<M, S, K>(plain, &mut reader, source, sink)
            }
        }
        Err(why) => end_unread(sink, why),
    }
}
