//! The judge that runs over the frames of an input.
ghost use Rattle.std.specs.Prelude.{◌≡◌, ◌≤◌, [], length};

use crate::format::TraceFormat;
use crate::header::TraceHeader;
use crate::noted::Noted;
use crate::report::write_verdict;
use crate::trace::Trace;
use file_run::{Machine, Stopped};
use fsoe_base::Memory;
use fsoe_io::{Ended, LineText};
use schedule_file::MAX_EVENTS;

/// The judge of a trace, as the command runs it: each frame is noted, and all is told at the end.
#[derive(Drop)]
pub(crate) struct Diagnosis {
    trace: Trace,
}

impl Machine for Diagnosis {
    ghost use Rattle.file_run.specs.Machine.{EndsReport};
    ghost use Rattle.std.specs.Prelude.{[]};
    ghost use Rattle.trace_diag.specs.Judged.{judge_reporting, DiagnosisStands};

    type Format = TraceFormat;

    type Handed = ();

    ghost reporting = { λ handed. judge_reporting };

    ghost stands = { λ first v now. DiagnosisStands v.trace };

    ghost waits = { λ v now. [] };

    ghost parts = { λ v now. 0 };

    ghost closes = { λ first now. EndsReport judge_reporting };

    fn laws() {}

    fn open(_: &()) -> Result<TraceHeader, Memory> {
        Ok(TraceHeader::new())
    }

    fn begin(header: &TraceHeader, _: &mut ()) -> Result<Diagnosis, Memory> {
        Ok(Diagnosis {
            trace: Trace::new(header.lengths()),
        })
    }

    fn is_full(&self, _: &(), events: u64) -> bool {
        events == MAX_EVENTS
    }

    fn report(
        &mut self,
        _: &mut (),
        event: &Noted,
        number: u64,
        text: &mut LineText,
    ) -> Result<(), Stopped> {
        self.trace.note(event.from, event.frame.bytes());
        text.clear();
        Ok(())
    }

    fn close(&mut self, _: &(), events: u64, text: &mut LineText) -> Ended {
        write_verdict(events, &self.trace.verdict(), text)
    }

    fn more(&mut self, _: &(), text: &mut LineText) {
        text.clear();
    }
}
