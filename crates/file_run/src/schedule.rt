//! How the lines of a schedule are parsed, of a node or of a pair.
ghost use Rattle.std.specs.Prelude.{◌≡◌};
ghost use Rattle.file_run.specs.Machine.{what_says};
ghost use Rattle.file_run.specs.Schedule.{grammar_says};

use crate::format::Format;
use fsoe_base::Lengths;
use param_load::Profiles;
use schedule_file::{
    Event, Header, HeaderKind, LineCause, ScheduleLine, profile_of, read_event_into,
    read_node_event_into,
};

/// How the lines of a schedule are parsed.
pub struct Schedule;

/// How the lines after the header of a schedule are parsed: for which ends, and with which lengths and profiles. For a
/// node, only those of its own end count.
#[derive(Clone, Copy)]
pub struct Grammar {
    pub kind: HeaderKind,
    pub lengths: Lengths,
    pub profiles: Profiles,
}

/// What a line says by a grammar, written over `said`, or why it is refused.
fn read_by(line: &[u8], grammar: &Grammar, said: &mut ScheduleLine) -> Result<(), LineCause>
    ensures { what_says result said.new ≡ grammar_says grammar.now line.now }
{
    match grammar.kind {
        HeaderKind::Pair => read_event_into(line, &grammar.lengths, &grammar.profiles, said),
        HeaderKind::Node(end) => {
            let profile = profile_of(&grammar.profiles, end);
            read_node_event_into(line, end, &grammar.lengths, profile, said)
        }
    }
}

impl Format for Schedule {
    ghost use Rattle.std.specs.Prelude.{false};
    ghost use Rattle.schedule_file.specs.Input.{schedule_format};
    ghost use Rattle.schedule_file.specs.LinesLeft.{lines_left};
    ghost use Rattle.schedule_file.specs.declared.header_kind.HeaderKind.{HeaderKind};
    ghost use Rattle.file_run.specs.Schedule.{grammar_says};

    type Header = Header;

    type Grammar = Grammar;

    type Line = ScheduleLine;

    type Event = Event;

    ghost Kind = { HeaderKind };

    ghost format = { schedule_format };

    ghost kind = { λ h. h.kind };

    ghost lines_left = { lines_left };

    ghost says = { grammar_says };

    fn line(header: &mut Header, line: &[u8]) -> Result<bool, LineCause> {
        header.line(line)
    }

    fn grammar(header: &Header) -> Grammar {
        Grammar {
            kind: header.kind(),
            lengths: header.lengths(),
            profiles: header.profiles(),
        }
    }

    fn end() -> ScheduleLine {
        ScheduleLine::End
    }

    fn read(grammar: &Grammar, line: &[u8], said: &mut ScheduleLine) -> Result<(), LineCause> {
        read_by(line, grammar, said)
    }

    fn event(line: &ScheduleLine) -> Option<&Event> {
        match line {
            ScheduleLine::Step(event) => Some(event),
            ScheduleLine::End => None,
        }
    }
}
