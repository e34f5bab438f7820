//! The end that a node runs: what an event is to it, and the line of its answer.
ghost use Rattle.std.specs.Prelude.{◌≡◌, []};
ghost use Rattle.schedule_file.specs.declared.header_kind.HeaderKind.TheVariants as kind;
ghost use Rattle.param_load.specs.MoveRef.{owned_move};
ghost use Rattle.node_runner.specs.Move.{move_of};
ghost use Rattle.node_runner.specs.Node.{NodeStands};

use end_core::Core;
use entry_text::push_entry;
use file_run::{Machine, Schedule, Stopped, ended_with, write_events};
use fsoe_base::{End, Memory};
use fsoe_io::{Ended, LineText};
use param_load::{Answer, MoveRef};
use schedule_file::{Event, Header, HeaderKind, MAX_EVENTS};

/// The node at one end, with what it did last.
#[derive(Drop)]
pub(crate) struct Node {
    core: Core,
    answer: Answer,
}

/// This end, with the settings of a header that describes it.
fn new_core(end: End, header: &Header) -> Core
    requires { header.now.kind ≡ kind.Node end }
    ensures { NodeStands end result header.now [] [] }
{
    match end {
        End::Master => Core::new_master(header.master()),
        End::Slave => Core::new_slave(header.slave()),
    }
}

/// What an event is to the end of a node.
#[inline(always)]
fn move_of(event: &Event) -> MoveRef<'_>
    ensures { owned_move result ≡ move_of event.now }
{
    match event {
        Event::Raw { frame, .. } => MoveRef::Deliver(frame.bytes()),
        Event::Deliver { .. } | Event::Altered { .. } => MoveRef::Deliver(&[]),
        Event::Tick { .. } => MoveRef::Tick,
        Event::Put { load, .. } => MoveRef::Put(load.bytes()),
        Event::Hold { failsafe, .. } => MoveRef::Hold(*failsafe),
        Event::Nonce { id, .. } => MoveRef::Nonce(*id),
        Event::Local { .. } => MoveRef::Local,
    }
}

impl Machine for Node {
    ghost use Rattle.node_runner.specs.Node.{NodeStands};
    ghost use Rattle.node_runner.specs.Ran.{node_reporting};
    ghost use Rattle.file_run.specs.Machine.{EndsReport};
    ghost use Rattle.std.specs.Prelude.{[]};

    type Format = Schedule;

    type Handed = End;

    ghost reporting = { λ end. node_reporting end };

    ghost stands = { λ end v now. NodeStands end v.core };

    ghost waits = { λ v now. [] };

    ghost parts = { λ v now. 0 };

    ghost closes = { λ end now. EndsReport (node_reporting end) };

    fn laws() {}

    fn open(end: &End) -> Result<Header, Memory> {
        Ok(Header::new(HeaderKind::Node(*end)))
    }

    fn begin(header: &Header, end: &mut End) -> Result<Node, Memory> {
        Ok(Node {
            core: new_core(*end, header),
            answer: Answer::new(),
        })
    }

    fn is_full(&self, _: &End, events: u64) -> bool {
        events == MAX_EVENTS
    }

    fn report(
        &mut self,
        _: &mut End,
        event: &Event,
        number: u64,
        text: &mut LineText,
    ) -> Result<(), Stopped> {
        self.core.act(move_of(event), &mut self.answer);
        text.clear();
        text.push_decimal(number);
        text.push(b" ");
        push_entry(
            &self.answer.did,
            self.core.state(),
            self.core.outputs(),
            self.answer.sent.bytes(),
            text,
        );
        text.push(b"\n");
        Ok(())
    }

    fn close(&mut self, _: &End, events: u64, text: &mut LineText) -> Ended {
        write_events(events, text);
        ended_with(None)
    }

    fn more(&mut self, _: &End, text: &mut LineText) {
        text.clear();
    }
}
