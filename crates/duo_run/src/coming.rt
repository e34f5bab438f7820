//! What comes at an event: which end it happens at, and the bytes that are delivered.
ghost use Rattle.std.specs.Prelude.{◌≡◌, ◌≤◌, Some, None, length, IfOk, OnErr};
ghost use Rattle.param_load.specs.MoveRef.{owned_move};
ghost use Rattle.schedule_file.specs.Event.{IsWritable};
ghost use Rattle.exchange_model.specs.World.{end_of_event, move_from};
ghost use Rattle.duo_run.specs.Acts.{move_at, Comes, IsAltered};

use crate::fault::StepFault;
use black_channel::{Window, altered};
use fsoe_base::{End, FrameBuf, MOST_FRAME};
use param_load::{Move, MoveRef};
use schedule_file::Event;

/// The end at which an event happens.
pub(crate) fn end_of(event: &Event) -> End
    ensures { result ≡ end_of_event event.now }
{
    match event {
        Event::Deliver { to, .. } | Event::Altered { to, .. } | Event::Raw { to, .. } => *to,
        Event::Tick { at }
        | Event::Put { at, .. }
        | Event::Hold { at, .. }
        | Event::Nonce { at, .. }
        | Event::Local { at } => *at,
    }
}

/// Writes the frame as it comes to `copy`, if the event alters one and it was sent.
pub(crate) fn alter(event: &Event, heard: &Window, copy: &mut FrameBuf)
    requires { IsWritable event.now }
    ensures { IsAltered heard.now.frames event.now copy.new }
{
    if let Event::Altered {
        back,
        pos,
        mask,
        ..
    } = event
        && let Some(frame) = heard.look_back(*back)
    {
        copy.set(frame.bytes());
        // The frame has this place, since the event fits; a window doesn't know how long its frames are.
        if usize::from(*pos) < copy.len() {
            altered(copy, *pos, *mask);
        }
    }
}

/// The bytes that come at an event, none if nothing does: a frame in the peer's window, or its altered copy.
pub(crate) fn came<'a>(
    event: &'a Event,
    heard: &'a Window,
    copy: &'a FrameBuf,
) -> Result<&'a [u8], StepFault>
    requires writable { IsWritable event.now }
    requires copy { IsAltered heard.now.frames event.now copy.now }
    ensures comes { IfOk result (λ came. Comes heard.now.frames event.now came.now) }
    ensures most { IfOk result (λ came. length came.now ≤ MOST_FRAME) }
    ensures missed { OnErr result (move_from heard.now.frames event.now ≡ None) }
{
    match event {
        Event::Deliver { back, .. } => match heard.look_back(*back) {
            Some(frame) => Ok(frame.bytes()),
            None => Err(StepFault::NoSuchFrame),
        },
        Event::Altered { back, .. } => match heard.look_back(*back) {
            Some(_) => Ok(copy.bytes()),
            None => Err(StepFault::NoSuchFrame),
        },
        Event::Raw { frame, .. } => Ok(frame.bytes()),
        _ => Ok(&[]),
    }
}

/// What an event is to its end, at which these bytes come.
pub(crate) fn move_at<'a>(event: &'a Event, came: &'a [u8]) -> MoveRef<'a>
    ensures { owned_move result ≡ move_at event.now came.now }
{
    match event {
        Event::Deliver { .. } | Event::Altered { .. } | Event::Raw { .. } => MoveRef::Deliver(came),
        Event::Tick { .. } => MoveRef::Tick,
        Event::Put { load, .. } => MoveRef::Put(load.bytes()),
        Event::Hold { failsafe, .. } => MoveRef::Hold(*failsafe),
        Event::Nonce { id, .. } => MoveRef::Nonce(*id),
        Event::Local { .. } => MoveRef::Local,
    }
}

/// What an event is to its end, by the window of the frames that the peer sent.
pub(crate) fn moved(event: &Event, heard: &Window) -> Result<Move, StepFault>
    requires { IsWritable event.now }
    ensures found { IfOk result (λ what. move_from heard.now.frames event.now ≡ Some what) }
    ensures missed { OnErr result (move_from heard.now.frames event.now ≡ None) }
{
    let mut copy = FrameBuf::new();
    alter(event, heard, &mut copy);
    let came = came(event, heard, &copy)?;
    Ok(move_at(event, came).to_move())
}
