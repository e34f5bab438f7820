//! The first tests of a delivered frame, in order, which need no session.

ghost use Rattle.std.specs.Prelude.{◌≡◌, IsTrue};
ghost use Rattle.fsoe_base.specs.Command.{command_byte};
ghost use Rattle.fsoe_base.specs.Lengths.{is_length};
ghost use Rattle.seq_chain.specs.Opened.{opened, reset_opened};
ghost use Rattle.seq_chain.specs.Session.{HasLen};
ghost use Rattle.seq_chain.specs.Reset as reset;

use crate::reset::reset_view;
use crate::session_frame::UnreadFrame;
use fsoe_base::{Code, Command, Dropped};
use fsoe_frame::FrameView;

/// The result of the first tests of a received frame.
#[derive(Drop)]
pub enum Opened<'a> {
    /// The frame must be dropped, for this reason.
    Drop(Dropped),
    /// A test fails with this code.
    Refuse(Code),
    /// It is a valid Reset frame with this code.
    ResetFrame(Code, FrameView<'a>),
    /// It is a frame of a session, of which only the command was tested.
    OfSession(UnreadFrame<'a>),
}

/// Does the first tests of a received frame, and returns the first that fails:
/// - `Drop(Length)` if it isn't a frame with `l` safe data bytes, `Drop(Repeat)` if `repeats` is true;
/// - code 02h if its first byte is that of no command;
/// - for a Reset frame 03h if the connection id isn't 0, 04h if a CRC is wrong, 07h if a byte after the code isn't 0.
#[inline(always)]
pub fn open<'a>(frame: &'a [u8], l: usize, repeats: bool) -> Opened<'a>
    requires { IsTrue (is_length l) }
    ensures is { result ≡ opened l repeats frame.now }
    ensures len { HasLen l result }
{
    let Some(view) = fsoe_frame::view(frame, l) else {
        return Opened::Drop(Dropped::Length);
    };
    if repeats {
        return Opened::Drop(Dropped::Repeat);
    }
    match Command::of(view.command_byte()) {
        None => Opened::Refuse(Code::UNKNOWN_COMMAND),
        Some(Command::Reset) => open_reset(view),
        Some(command) => Opened::OfSession(UnreadFrame { command, view }),
    }
}

/// Tests a Reset frame.
#[cold]
#[inline(never)]
fn open_reset<'a>(view: FrameView<'a>) -> Opened<'a>
    requires { view.cmd ≡ command_byte Command.Reset }
    ensures { result ≡ reset_opened view.entry (reset.reset_view view.entry) }
{
    match reset_view(&view) {
        Err(fault) => Opened::Refuse(fault),
        Ok(code) => Opened::ResetFrame(code, view),
    }
}
