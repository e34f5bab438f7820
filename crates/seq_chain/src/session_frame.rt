//! A frame of a session, and the same before its safe data are read.
use fsoe_base::{Command, Did, Image, MOST_DATA, MOST_FRAME, Took};
use fsoe_frame::FrameView;
use std::marker::Model;

/// A received frame of a session: its command is known, its safe data aren't read yet. In contracts the value is the
/// command and the frame.
#[derive(Drop)]
pub struct UnreadFrame<'a> {
    pub(crate) command: Command,
    pub(crate) view: FrameView<'a>,
}

impl<'a> Model for UnreadFrame<'a> {
    ghost use Rattle.std.specs.Prelude.{◌≡◌};
    ghost use Rattle.fsoe_base.specs.Command.{command_byte};
    ghost use Rattle.seq_chain.specs.SessionFrame.{SessionFrameView};

    ghost Value = { SessionFrameView };

    ghost view = { λ s. record { command = s.command; frame = s.view } };

    ghost invariant = { λ s. s.view.cmd ≡ command_byte s.command };
}

impl<'a> UnreadFrame<'a> {
    ghost use Rattle.std.specs.Prelude.{◌≡◌, IsTrue, Some, [], length};
    ghost use Rattle.fsoe_base.specs.Lengths.{is_length, group_count};

    /// The command.
    pub fn command(&self) -> Command
        ensures { result ≡ self.now.command }
    {
        self.command
    }

    /// Copies the safe data into `out`, whose old contents are lost. Their number is one that a frame can have, and
    /// there is a CRC for each group of them.
    pub fn load_into(&self, out: &mut Image)
        ensures value { out.new ≡ self.now.frame.load }
        ensures valid { IsTrue (is_length (length out.new)) }
        ensures groups { length self.now.frame.crcs ≡ group_count (length out.new) }
    {
        self.view.load_into(out);
    }

    /// Writes the command to `did.took`, and no safe data. It clears the room of what it makes, so it isn't inlined.
    #[cold]
    #[inline(never)]
    fn make_room(&self, did: &mut Did)
        ensures { did.new ≡ record did.old { took = Some (record { command = self.now.command; load = [] }) } }
    {
        did.took = Some(Took {
            command: self.command,
            load: Image::new(),
        });
    }

    /// Writes the command and the safe data to `did.took`, whose old contents are lost, and changes no other field.
    #[inline(always)]
    pub fn took_into(&self, did: &mut Did)
        ensures value { did.new ≡ record did.old { took = Some (record { command = self.now.command; load = self.now.frame.load }) } }
        ensures valid { IsTrue (is_length (length self.now.frame.load)) }
        ensures groups { length self.now.frame.crcs ≡ group_count (length self.now.frame.load) }
    {
        if did.took.is_none() {
            self.make_room(did);
        }
        if let Some(took) = &mut did.took {
            took.command = self.command;
            self.view.load_into(&mut took.load);
        }
    }
}

/// A received frame of a session with its safe data. In contracts the value is the command and the frame, which is read
/// where it was opened, so that it isn't moved.
#[derive(Drop)]
pub struct SessionFrame<'a> {
    command: Command,
    view: &'a FrameView<'a>,
    load: &'a [u8],
}

impl<'a> Model for SessionFrame<'a> {
    ghost use Rattle.seq_chain.specs.SessionFrame.{SessionFrameView};
    ghost use Rattle.seq_chain.specs.Session.{IsSessionFrame};

    ghost Value = { SessionFrameView };

    ghost view = { λ s. record { command = s.command; frame = s.view.now } };

    ghost invariant = { λ s. IsSessionFrame (record { command = s.command; frame = s.view.now }) s.load.now };
}

impl<'a> SessionFrame<'a> {
    ghost use Rattle.std.specs.Prelude.{◌≡◌, ◌≤◌, IsTrue, length};
    ghost use Rattle.fsoe_base.specs.Lengths.{is_length, group_count};
    ghost use Rattle.fsoe_frame.specs.Parts.{bytes_of};

    /// This frame, with its safe data as `load_into` gives them.
    pub fn new(frame: &'a UnreadFrame<'a>, load: &'a Image) -> SessionFrame<'a>
        requires load { load.now ≡ frame.now.frame.load }
        requires valid { IsTrue (is_length (length load.now)) }
        requires groups { length frame.now.frame.crcs ≡ group_count (length load.now) }
        ensures { result ≡ frame.now }
    {
        SessionFrame {
            command: frame.command,
            view: &frame.view,
            load: load.bytes(),
        }
    }

    /// The command.
    pub fn command(&self) -> Command
        ensures { result ≡ self.now.command }
    {
        self.command
    }

    /// The frame.
    pub fn view(&self) -> &FrameView<'a>
        ensures { result.now ≡ self.now.frame }
    {
        self.view
    }

    /// The connection id of the frame.
    pub fn conn(&self) -> u16
        ensures { result ≡ self.now.frame.conn }
    {
        self.view.conn()
    }

    /// Returns the safe data: a number of bytes that a frame can have, with a CRC for each group.
    pub fn load(&self) -> &[u8]
        ensures value { result.now ≡ self.now.frame.load }
        ensures most { length result.now ≤ MOST_DATA }
        ensures valid { IsTrue (is_length (length result.now)) }
        ensures groups { length self.now.frame.crcs ≡ group_count (length result.now) }
    {
        self.load
    }

    /// The bytes of the frame, at most 255.
    pub fn bytes(&self) -> &[u8]
        ensures value { result.now ≡ bytes_of self.now.frame }
        ensures most { length result.now ≤ MOST_FRAME }
    {
        self.view.bytes()
    }
}
