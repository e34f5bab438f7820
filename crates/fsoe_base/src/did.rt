//! What one step of an end did.

use crate::byte_list::Image;
use crate::command::{Code, Command};
use crate::lengths::MOST_DATA;

/// A frame that an end took: its command and its safe data.
#[derive(Drop)]
pub struct Took {
    /// What the frame is for.
    pub command: Command,
    /// Its safe data, at most 126 bytes.
    pub load: Image,
}

/// Why an end went to state Reset.
#[derive(Clone, Copy, Debug, PartialEq, Eq)]
pub enum Cause {
    /// The program reset the end.
    Local,
    /// Its peer sent a Reset frame with this code.
    Peer(Code),
    /// It found a fault and sent a Reset frame with this code, 05h for its watchdog.
    Found(Code),
}

/// Why a delivered frame was dropped without an answer.
#[derive(Clone, Copy, Debug, PartialEq, Eq)]
pub enum Dropped {
    /// Its number of bytes isn't that of the peer's frames.
    Length,
    /// It equals the last accepted frame.
    Repeat,
    /// It fails a test in state Reset.
    InReset,
}

/// What one step of an end did. At most one of `took`, `reset` and `dropped` is there.
#[derive(Drop)]
pub struct Did {
    /// The frame that was taken.
    pub took: Option<Took>,
    /// A frame that is no Reset frame came as far as the test of its CRCs and passed it.
    pub passed: bool,
    /// A frame was sent.
    pub sent: bool,
    /// Why the end went to state Reset.
    pub reset: Option<Cause>,
    /// Why a frame was dropped.
    pub dropped: Option<Dropped>,
}

impl Did {
    ghost use Rattle.std.specs.Prelude.{◌≡◌, ◌≤◌, length, true, None};
    ghost use Rattle.fsoe_base.specs.Did.{nothing, dropped, takes, resets};

    /// Nothing was taken, sent, reset or dropped.
    pub fn nothing() -> Did
        ensures { result ≡ nothing }
    {
        Did {
            took: None,
            passed: false,
            sent: false,
            reset: None,
            dropped: None,
        }
    }

    /// A frame was dropped that didn't pass the CRC test of a session.
    pub fn dropped(why: Dropped) -> Did
        ensures { result ≡ dropped why }
    {
        Did {
            dropped: Some(why),
            ..Did::nothing()
        }
    }

    /// A frame with these safe data, at most 126 bytes, was taken, and one was sent. `passed` says whether it passed
    /// the CRC test of a session.
    pub fn took(command: Command, load: &[u8], passed: bool) -> Did
        requires { length load.now ≤ MOST_DATA }
        ensures { result ≡ takes command load.now passed }
    {
        let mut image = Image::new();
        image.set(load);
        Did::taken(
            Took {
                command,
                load: image,
            },
            passed,
        )
    }

    /// This frame was taken, and one was sent. `passed` says whether it passed the CRC test of a session.
    pub fn taken(took: Took, passed: bool) -> Did
        ensures { result ≡ takes took.command took.load passed }
    {
        Did {
            took: Some(took),
            passed,
            sent: true,
            reset: None,
            dropped: None,
        }
    }

    /// The end went to state Reset for this cause, and a Reset frame was sent. `passed` says whether a frame led to it
    /// that passed the CRC test of a session.
    pub fn reset(passed: bool, why: Cause) -> Did
        ensures { result ≡ resets passed why }
    {
        Did {
            took: None,
            passed,
            sent: true,
            reset: Some(why),
            dropped: None,
        }
    }

    /// Overwrites the old contents: nothing was taken, sent, reset or dropped.
    pub fn clear(&mut self)
        ensures { self.new ≡ nothing }
    {
        // Most steps that take nothing follow one like it, and then the room for a frame's data isn't written.
        if self.took.is_some() {
            self.took = None;
        }
        self.passed = false;
        self.sent = false;
        self.reset = None;
        self.dropped = None;
    }

    /// Reports that the frame in `took` was taken, and that one was sent. `passed` says whether it passed the CRC test
    /// of a session.
    pub fn tell_taken(&mut self, passed: bool)
        ensures { self.new ≡ record { took = self.old.took; passed = passed; sent = true; reset = None; dropped = None } }
    {
        self.passed = passed;
        self.sent = true;
        self.reset = None;
        self.dropped = None;
    }
}
