//! What an end keeps of a session, and the tests of a frame at it.
ghost use Rattle.std.specs.Prelude.{◌≡◌, length, IsTrue, Some, IfOk, option_copied};
ghost use Rattle.std.specs.Result.{result_err};
ghost use Rattle.fsoe_base.specs.Lengths.{is_length};
ghost use Rattle.seq_chain.specs.Session.{fits_next, tested, frame_sent, first_session, session_taken, session_sent, chain_in, last_in};
ghost use Rattle.seq_chain.specs.Opened as words;

use crate::chain::Chain;
use crate::link::Link;
use crate::session_frame::SessionFrame;
use fsoe_base::{Code, Command, FrameBuf};

/// What an end keeps of a session: its chain, and the last frame that it took, to detect a repeat.
#[derive(Drop)]
pub struct Session {
    chain: Chain,
    last: FrameBuf,
}

impl Session {
    /// A session in which no frame was sent or taken yet.
    pub fn new() -> Session
        ensures { result ≡ first_session }
    {
        Session {
            chain: Chain::new(),
            last: FrameBuf::new(),
        }
    }

    /// A session in which no frame was sent yet, and these bytes of a Reset frame, at most 255, were taken last.
    pub fn after(reset: FrameBuf) -> Session
        ensures { result ≡ record first_session { last = reset } }
    {
        Session {
            chain: Chain::new(),
            last: reset,
        }
    }

    /// Takes a frame, with the result of its CRC test in this session.
    pub fn take(&mut self, frame: &SessionFrame<'_>, link: Link)
        requires { tested self.old.chain frame.now.frame ≡ Some link }
        ensures { self.new ≡ session_taken self.old frame.now }
    {
        self.chain.note(link);
        self.last.set(frame.bytes());
    }

    /// Seals the next frame into `out`, whose old contents are lost. The load has 1 byte or an even number up to 126.
    pub fn seal(&mut self, command: Command, conn: u16, load: &[u8], out: &mut FrameBuf)
        requires { IsTrue (is_length (length load.now)) }
        ensures session { self.new ≡ session_sent self.old conn command load.now }
        ensures frame { out.new ≡ frame_sent self.old.chain conn command load.now }
    {
        self.chain.seal(command, conn, load, out);
    }
}

/// Returns true if these bytes are those of the last frame taken in this session, if there is one.
pub fn is_repeat(session: Option<&Session>, frame: &[u8]) -> bool
    ensures { result ≡ words.is_repeat (last_in (option_copied session.entry)) frame.now }
{
    match session {
        None => false,
        Some(session) => session.last.bytes() == frame,
    }
}

/// Tests a frame with the session of the receiver, or with none. Returns the values to store when the frame is taken.
/// The first refusal counts: 01h if the command isn't allowed, 03h if the connection id is wrong, 04h if a CRC is
/// wrong.
#[inline(never)]
pub fn test_session(
    session: Option<&Session>,
    is_allowed: bool,
    has_conn: bool,
    frame: &SessionFrame<'_>,
) -> Result<Link, Code>
    ensures code { result_err result ≡ words.session_fault is_allowed has_conn (fits_next (chain_in (option_copied session.entry)) frame.now.frame) }
    ensures link { IfOk result (λ link. tested (chain_in (option_copied session.entry)) frame.now.frame ≡ Some link) }
    ensures allowed { IfOk result (λ link. IsTrue is_allowed) }
{
    if !is_allowed {
        return Err(Code::COMMAND_NOT_ALLOWED);
    }
    if !has_conn {
        return Err(Code::WRONG_CONNECTION);
    }
    let chain = match session {
        None => Chain::new(),
        Some(session) => session.chain,
    };
    chain.test_frame(frame).ok_or(Code::WRONG_CRC)
}
