//! The phase that a master is in.
ghost use Rattle.std.specs.Prelude.{◌≡◌, []};
ghost use Rattle.end_model.specs.Setup.{OfMaster};
ghost use Rattle.end_model.specs.Verdict.{has_conn};

use crate::kit::Kit;
use crate::states::{Due, InConnection, InData, InParameter, InReset, InSession};
use failsafe_io::zeros;
use fsoe_base::{Code, Command, FrameBuf, MOST_DATA, State};
use param_load::{MasterSettings, Progress, Terms};
use seq_chain::{Link, Session, SessionFrame, reset_frame, test_session};
use std::mem;

/// The phase that a master is in: that of the frame that it sent last, or of the one that is due.
#[derive(Drop)]
pub(crate) enum Phase {
    Reset(InReset),
    /// This Reset frame of the slave began a session, whose first frame is due.
    Begin(FrameBuf),
    Session(InSession),
    Connection(InConnection),
    Parameter(InParameter),
    Data(InData),
}

/// Whether the connection id of a frame with this command is right.
fn has_conn(settings: &MasterSettings, command: Command, field: u16) -> bool
    ensures { result ≡ has_conn (OfMaster settings.now) [] command field }
{
    match command {
        Command::Reset | Command::Session => field == 0,
        _ => field == settings.conn(),
    }
}

impl Phase {
    ghost use Rattle.std.specs.Prelude.{◌≡◌, ◌≢◌, ◌≤◌, length, None, Some, Ok, IfOk, option_copied};
    ghost use Rattle.std.specs.Result.{result_and, result_err};
    ghost use Rattle.seq_chain.specs.Session.{tested, HasPassed};
    ghost use Rattle.fsoe_base.specs.declared.command.State.TheVariants as state;
    ghost use Rattle.master_core.specs.declared.states.Due.{Due};
    ghost use Rattle.master_core.specs.declared.phase.Phase.TheVariants as phase;
    ghost use Rattle.master_core.specs.Kit.{connection_download, parameter_download};
    ghost use Rattle.master_core.specs.States.{first_data};
    ghost use Rattle.seq_chain.specs.Opened.{is_repeat};
    ghost use Rattle.end_model.specs.Setup.{OfMaster, receives};
    ghost use Rattle.master_core.specs.Phase.{IsUnder, state_of, is_reset, session_of, chain_of, kept_in, allows, fault, next_phase, sent_phase, due_frame, outputs_in, terms_in};

    pub(crate) fn state(&self) -> State
        ensures { result ≡ state_of self.now }
    {
        match self {
            Phase::Reset(_) => State::Reset,
            Phase::Begin(_) | Phase::Session(_) => State::Session,
            Phase::Connection(_) => State::Connection,
            Phase::Parameter(_) => State::Parameter,
            Phase::Data(_) => State::Data,
        }
    }

    pub(crate) fn is_reset(&self) -> bool
        ensures { result ≡ is_reset self.now }
    {
        matches!(self, Phase::Reset(_))
    }

    /// The session. There is none in state Reset, and none yet before its first frame.
    fn session(&self) -> Option<&Session>
        ensures { option_copied result ≡ session_of self.now }
    {
        match self {
            Phase::Reset(_) | Phase::Begin(_) => None,
            Phase::Session(state) => Some(&state.exchange.session),
            Phase::Connection(state) => Some(&state.exchange.session),
            Phase::Parameter(state) => Some(&state.exchange.session),
            Phase::Data(state) => Some(&state.session),
        }
    }

    /// Whether these bytes are those of the frame that was taken last. In state Reset none is kept.
    pub(crate) fn is_repeat(&self, frame: &[u8]) -> bool
        ensures { result ≡ is_repeat (kept_in self.now) frame.now }
    {
        seq_chain::is_repeat(self.session(), frame)
    }

    /// Whether a command of a session is allowed.
    fn allows(&self, command: Command) -> bool
        ensures { result ≡ allows self.now command }
    {
        match (self, command) {
            (Phase::Session(_), Command::Session) => true,
            (Phase::Connection(_), Command::Connection) => true,
            (Phase::Parameter(_), Command::Parameter) => true,
            (Phase::Data(_), Command::ProcessData) => true,
            (Phase::Data(_), Command::FailSafeData) => true,
            _ => false,
        }
    }

    /// Tests a frame of a session: its command, its connection id, and its CRCs. Returns the values to store when it is
    /// taken, or the code of the first test that fails.
    pub(crate) fn test(
        &self,
        settings: &MasterSettings,
        frame: &SessionFrame<'_>,
    ) -> Result<Link, Code>
        ensures code { result_err result ≡ fault settings.now self.now frame.now }
        ensures link { IfOk result (λ link. tested (chain_of self.now) frame.now.frame ≡ Some link) }
    {
        let is_allowed = self.allows(frame.command());
        let has_conn = has_conn(settings, frame.command(), frame.conn());
        test_session(self.session(), is_allowed, has_conn, frame)
    }

    /// Takes a frame that passed the tests in this phase, with the values that the chain stores of it, and goes on to
    /// what is sent next, in place. After a refusal the phase must only be left.
    pub(crate) fn take(
        &mut self,
        seen: &SessionFrame<'_>,
        link: Link,
        kit: &Kit,
    ) -> Result<(), Code>
        requires under { IsUnder kit.now.settings self.old }
        requires passed { HasPassed (receives (OfMaster kit.now.settings)) (chain_of self.old) seen.now link }
        ensures next { result_and result (Ok self.new) ≡ next_phase kit.now self.old seen.now }
        ensures under { IsUnder kit.now.settings self.new }
    {
        let Phase::Data(state) = self else {
            return self.shake_hands(seen, link, kit);
        };
        state.take(seen, link, kit)
    }

    // A function clears the room of all its locals, so that each change of phase, which makes a state, has one of its
    // own.

    /// Goes on to state Connection with this session.
    #[inline(never)]
    fn begin_connection(&mut self, session: Session, kit: &Kit)
        ensures next { self.new ≡ phase.Connection (record { session = session; download = connection_download kit.now.settings }) }
        ensures under { IsUnder kit.now.settings self.new }
    {
        *self = Phase::Connection(InConnection::begin(session, kit));
    }

    /// Goes on to state Parameter with this session.
    #[inline(never)]
    fn begin_parameter(&mut self, session: Session, kit: &Kit)
        ensures next { self.new ≡ phase.Parameter (record { session = session; download = parameter_download kit.now.settings }) }
        ensures under { IsUnder kit.now.settings self.new }
    {
        *self = Phase::Parameter(InParameter::begin(session, kit));
    }

    /// Goes on to state Data with this session.
    #[inline(never)]
    fn begin_data(&mut self, session: Session, kit: &Kit)
        ensures next { self.new ≡ phase.Data (first_data kit.now session) }
        ensures under { IsUnder kit.now.settings self.new }
    {
        *self = Phase::Data(InData::begin(session, kit));
    }

    /// Takes an answer outside state Data. It is a call of its own, so that a data frame doesn't bear the cost of a
    /// change of phase.
    #[inline(never)]
    fn shake_hands(&mut self, seen: &SessionFrame<'_>, link: Link, kit: &Kit) -> Result<(), Code>
        requires handshake { state_of self.old ≢ state.Data }
        requires under { IsUnder kit.now.settings self.old }
        requires passed { HasPassed (receives (OfMaster kit.now.settings)) (chain_of self.old) seen.now link }
        ensures next { result_and result (Ok self.new) ≡ next_phase kit.now self.old seen.now }
        ensures under { IsUnder kit.now.settings self.new }
    {
        match self {
            Phase::Reset(_) | Phase::Begin(_) | Phase::Data(_) => {
                return Err(Code::COMMAND_NOT_ALLOWED);
            }
            Phase::Session(state) => match state.exchange.take(seen, link, kit)? {
                Progress::More => {}
                Progress::Whole => {
                    let session = state.exchange.leave();
                    self.begin_connection(session, kit);
                }
            },
            Phase::Connection(state) => match state.exchange.take(seen, link, kit)? {
                Progress::More => {}
                Progress::Whole => {
                    let session = state.exchange.leave();
                    self.begin_parameter(session, kit);
                }
            },
            Phase::Parameter(state) => match state.exchange.take(seen, link, kit)? {
                Progress::More => {}
                Progress::Whole => {
                    let session = state.exchange.leave();
                    self.begin_data(session, kit);
                }
            },
        }
        Ok(())
    }

    /// Begins a session by its first frame.
    #[inline(never)]
    fn begin_session(&mut self, kit: &Kit, out: &mut FrameBuf)
        requires name_is { state_of self.old ≡ state.Session }
        requires unbegun { session_of self.old ≡ None }
        ensures next { self.new ≡ sent_phase kit.now self.old }
        ensures sent { (due : Due) → out.new ≡ due_frame due kit.now self.old }
        ensures under { IsUnder kit.now.settings self.new }
    {
        let Phase::Begin(last) = self else {
            unreachable!();
        };
        let last = mem::replace(last, FrameBuf::new());
        *self = Phase::Session(InSession::begin(last, kit));
        let Phase::Session(state) = self else {
            unreachable!();
        };
        state.exchange.send(Command::Session, 0, kit, out);
    }

    /// The terms in state Data.
    pub(crate) fn terms(&self) -> Option<&Terms>
        ensures { option_copied result ≡ terms_in self.now }
    {
        match self {
            Phase::Data(state) => Some(&state.terms),
            _ => None,
        }
    }

    /// The outputs: zeros in every state but Data.
    pub(crate) fn outputs(&self, kit: &Kit) -> &[u8]
        requires under { IsUnder kit.now.settings self.now }
        ensures value { result.now ≡ outputs_in kit.now.settings self.now }
        ensures len { length result.now ≡ receives (OfMaster kit.now.settings) }
        ensures most { length result.now ≤ MOST_DATA }
    {
        match self {
            Phase::Data(state) => state.outputs.bytes(),
            _ => zeros(kit.settings.peer_len()),
        }
    }
}

impl Due {
    ghost use Rattle.std.specs.Prelude.{◌≡◌};
    ghost use Rattle.master_core.specs.Phase.{IsUnder, sent_phase, due_frame};

    /// Sends the frame that is due in this phase. The old contents of `out` are lost.
    pub(crate) fn send(self, phase: &mut Phase, kit: &Kit, out: &mut FrameBuf)
        requires under { IsUnder kit.now.settings phase.old }
        ensures next { phase.new ≡ sent_phase kit.now phase.old }
        ensures sent { out.new ≡ due_frame self kit.now phase.old }
        ensures under { IsUnder kit.now.settings phase.new }
    {
        let conn = kit.settings.conn();
        match phase {
            Phase::Reset(_) => reset_frame(self.code, kit.settings.own_len(), out),
            Phase::Begin(_) => phase.begin_session(kit, out),
            Phase::Session(state) => state.exchange.send(Command::Session, 0, kit, out),
            Phase::Connection(state) => state.exchange.send(Command::Connection, conn, kit, out),
            Phase::Parameter(state) => state.exchange.send(Command::Parameter, conn, kit, out),
            Phase::Data(state) => state.send(kit, out),
        }
    }
}
