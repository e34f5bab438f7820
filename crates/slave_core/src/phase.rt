//! The phase that a slave is in.
use crate::kit::Kit;
use crate::seen::Seen;
use crate::states::{InConnection, InData, InParameter, InReset, InSession};
use fsoe_base::{Code, Command, FrameBuf, State};
use param_load::Terms;
use seq_chain::{Link, Session, SessionFrame, test_session};

/// The phase that a slave is in: a typed state.
#[derive(Drop)]
pub(crate) enum Phase {
    Reset(InReset),
    Session(InSession),
    Connection(InConnection),
    Parameter(InParameter),
    Data(InData),
}

impl Phase {
    ghost use Rattle.std.specs.Prelude.{◌≡◌, ◌<◌, IsTrue, false, Some, IfOk, option_copied};
    ghost use Rattle.std.specs.Result.{result_err};
    ghost use Rattle.seq_chain.specs.Session.{tested};
    ghost use Rattle.seq_chain.specs.Opened.{is_repeat};
    ghost use Rattle.slave_core.specs.declared.phase.Phase.TheVariants as phase;
    ghost use Rattle.slave_core.specs.declared.states.InSession.{InSession};
    ghost use Rattle.slave_core.specs.declared.states.InConnection.{InConnection};
    ghost use Rattle.slave_core.specs.declared.states.InParameter.{InParameter};
    ghost use Rattle.slave_core.specs.States.{starting, connecting, loading, running};
    ghost use Rattle.slave_core.specs.Phase.{IsUnder, PassedIn, GoesOnBy, upload_is_whole, state_of, is_reset, session_of, chain_of, kept_in, allows, has_conn, limit_of, terms_shown_in, fault};
    ghost use Rattle.slave_core.specs.Taken.{Advances, entered};

    pub(crate) fn state(&self) -> State
        ensures { result ≡ state_of self.now }
    {
        match self {
            Phase::Reset(_) => State::Reset,
            Phase::Session(_) => State::Session,
            Phase::Connection(_) => State::Connection,
            Phase::Parameter(_) => State::Parameter,
            Phase::Data(_) => State::Data,
        }
    }

    pub(crate) fn is_reset(&self) -> bool
        ensures { result ≡ is_reset self.now }
    {
        matches!(self, Phase::Reset(_))
    }

    /// The session, None in state Reset.
    fn session(&self) -> Option<&Session>
        ensures { option_copied result ≡ session_of self.now }
    {
        match self {
            Phase::Reset(_) => None,
            Phase::Session(state) => Some(&state.session),
            Phase::Connection(state) => Some(&state.session),
            Phase::Parameter(state) => Some(&state.session),
            Phase::Data(state) => Some(&state.session),
        }
    }

    /// Whether these bytes are those of the frame that was taken last. In state Reset none is kept.
    pub(crate) fn is_repeat(&self, frame: &[u8]) -> bool
        ensures { result ≡ is_repeat (kept_in self.now) frame.now }
    {
        seq_chain::is_repeat(self.session(), frame)
    }

    /// Whether a command of a session is allowed.
    fn allows(&self, command: Command) -> bool
        ensures { result ≡ allows self.now command }
    {
        match (self, command) {
            (Phase::Reset(_), Command::Session) => true,
            (Phase::Session(state), Command::Session) => !state.upload.is_whole(),
            (Phase::Session(state), Command::Connection) => state.upload.is_whole(),
            (Phase::Connection(state), Command::Connection) => !state.upload.is_whole(),
            (Phase::Connection(state), Command::Parameter) => state.upload.is_whole(),
            (Phase::Parameter(state), Command::Parameter) => !state.upload.is_whole(),
            (Phase::Parameter(state), Command::ProcessData) => state.upload.is_whole(),
            (Phase::Parameter(state), Command::FailSafeData) => state.upload.is_whole(),
            (Phase::Data(_), Command::ProcessData) => true,
            (Phase::Data(_), Command::FailSafeData) => true,
            _ => false,
        }
    }

    /// Whether the connection id of a frame is right.
    fn has_conn(&self, command: Command, field: u16) -> bool
        ensures { result ≡ has_conn self.now command field }
    {
        match (self, command) {
            (Phase::Reset(_), _) => field == 0,
            (Phase::Session(_), Command::Session) => field == 0,
            (Phase::Session(_), _) => field != 0,
            (Phase::Connection(state), _) => field == state.conn,
            (Phase::Parameter(state), _) => field == state.conn,
            (Phase::Data(state), _) => field == state.terms.conn,
        }
    }

    /// Tests a frame of a session: its command, its connection id, and its CRCs. Returns the values to store when it is
    /// taken, or the code of the first test that fails.
    pub(crate) fn test(&self, frame: &SessionFrame<'_>) -> Result<Link, Code>
        ensures code { result_err result ≡ fault self.now frame.now }
        ensures link { IfOk result (λ link. tested (chain_of self.now) frame.now.frame ≡ Some link) }
        ensures allowed { IfOk result (λ link. IsTrue (allows self.now frame.now.command)) }
    {
        let is_allowed = self.allows(frame.command());
        let has_conn = self.has_conn(frame.command(), frame.conn());
        test_session(self.session(), is_allowed, has_conn, frame)
    }

    /// The ticks after which the session expires.
    pub(crate) fn limit(&self, kit: &Kit) -> u16
        requires { IsUnder kit.now.settings self.now }
        ensures value { result ≡ limit_of kit.now.settings self.now }
        ensures some { 0 < result }
    {
        match self {
            Phase::Reset(_) | Phase::Session(_) | Phase::Connection(_) => kit.settings().hand(),
            Phase::Parameter(state) => {
                if state.upload.is_whole() {
                    state.upload.watchdog()
                } else {
                    kit.settings().hand()
                }
            }
            Phase::Data(state) => state.terms.watchdog,
        }
    }

    /// The terms in state Data.
    pub(crate) fn terms(&self) -> Option<&Terms>
        ensures { option_copied result ≡ terms_shown_in self.now }
    {
        match self {
            Phase::Data(state) => Some(&state.terms),
            _ => None,
        }
    }

    /// Enters the state that this constructor makes of `next`.
    // Inlined, it clears the room of what it makes right before it fills it, and the compiler drops that clear.
    fn enter<S, F: FnOnce(S) -> Phase>(&mut self, next: S, state: F)
        requires { F.pre state next }
        ensures { F.post state next self.new }
    {
        *self = state(next);
    }

    // A function clears the room of all its locals where it begins, so that each change of phase has one of its own.

    /// Begins state Session.
    #[inline(never)]
    fn start(&mut self, kit: &Kit)
        ensures next { self.new ≡ phase.Session (starting kit.now) }
        ensures under { IsUnder kit.now.settings self.new }
    {
        self.enter(InReset::to_session(kit), Phase::Session);
    }

    /// Goes on from state Session to Connection.
    #[inline(never)]
    fn connect(&mut self, conn: u16, kit: &Kit)
        ensures { (s : InSession) → self.old ≡ phase.Session s → self.new ≡ phase.Connection (connecting kit.now s conn) }
    {
        if let Phase::Session(state) = self {
            let next = state.to_connection(conn, kit);
            self.enter(next, Phase::Connection);
        }
    }

    /// Goes on from state Connection to Parameter.
    #[inline(never)]
    fn load(&mut self, kit: &Kit)
        ensures { (s : InConnection) → self.old ≡ phase.Connection s → self.new ≡ phase.Parameter (loading kit.now s) }
    {
        if let Phase::Connection(state) = self {
            let next = state.to_parameter(kit);
            self.enter(next, Phase::Parameter);
        }
    }

    /// Goes on from state Parameter to Data.
    #[inline(never)]
    fn run(&mut self, kit: &Kit)
        requires whole { IsTrue (upload_is_whole self.old) }
        requires under { IsUnder kit.now.settings self.old }
        ensures next { (s : InParameter) → self.old ≡ phase.Parameter s → self.new ≡ phase.Data (running kit.now s) }
        ensures under { IsUnder kit.now.settings self.new }
    {
        if let Phase::Parameter(state) = self {
            let next = state.to_data(kit);
            self.enter(next, Phase::Data);
        }
    }

    /// Begins the next phase if the payload of this one is whole.
    fn enter_next(&mut self, frame: &SessionFrame<'_>, kit: &Kit)
        requires { IsUnder kit.now.settings self.old }
        ensures next { self.new ≡ entered kit.now self.old frame.now }
        ensures under { IsUnder kit.now.settings self.new }
    {
        match self {
            Phase::Reset(_) => self.start(kit),
            Phase::Session(state) if state.upload.is_whole() => self.connect(frame.conn(), kit),
            Phase::Connection(state) if state.upload.is_whole() => self.load(kit),
            Phase::Parameter(state) if state.upload.is_whole() => self.run(kit),
            _ => {}
        }
    }

    /// Takes a frame in this phase, in which it is the next one. After a refusal the phase must only be left.
    fn answer(&mut self, seen: &Seen<'_>, kit: &Kit, out: &mut FrameBuf) -> Result<(), Code>
        requires next { GoesOnBy self.old seen.now.frame.command }
        requires passed { PassedIn kit.now.settings self.old seen.now.frame seen.now.link }
        ensures advances { Advances kit.now self.old seen.now.frame result self.new out.old out.new }
        ensures kept { is_reset self.new ≡ is_reset self.old }
    {
        match self {
            Phase::Reset(_) => Err(Code::COMMAND_NOT_ALLOWED),
            Phase::Session(state) => state.answer(seen, kit, out),
            Phase::Connection(state) => state.answer(seen, kit, out),
            Phase::Parameter(state) => state.answer(seen, kit, out),
            Phase::Data(state) => state.answer(seen, kit, out),
        }
    }

    /// Takes a frame that passed the tests in this phase: the phase goes on in place until its payload is whole, and
    /// then the next one begins. After a refusal the phase must only be left.
    #[tactic(auto, using(crate::proofs::Transitions::advances_by, crate::proofs::Transitions::goes_on_by, crate::proofs::Transitions::passed_by))]
    #[inline(never)]
    pub(crate) fn take(
        &mut self,
        seen: &Seen<'_>,
        kit: &Kit,
        out: &mut FrameBuf,
    ) -> Result<(), Code>
        requires allowed { IsTrue (allows self.old seen.now.frame.command) }
        requires passed { PassedIn kit.now.settings self.old seen.now.frame seen.now.link }
        ensures advances { Advances kit.now (entered kit.now self.old seen.now.frame) seen.now.frame result self.new out.old out.new }
        ensures begun { is_reset self.new ≡ false }
    {
        self.enter_next(&seen.frame, kit);
        self.answer(seen, kit, out)
    }
}
