//! The five states of a slave. Only the transitions of this crate make a state, which owns what it needs. A transition
//! takes a frame that passed the tests in this state. It gives the next state, with the answer in `out`. If a test of
//! the contents fails, it gives state Reset with the code of the first such test, and `out` is unchanged.
ghost use Rattle.std.specs.Prelude.{◌≡◌, IsTrue, false};
ghost use Rattle.param_load.specs.Upload.{is_whole};
ghost use Rattle.fsoe_base.specs.Data.{is_data};
ghost use Rattle.slave_core.specs.declared.phase.Phase.TheVariants as phase;
ghost use Rattle.slave_core.specs.Phase.{PassedIn};
ghost use Rattle.slave_core.specs.States.{no_session, starting, connecting, loading, running, SessionUnder, ParameterUnder, DataUnder};
ghost use Rattle.slave_core.specs.Taken.{Advances, Transits};

use crate::kit::Kit;
use crate::seen::Seen;
use failsafe_io::{Outputs, data_holds};
use fsoe_base::{Code, Command, FrameBuf};
use param_load::{AppBytes, Payload, Pieces, Terms, padded};
use seq_chain::Session;
use std::mem;

/// No session.
#[derive(Drop)]
pub struct InReset {
    private: (),
}

/// State Session: session ids are being exchanged, or they are complete and the first Connection frame hasn't come yet.
#[derive(Drop)]
pub struct InSession {
    pub(crate) session: Session,
    id: u32,
    pub(crate) upload: Pieces,
}

/// State Connection: connection id and slave address are being exchanged, or they are complete and the first Parameter
/// frame hasn't come yet.
#[derive(Drop)]
pub struct InConnection {
    pub(crate) session: Session,
    pub(crate) conn: u16,
    pub(crate) upload: Pieces,
}

/// State Parameter: the parameters are being exchanged, or they are complete and the first data frame hasn't come yet.
#[derive(Drop)]
pub struct InParameter {
    pub(crate) session: Session,
    pub(crate) conn: u16,
    pub(crate) upload: Pieces,
}

/// State Data: safe data are exchanged under complete terms.
#[derive(Drop)]
pub struct InData {
    pub(crate) session: Session,
    pub(crate) terms: Terms,
    pub(crate) outputs: Outputs,
}

impl InReset {
    pub(crate) fn new() -> InReset
        ensures { result ≡ no_session }
    {
        InReset { private: () }
    }

    /// Begins a session with a Session frame. The slave's session id is its nonce at this moment. Refused with 07h if a
    /// padding byte isn't 0.
    pub fn start(
        self,
        seen: &Seen<'_>,
        kit: &Kit,
        out: &mut FrameBuf,
    ) -> Result<InSession, (InReset, Code)>
        requires command { seen.now.frame.command ≡ Command.Session }
        requires passed { PassedIn kit.now.settings (phase.Reset self) seen.now.frame seen.now.link }
        ensures { Transits phase.Session (phase.Reset self) (phase.Session (starting kit.now)) kit.now seen.now.frame result out.old out.new }
    {
        InReset::to_session(kit).more(seen, kit, out)
    }

    /// State Session of a new session, before anything of its payload came.
    pub(crate) fn to_session(kit: &Kit) -> InSession
        ensures next { result ≡ starting kit.now }
        ensures under { SessionUnder kit.now.settings result }
    {
        let settings = &kit.settings;
        InSession {
            session: Session::new(),
            id: kit.nonce,
            upload: Pieces::session(settings.piece_len(), settings.profile()),
        }
    }

    /// Returns state Reset.
    pub fn into_reset(self) -> InReset
        ensures { result ≡ no_session }
    {
        self
    }
}

impl InSession {
    /// Accepts the next Session frame, while the master's session id is incomplete. The answer carries the piece of the
    /// slave's session id with the same index. Refused with 07h if a padding byte isn't 0.
    pub fn more(
        mut self,
        seen: &Seen<'_>,
        kit: &Kit,
        out: &mut FrameBuf,
    ) -> Result<InSession, (InReset, Code)>
        requires command { seen.now.frame.command ≡ Command.Session }
        requires more { is_whole self.upload ≡ false }
        requires passed { PassedIn kit.now.settings (phase.Session self) seen.now.frame seen.now.link }
        ensures { Transits phase.Session (phase.Session self) (phase.Session self) kit.now seen.now.frame result out.old out.new }
    {
        match self.answer(seen, kit, out) {
            Ok(()) => Ok(self),
            Err(code) => Err((self.into_reset(), code)),
        }
    }

    /// Accepts the first Connection frame, once the master's session id is complete. The connection id of the session
    /// is that of the frame. Each field is tested when its last byte comes, then the padding. Refused with 03h for a
    /// wrong connection id, 06h for a wrong slave address, 07h for padding that isn't 0.
    pub fn connect(
        mut self,
        seen: &Seen<'_>,
        kit: &Kit,
        out: &mut FrameBuf,
    ) -> Result<InConnection, (InReset, Code)>
        requires command { seen.now.frame.command ≡ Command.Connection }
        requires whole { IsTrue (is_whole self.upload) }
        requires passed { PassedIn kit.now.settings (phase.Session self) seen.now.frame seen.now.link }
        ensures { Transits phase.Connection (phase.Session self) (phase.Connection (connecting kit.now self seen.now.frame.frame.conn)) kit.now seen.now.frame result out.old out.new }
    {
        let begun = self.to_connection(seen.frame.conn(), kit);
        begun.more(seen, kit, out)
    }

    /// State Connection of this session, before anything of its payload came. This state must only be left.
    pub(crate) fn to_connection(&mut self, conn: u16, kit: &Kit) -> InConnection
        ensures { result ≡ connecting kit.now self.old conn }
    {
        let settings = kit.settings();
        InConnection {
            session: mem::replace(&mut self.session, Session::new()),
            conn,
            upload: Pieces::connection(settings.piece_len(), conn, settings.address()),
        }
    }

    /// Does the same as `more`, in place. After a refusal the state must only be left.
    #[inline(never)]
    pub(crate) fn answer(
        &mut self,
        seen: &Seen<'_>,
        kit: &Kit,
        out: &mut FrameBuf,
    ) -> Result<(), Code>
        requires more { is_whole self.old.upload ≡ false }
        requires passed { PassedIn kit.now.settings (phase.Session self.old) seen.now.frame seen.now.link }
        ensures { Advances kit.now (phase.Session self.old) seen.now.frame result (phase.Session self.new) out.old out.new }
    {
        let from = self.upload.len();
        self.upload.take(seen.frame.load(), kit.settings().rule())?;
        let settings = kit.settings();
        let own_id = Payload::session(self.id, settings.profile());
        let piece = own_id.piece_from(from, settings.piece_len());
        let load = padded(piece, settings.own_len());
        self.session.take(&seen.frame, seen.link);
        self.session.seal(Command::Session, 0, load.bytes(), out);
        Ok(())
    }

    /// Ends the session and returns state Reset.
    pub fn into_reset(self) -> InReset
        ensures { result ≡ no_session }
    {
        InReset::new()
    }
}

impl InConnection {
    /// Accepts the next Connection frame, while the connection id and the address are incomplete, with the refusals of
    /// `connect`. The answer repeats the piece of the frame.
    pub fn more(
        mut self,
        seen: &Seen<'_>,
        kit: &Kit,
        out: &mut FrameBuf,
    ) -> Result<InConnection, (InReset, Code)>
        requires command { seen.now.frame.command ≡ Command.Connection }
        requires more { is_whole self.upload ≡ false }
        requires passed { PassedIn kit.now.settings (phase.Connection self) seen.now.frame seen.now.link }
        ensures { Transits phase.Connection (phase.Connection self) (phase.Connection self) kit.now seen.now.frame result out.old out.new }
    {
        match self.answer(seen, kit, out) {
            Ok(()) => Ok(self),
            Err(code) => Err((self.into_reset(), code)),
        }
    }

    /// Accepts the first Parameter frame, once the connection id and the address are complete. Each field is tested
    /// when its last byte comes, then the padding. Refused with 08h for a wrong length of the communication parameters.
    /// Refused with 09h for a watchdog of 0 or above the longest accepted, or a wrong profile word. Refused with 0Ah
    /// for a wrong number of application parameters, 0Bh if these break the rule, 07h for padding that isn't 0.
    pub fn load(
        mut self,
        seen: &Seen<'_>,
        kit: &Kit,
        out: &mut FrameBuf,
    ) -> Result<InParameter, (InReset, Code)>
        requires command { seen.now.frame.command ≡ Command.Parameter }
        requires whole { IsTrue (is_whole self.upload) }
        requires passed { PassedIn kit.now.settings (phase.Connection self) seen.now.frame seen.now.link }
        ensures { Transits phase.Parameter (phase.Connection self) (phase.Parameter (loading kit.now self)) kit.now seen.now.frame result out.old out.new }
    {
        self.to_parameter(kit).more(seen, kit, out)
    }

    /// State Parameter of this session, before anything of its payload came. This state must only be left.
    pub(crate) fn to_parameter(&mut self, kit: &Kit) -> InParameter
        ensures { result ≡ loading kit.now self.old }
    {
        let settings = kit.settings();
        InParameter {
            session: mem::replace(&mut self.session, Session::new()),
            conn: self.conn,
            upload: Pieces::parameter(
                settings.piece_len(),
                settings.most(),
                settings.rule(),
                settings.profile(),
            ),
        }
    }

    /// Does the same as `more`, in place. After a refusal the state must only be left.
    #[inline(never)]
    pub(crate) fn answer(
        &mut self,
        seen: &Seen<'_>,
        kit: &Kit,
        out: &mut FrameBuf,
    ) -> Result<(), Code>
        requires more { is_whole self.old.upload ≡ false }
        requires passed { PassedIn kit.now.settings (phase.Connection self.old) seen.now.frame seen.now.link }
        ensures { Advances kit.now (phase.Connection self.old) seen.now.frame result (phase.Connection self.new) out.old out.new }
    {
        self.upload.take(seen.frame.load(), kit.settings().rule())?;
        let load = self.upload.echo(kit.settings().own_len());
        self.session.take(&seen.frame, seen.link);
        self.session
            .seal(Command::Connection, self.conn, load.bytes(), out);
        Ok(())
    }

    /// Ends the session and returns state Reset.
    pub fn into_reset(self) -> InReset
        ensures { result ≡ no_session }
    {
        InReset::new()
    }
}

impl InParameter {
    /// Accepts the next Parameter frame, while the parameters are incomplete, with the refusals of `load`. The answer
    /// repeats the piece of the frame.
    pub fn more(
        mut self,
        seen: &Seen<'_>,
        kit: &Kit,
        out: &mut FrameBuf,
    ) -> Result<InParameter, (InReset, Code)>
        requires command { seen.now.frame.command ≡ Command.Parameter }
        requires more { is_whole self.upload ≡ false }
        requires passed { PassedIn kit.now.settings (phase.Parameter self) seen.now.frame seen.now.link }
        ensures { Transits phase.Parameter (phase.Parameter self) (phase.Parameter self) kit.now seen.now.frame result out.old out.new }
    {
        match self.answer(seen, kit, out) {
            Ok(()) => Ok(self),
            Err(code) => Err((self.into_reset(), code)),
        }
    }

    /// Accepts the first data frame, once the parameters are complete. From now on the outputs can be other than zeros.
    /// Refused with 07h if a FailSafeData frame has a byte that isn't 0.
    pub fn run(
        mut self,
        seen: &Seen<'_>,
        kit: &Kit,
        out: &mut FrameBuf,
    ) -> Result<InData, (InReset, Code)>
        requires command { IsTrue (is_data seen.now.frame.command) }
        requires whole { IsTrue (is_whole self.upload) }
        requires passed { PassedIn kit.now.settings (phase.Parameter self) seen.now.frame seen.now.link }
        ensures { Transits phase.Data (phase.Parameter self) (phase.Data (running kit.now self)) kit.now seen.now.frame result out.old out.new }
    {
        self.to_data(kit).more(seen, kit, out)
    }

    /// State Data of this session as it is entered, with zeros as outputs. This state must only be left.
    pub(crate) fn to_data(&mut self, kit: &Kit) -> InData
        requires whole { IsTrue (is_whole self.old.upload) }
        requires under { ParameterUnder kit.now.settings self.old }
        ensures next { result ≡ running kit.now self.old }
        ensures under { DataUnder kit.now.settings result }
    {
        let mut app = AppBytes::new();
        app.set(self.upload.app());
        InData {
            session: mem::replace(&mut self.session, Session::new()),
            terms: Terms {
                conn: self.conn,
                address: kit.settings().address(),
                watchdog: self.upload.watchdog(),
                app,
                profile: kit.settings().profile(),
            },
            outputs: Outputs::new(kit.settings().peer_len()),
        }
    }

    /// Does the same as `more`, in place. After a refusal the state must only be left.
    #[inline(never)]
    pub(crate) fn answer(
        &mut self,
        seen: &Seen<'_>,
        kit: &Kit,
        out: &mut FrameBuf,
    ) -> Result<(), Code>
        requires more { is_whole self.old.upload ≡ false }
        requires passed { PassedIn kit.now.settings (phase.Parameter self.old) seen.now.frame seen.now.link }
        ensures { Advances kit.now (phase.Parameter self.old) seen.now.frame result (phase.Parameter self.new) out.old out.new }
    {
        self.upload.take(seen.frame.load(), kit.settings().rule())?;
        let load = self.upload.echo(kit.settings().own_len());
        self.session.take(&seen.frame, seen.link);
        self.session
            .seal(Command::Parameter, self.conn, load.bytes(), out);
        Ok(())
    }

    /// Ends the session and returns state Reset.
    pub fn into_reset(self) -> InReset
        ensures { result ≡ no_session }
    {
        InReset::new()
    }
}

impl InData {
    /// Accepts the next data frame. Refused with 07h if a FailSafeData frame has a byte that isn't 0.
    pub fn more(
        mut self,
        seen: &Seen<'_>,
        kit: &Kit,
        out: &mut FrameBuf,
    ) -> Result<InData, (InReset, Code)>
        requires command { IsTrue (is_data seen.now.frame.command) }
        requires passed { PassedIn kit.now.settings (phase.Data self) seen.now.frame seen.now.link }
        ensures { Transits phase.Data (phase.Data self) (phase.Data self) kit.now seen.now.frame result out.old out.new }
    {
        match self.answer(seen, kit, out) {
            Ok(()) => Ok(self),
            Err(code) => Err((self.into_reset(), code)),
        }
    }

    /// Does the same as `more`, in place. After a refusal the state must only be left.
    #[inline(always)]
    pub(crate) fn answer(
        &mut self,
        seen: &Seen<'_>,
        kit: &Kit,
        out: &mut FrameBuf,
    ) -> Result<(), Code>
        requires command { IsTrue (is_data seen.now.frame.command) }
        requires passed { PassedIn kit.now.settings (phase.Data self.old) seen.now.frame seen.now.link }
        ensures { Advances kit.now (phase.Data self.old) seen.now.frame result (phase.Data self.new) out.old out.new }
    {
        let frame = &seen.frame;
        if !data_holds(frame.command(), frame.load()) {
            return Err(Code::WRONG_DATA);
        }
        let offer = &kit.offer;
        self.session.take(frame, seen.link);
        self.session
            .seal(offer.command(), self.terms.conn, offer.load(), out);
        self.outputs.take(frame.command(), frame.load());
        Ok(())
    }

    /// Ends the session and returns state Reset.
    pub fn into_reset(self) -> InReset
        ensures { result ≡ no_session }
    {
        InReset::new()
    }
}
