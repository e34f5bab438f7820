//! The five states of a master. Only the transitions of this crate make a state, which owns what it needs. A state
//! takes an answer that passed its tests, with the values that the chain stores of it, or returns the code of the
//! contents test that fails. Then it sends the next frame.
ghost use Rattle.std.specs.Prelude.{◌≡◌, Ok, OnOk, OnErr};
ghost use Rattle.std.specs.Result.{result_and};
ghost use Rattle.param_load.specs.Download.{outcome};
ghost use Rattle.seq_chain.specs.Session.{HasPassed};
ghost use Rattle.end_model.specs.Setup.{OfMaster, receives};
ghost use Rattle.master_core.specs.declared.phase.Phase.TheVariants as phase;
ghost use Rattle.master_core.specs.Kit.{connection_download, parameter_download};
ghost use Rattle.master_core.specs.States.{piece_sent, piece_frame, first_exchange, answered, first_data, data_next, data_sent, data_frame, ExchangeUnder, DataUnder};

use crate::kit::Kit;
use failsafe_io::{Outputs, data_holds};
use fsoe_base::{Code, Command, FrameBuf};
use param_load::{Download, Payload, Progress, Terms};
use seq_chain::{Link, Session, SessionFrame};
use std::marker::Model;
use std::mem;

/// A token: the master owes the frame of its phase. The code is that of the Reset frame in state Reset, and 0 in the
/// other states. Accepting a frame or ending a session creates the token; sending the frame needs it and consumes it.
#[derive(Drop)]
pub struct Due {
    pub(crate) code: Code,
}

/// No session.
#[derive(Drop)]
pub struct InReset(pub(crate) ());

/// A session in which session ids are exchanged.
#[derive(Drop)]
pub struct InSession {
    pub(crate) exchange: Exchange,
}

/// A session in which the connection id and the slave's address are exchanged.
#[derive(Drop)]
pub struct InConnection {
    pub(crate) exchange: Exchange,
}

/// A session in which the parameters are exchanged.
#[derive(Drop)]
pub struct InParameter {
    pub(crate) exchange: Exchange,
}

/// A session in which data are exchanged under complete terms.
#[derive(Drop)]
pub struct InData {
    pub(crate) session: Session,
    pub(crate) terms: Terms,
    pub(crate) outputs: Outputs,
}

/// A phase of a handshake: the session, and the download of the phase.
#[derive(Drop)]
pub(crate) struct Exchange {
    pub(crate) session: Session,
    download: Download,
}

impl Model for InSession {
    ghost use Rattle.master_core.specs.declared.states.Exchange.{Exchange};

    ghost Value = { Exchange };

    ghost view = { λ s. s.exchange };
}

impl Model for InConnection {
    ghost use Rattle.master_core.specs.declared.states.Exchange.{Exchange};

    ghost Value = { Exchange };

    ghost view = { λ s. s.exchange };
}

impl Model for InParameter {
    ghost use Rattle.master_core.specs.declared.states.Exchange.{Exchange};

    ghost Value = { Exchange };

    ghost view = { λ s. s.exchange };
}

impl Exchange {
    /// Takes the answer to the current piece. Refused with 07h if it isn't one; then the exchange is unchanged.
    pub(crate) fn take(
        &mut self,
        seen: &SessionFrame<'_>,
        link: Link,
        kit: &Kit,
    ) -> Result<Progress, Code>
        requires under { ExchangeUnder kit.now.settings self.old }
        requires passed { HasPassed (receives (OfMaster kit.now.settings)) self.old.session.chain seen.now link }
        ensures outcome { result ≡ outcome self.old.download seen.now.frame.load }
        ensures taken { OnOk result (self.new ≡ answered self.old seen.now) }
        ensures refused { OnErr result (self.new ≡ self.old) }
    {
        let progress = self.download.check(seen.load())?;
        self.session.take(seen, link);
        Ok(progress)
    }

    /// The session, for the next state. This exchange must only be left.
    pub(crate) fn leave(&mut self) -> Session
        ensures { result ≡ self.old.session }
    {
        mem::replace(&mut self.session, Session::new())
    }

    /// Sends the current piece. It isn't inlined, so that the sending of a data frame needs no room for it.
    #[inline(never)]
    pub(crate) fn send(&mut self, command: Command, conn: u16, kit: &Kit, out: &mut FrameBuf)
        requires { ExchangeUnder kit.now.settings self.old }
        ensures exchange { self.new ≡ piece_sent command conn kit.now self.old }
        ensures sent { out.new ≡ piece_frame command conn kit.now self.old }
    {
        let load = self.download.load(kit.settings.own_len());
        self.session.seal(command, conn, load.bytes(), out);
    }
}

impl InSession {
    /// A session that this Reset frame of the slave led to, before its first frame. The master's session id is its
    /// nonce at this moment.
    pub(crate) fn begin(last: FrameBuf, kit: &Kit) -> InSession
        ensures next { result ≡ first_exchange kit.now last }
        ensures under { ExchangeUnder kit.now.settings result }
    {
        let settings = &kit.settings;
        let payload = Payload::session(kit.nonce, settings.profile());
        InSession {
            exchange: Exchange {
                session: Session::after(last),
                download: Download::new(payload, settings.piece_len(), false),
            },
        }
    }
}

impl InConnection {
    /// State Connection of this session, before anything of its payload was sent.
    pub(crate) fn begin(session: Session, kit: &Kit) -> InConnection
        ensures next { result ≡ record { session = session; download = connection_download kit.now.settings } }
        ensures under { ExchangeUnder kit.now.settings result }
    {
        let settings = &kit.settings;
        let payload = Payload::connection(settings.conn(), settings.address());
        let download = Download::new(payload, settings.piece_len(), true);
        InConnection {
            exchange: Exchange { session, download },
        }
    }
}

impl InParameter {
    /// State Parameter of this session, before anything of its payload was sent.
    pub(crate) fn begin(session: Session, kit: &Kit) -> InParameter
        ensures next { result ≡ record { session = session; download = parameter_download kit.now.settings } }
        ensures under { ExchangeUnder kit.now.settings result }
    {
        let settings = &kit.settings;
        let parameters = Payload::parameter(
            settings.watchdog(),
            settings.profile(),
            settings.app(),
        );
        let download = Download::new(parameters, settings.piece_len(), true);
        InParameter {
            exchange: Exchange { session, download },
        }
    }
}

impl InData {
    /// State Data of this session as it is entered, with zeros as outputs.
    pub(crate) fn begin(session: Session, kit: &Kit) -> InData
        ensures next { result ≡ first_data kit.now session }
        ensures under { DataUnder kit.now.settings result }
    {
        InData {
            session,
            terms: kit.settings.terms(),
            outputs: Outputs::new(kit.settings.peer_len()),
        }
    }

    /// Accepts the next data frame, in place. Refused with 07h if a FailSafeData frame has a byte that isn't 0; then
    /// nothing is changed.
    #[inline(always)]
    pub(crate) fn take(
        &mut self,
        seen: &SessionFrame<'_>,
        link: Link,
        kit: &Kit,
    ) -> Result<(), Code>
        requires under { DataUnder kit.now.settings self.old }
        requires passed { HasPassed (receives (OfMaster kit.now.settings)) self.old.session.chain seen.now link }
        ensures next { result_and result (Ok (phase.Data self.new)) ≡ data_next self.old seen.now }
        ensures kept { OnErr result (self.new ≡ self.old) }
        ensures under { DataUnder kit.now.settings self.new }
    {
        if !data_holds(seen.command(), seen.load()) {
            return Err(Code::WRONG_DATA);
        }
        self.session.take(seen, link);
        self.outputs.take(seen.command(), seen.load());
        Ok(())
    }

    /// Sends a data frame.
    pub(crate) fn send(&mut self, kit: &Kit, out: &mut FrameBuf)
        requires { DataUnder kit.now.settings self.old }
        ensures next { self.new ≡ data_sent kit.now self.old }
        ensures sent { out.new ≡ data_frame kit.now self.old }
        ensures under { DataUnder kit.now.settings self.new }
    {
        let offer = &kit.offer;
        self.session
            .seal(offer.command(), self.terms.conn, offer.load(), out);
    }
}
