//! The slave of a connection.
ghost use Rattle.std.specs.Prelude.{◌≡◌, ◌≤◌, length};
ghost use Rattle.end_model.specs.Step.{code_sent};

use crate::kit::Kit;
use crate::phase::Phase;
use crate::seen::Seen;
use crate::states::InReset;
use failsafe_io::{Watchdog, zeros};
use fsoe_base::{Cause, Code, Command, Did, Dropped, FrameBuf, Image, MOST_DATA, State, Took};
use fsoe_frame::FrameView;
use param_load::{SlaveSettings, Terms};
use seq_chain::{Opened, SessionFrame, UnreadFrame, open, reset_frame};
use std::marker::Model;

/// The slave of a connection. It has no clock and no communication interface: the caller passes in frames and ticks,
/// and sends the frames that the slave writes.
#[derive(Drop)]
pub struct Slave {
    kit: Kit,
    phase: Phase,
    watchdog: Watchdog,
}

/// The code of the Reset frame that is sent for this cause.
fn code_sent(why: Cause) -> Code
    ensures { result.0 ≡ code_sent why }
{
    match why {
        Cause::Found(code) => code,
        Cause::Local | Cause::Peer(_) => Code::LOCAL_RESET,
    }
}

impl Model for Slave {
    ghost use Rattle.slave_core.specs.SlaveView.{SlaveView, IsSoundSlave};

    ghost Value = { SlaveView };

    ghost view = { λ s. record { kit = s.kit; state = s.phase; timer = s.watchdog } };

    ghost invariant = { λ s. IsSoundSlave (record { kit = s.kit; state = s.phase; timer = s.watchdog }) };
}

impl Slave {
    ghost use Rattle.std.specs.Prelude.{IsTrue, [], true, false, length, None, OnOk, IfErr, option_copied};
    ghost use Rattle.seq_chain.specs.Session.{HasPassed};
    ghost use Rattle.param_load.specs.Profile.{allows_id};
    ghost use Rattle.slave_core.specs.Phase.{allows, chain_of, fault};
    ghost use Rattle.slave_core.specs.Slave.{outcome_of, fallen, falls, refuses, reset_by_peer, taken, on_session, on_frame, tick_of};
    ghost use Rattle.param_load.specs.declared.entry.Move.TheVariants as event;
    ghost use Rattle.end_model.specs.Setup.{OfSlave, sends, receives};
    ghost use Rattle.end_model.specs.Readiness as model;
    ghost use Rattle.end_model.specs.Outputs as looking_back;
    ghost use Rattle.slave_core.specs.Standing.{SlaveIsAfter, Follows, Answers, Shows};

    /// Creates a slave with these settings, in state Reset, with offer and outputs of zeros, and fail-safe data off.
    #[tactic(auto, using(crate::proofs::Law::new_is_after))]
    pub fn new(settings: SlaveSettings) -> Slave
        ensures { SlaveIsAfter settings result [] }
    {
        let hand = settings.hand();
        Slave {
            kit: Kit::new(settings),
            phase: Phase::Reset(InReset::new()),
            watchdog: Watchdog::new(hand, 0),
        }
    }

    /// Leaves the session, if there is one.
    #[cold]
    #[inline(never)]
    fn forget(&mut self)
        ensures { self.new ≡ fallen self.old }
    {
        if !self.phase.is_reset() {
            self.phase = Phase::Reset(InReset::new());
        }
        let hand = self.kit.settings().hand();
        self.watchdog.restart(hand);
    }

    /// Leaves the session for this cause, and sends the Reset frame with its code.
    #[cold]
    #[inline(never)]
    fn fall(&mut self, why: Cause, did: &mut Did, out: &mut FrameBuf)
        ensures { outcome_of self.new did.new out.new ≡ falls self.old false why }
    {
        self.forget();
        reset_frame(code_sent(why), self.kit.settings().own_len(), out);
        *did = Did::reset(false, why);
    }

    /// A test of a frame failed with this code: in state Reset the frame is dropped.
    #[cold]
    #[inline(never)]
    fn refuse(&mut self, code: Code, did: &mut Did, out: &mut FrameBuf)
        ensures { outcome_of self.new did.new out.new ≡ refuses self.old false code }
    {
        if self.phase.is_reset() {
            out.clear();
            did.clear();
            did.dropped = Some(Dropped::InReset);
            return;
        }
        self.fall(Cause::Found(code), did, out);
    }

    /// A valid Reset frame came: in state Reset it is taken.
    #[cold]
    #[inline(never)]
    fn acknowledge(&mut self, code: Code, view: &FrameView<'_>, did: &mut Did, out: &mut FrameBuf)
        ensures { outcome_of self.new did.new out.new ≡ reset_by_peer self.old code view.now.load }
    {
        if !self.phase.is_reset() {
            return self.fall(Cause::Peer(code), did, out);
        }
        let mut took = Took {
            command: Command::Reset,
            load: Image::new(),
        };
        view.load_into(&mut took.load);
        self.forget();
        reset_frame(Code::LOCAL_RESET, self.kit.settings().own_len(), out);
        *did = Did::taken(took, false);
    }

    /// Takes a frame that passed the tests. Without a session, a refusal begins none; else the session is to be left.
    #[tactic(auto, using(crate::proofs::Transitions::taken_by, crate::proofs::Transitions::refused_by))]
    fn take(&mut self, seen: &Seen<'_>, out: &mut FrameBuf) -> Result<(), Code>
        requires allowed { IsTrue (allows self.old.state seen.now.frame.command) }
        requires passed { HasPassed (receives (OfSlave self.old.kit.settings)) (chain_of self.old.state) seen.now.frame seen.now.link }
        ensures taken { OnOk result (taken self.new seen.now.frame out.new ≡ on_session self.old seen.now.frame None) }
        ensures refused { IfErr result (λ code. refuses self.new true code ≡ on_session self.old seen.now.frame None) }
        ensures kit { self.new.kit ≡ self.old.kit }
    {
        let Phase::Data(state) = &mut self.phase else {
            return self.shake_hands(seen, out);
        };
        state.answer(seen, &self.kit, out)?;
        let limit = state.terms.watchdog;
        self.watchdog.restart(limit);
        Ok(())
    }

    /// Does so in every state but Data.
    #[tactic(auto, using(crate::proofs::Transitions::taken_by, crate::proofs::Transitions::refused_by))]
    fn shake_hands(&mut self, seen: &Seen<'_>, out: &mut FrameBuf) -> Result<(), Code>
        requires allowed { IsTrue (allows self.old.state seen.now.frame.command) }
        requires passed { HasPassed (receives (OfSlave self.old.kit.settings)) (chain_of self.old.state) seen.now.frame seen.now.link }
        ensures taken { OnOk result (taken self.new seen.now.frame out.new ≡ on_session self.old seen.now.frame None) }
        ensures refused { IfErr result (λ code. refuses self.new true code ≡ on_session self.old seen.now.frame None) }
        ensures kit { self.new.kit ≡ self.old.kit }
    {
        let was_reset = self.phase.is_reset();
        if let Err(code) = self.phase.take(seen, &self.kit, out) {
            if was_reset {
                self.forget();
            }
            return Err(code);
        }
        let limit = self.phase.limit(&self.kit);
        self.watchdog.restart(limit);
        Ok(())
    }

    /// Tests a frame of the master, and takes it unless a test fails or its contents are wrong.
    #[inline(never)]
    fn receive(&mut self, frame: &[u8], did: &mut Did, out: &mut FrameBuf)
        ensures outcome { outcome_of self.new did.new out.new ≡ on_frame self.old frame.now }
        ensures kit { self.new.kit ≡ self.old.kit }
    {
        let repeats = self.phase.is_repeat(frame);
        // The frame is read where it was opened, and its data where they are told, so that neither is moved.
        let opened = open(frame, self.kit.settings().peer_len(), repeats);
        match &opened {
            Opened::Drop(why) => {
                out.clear();
                did.clear();
                did.dropped = Some(*why);
            }
            Opened::Refuse(code) => self.refuse(*code, did, out),
            Opened::ResetFrame(code, view) => self.acknowledge(*code, view, did, out),
            Opened::OfSession(unread) => self.receive_session(unread, did, out),
        }
    }

    /// Tests a frame of a session, and takes it unless a test fails or its contents are wrong.
    #[inline(always)]
    fn receive_session(&mut self, unread: &UnreadFrame<'_>, did: &mut Did, out: &mut FrameBuf)
        requires { length unread.now.frame.load ≡ receives (OfSlave self.old.kit.settings) }
        ensures outcome { outcome_of self.new did.new out.new ≡ on_session self.old unread.now (fault self.old.state unread.now) }
        ensures kit { self.new.kit ≡ self.old.kit }
    {
        unread.took_into(did);
        let Some(took) = &did.took else {
            unreachable!();
        };
        let frame = SessionFrame::new(unread, &took.load);
        let link = match self.phase.test(&frame) {
            Err(code) => return self.refuse(code, did, out),
            Ok(link) => link,
        };
        let seen = Seen { frame, link };
        match self.take(&seen, out) {
            Ok(()) => did.tell_taken(true),
            Err(code) => {
                self.refuse(code, did, out);
                did.passed = true;
            }
        }
    }

    /// Processes one frame of the master, of any number of bytes, and writes the answer to `out`. The old contents of
    /// `out` are lost; it is empty if nothing is sent.
    /// - A frame with a wrong length, or equal to the last accepted frame, is dropped.
    /// - A valid Reset frame ends the session; in state Reset it is taken and answered.
    /// - A frame that fails a test ends the session with the test's code, and is dropped in state Reset.
    /// - Every other frame is taken and answered.
    pub fn deliver(&mut self, frame: &[u8], out: &mut FrameBuf) -> Did
        ensures follows { Follows self.old (event.Deliver frame.now) self.new }
        ensures answers { Answers self.old (event.Deliver frame.now) result out.new }
        ensures kit { self.new.kit ≡ self.old.kit }
    {
        let mut did = Did::nothing();
        self.deliver_into(frame, &mut did, out);
        did
    }

    /// Does the same as `deliver` and overwrites `did`, so that the data of a taken frame aren't moved again.
    pub fn deliver_into(&mut self, frame: &[u8], did: &mut Did, out: &mut FrameBuf)
        ensures follows { Follows self.old (event.Deliver frame.now) self.new }
        ensures answers { Answers self.old (event.Deliver frame.now) did.new out.new }
        ensures kit { self.new.kit ≡ self.old.kit }
    {
        self.receive(frame, did, out);
    }

    /// Counts a tick; in state Reset nothing is counted.
    fn count(&mut self, did: &mut Did, out: &mut FrameBuf)
        ensures outcome { outcome_of self.new did.new out.new ≡ tick_of self.old }
        ensures kit { self.new.kit ≡ self.old.kit }
    {
        out.clear();
        if self.phase.is_reset() || !self.watchdog.tick() {
            did.clear();
            return;
        }
        self.fall(Cause::Found(Code::WATCHDOG_EXPIRED), did, out);
    }

    /// Counts a tick; in state Reset nothing is counted. If the age reaches the limit, the session ends with code 05h:
    /// the outputs are zeros from this tick on, and the Reset frame is written to `out`.
    pub fn tick(&mut self, out: &mut FrameBuf) -> Did
        ensures follows { Follows self.old event.Tick self.new }
        ensures answers { Answers self.old event.Tick result out.new }
        ensures kit { self.new.kit ≡ self.old.kit }
    {
        let mut did = Did::nothing();
        self.tick_into(&mut did, out);
        did
    }

    /// Does the same as `tick`, and overwrites `did` with the result.
    #[tactic(auto, using(crate::proofs::Law::follows_by, crate::proofs::Law::answers_by))]
    pub fn tick_into(&mut self, did: &mut Did, out: &mut FrameBuf)
        ensures follows { Follows self.old event.Tick self.new }
        ensures answers { Answers self.old event.Tick did.new out.new }
        ensures kit { self.new.kit ≡ self.old.kit }
    {
        self.count(did, out);
    }

    /// Ends the session, if there is one, and writes Reset(0) to `out`.
    #[tactic(auto, using(crate::proofs::Law::follows_by, crate::proofs::Law::answers_by))]
    pub fn reset(&mut self, out: &mut FrameBuf) -> Did
        ensures follows { Follows self.old event.Local self.new }
        ensures answers { Answers self.old event.Local result out.new }
        ensures kit { self.new.kit ≡ self.old.kit }
    {
        let mut did = Did::nothing();
        self.fall(Cause::Local, &mut did, out);
        did
    }

    /// Sets the safe data to send from now on, `settings().own_len()` bytes. The offer outlasts resets.
    #[tactic(auto, using(crate::proofs::Law::follows_by))]
    pub fn put(&mut self, load: &[u8])
        requires { length load.now ≡ sends (OfSlave self.old.kit.settings) }
        ensures follows { Follows self.old (event.Put load.now) self.new }
        ensures settings { self.new.kit.settings ≡ self.old.kit.settings }
    {
        self.kit.offer.put(load);
    }

    /// Switches fail-safe data on or off: while on, zeros are sent in place of the offer. It outlasts resets.
    #[tactic(auto, using(crate::proofs::Law::follows_by))]
    pub fn hold(&mut self, failsafe: bool)
        ensures follows { Follows self.old (event.Hold failsafe) self.new }
        ensures settings { self.new.kit.settings ≡ self.old.kit.settings }
    {
        self.kit.offer.hold(failsafe);
    }

    /// Sets the id of all sessions whose first Session frame is sent after this call, at most 65,535 in profile One. It
    /// outlasts resets: give a fresh one before each session.
    #[tactic(auto, using(crate::proofs::Law::follows_by))]
    pub fn nonce(&mut self, id: u32)
        requires { IsTrue (allows_id self.old.kit.settings.profile id) }
        ensures follows { Follows self.old (event.Nonce id) self.new }
        ensures settings { self.new.kit.settings ≡ self.old.kit.settings }
    {
        self.kit.nonce = id;
    }

    /// The settings that the slave was made with.
    pub fn settings(&self) -> &SlaveSettings
        ensures { result.now ≡ self.now.kit.settings }
    {
        self.kit.settings()
    }

    /// Returns the state: the phase of the last frame taken in this session, or Reset if there is no session.
    #[tactic(auto, using(crate::proofs::Law::state_shown))]
    pub fn state(&self) -> State
        ensures { Shows self.now result model.state_of }
    {
        self.phase.state()
    }

    /// Returns the outputs, `settings().peer_len()` bytes. In state Data they are the data of the last frame taken,
    /// which are zeros after a FailSafeData frame. In every other state they are zeros.
    #[tactic(auto, using(crate::proofs::Law::outputs_shown))]
    pub fn outputs(&self) -> &[u8]
        ensures shown { Shows self.now result.now looking_back.out }
        ensures len { length result.now ≡ receives (OfSlave self.now.kit.settings) }
        ensures most { length result.now ≤ MOST_DATA }
    {
        let len = self.kit.settings().peer_len();
        match &self.phase {
            Phase::Data(state) => state.outputs.bytes(),
            Phase::Reset(_) | Phase::Session(_) | Phase::Connection(_) | Phase::Parameter(_) =>
                zeros(len),
        }
    }

    /// Returns the terms of the session, or None in every state except Data.
    #[tactic(auto, using(crate::proofs::Law::terms_shown))]
    pub fn terms(&self) -> Option<&Terms>
        ensures { Shows self.now (option_copied result) model.told_terms }
    {
        self.phase.terms()
    }

    /// Returns the ticks since the last frame was sent, 0 in state Reset.
    #[tactic(auto, using(crate::proofs::Law::age_shown))]
    pub fn age(&self) -> u16
        ensures { Shows self.now result model.age }
    {
        self.watchdog.age()
    }

    /// The safe data that were put last, zeros at first.
    #[tactic(auto, using(crate::proofs::Law::offer_shown))]
    pub fn offer(&self) -> &[u8]
        ensures shown { Shows self.now result.now model.offer }
        ensures len { length result.now ≡ sends (OfSlave self.now.kit.settings) }
    {
        self.kit.offer.bytes()
    }

    /// Whether zeros are sent in place of the offer.
    #[tactic(auto, using(crate::proofs::Law::held_shown))]
    pub fn held(&self) -> bool
        ensures { Shows self.now result (λ s e. model.held e) }
    {
        self.kit.offer.held()
    }
}
