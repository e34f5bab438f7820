//! The master of a connection.
ghost use Rattle.std.specs.Prelude.{◌≡◌, false};
ghost use Rattle.fsoe_base.specs.declared.command.Command.TheVariants as command;
ghost use Rattle.fsoe_base.specs.Command.{code};
ghost use Rattle.fsoe_base.specs.Did.{nothing, takes};
ghost use Rattle.end_model.specs.Step.{code_sent};

use crate::kit::Kit;
use crate::phase::Phase;
use crate::states::{Due, InReset};
use failsafe_io::Watchdog;
use fsoe_base::{Cause, Code, Command, Did, Dropped, FrameBuf, Image, MOST_DATA, State, Took};
use fsoe_frame::FrameView;
use param_load::{MasterSettings, Terms};
use seq_chain::{Link, Opened, SessionFrame, UnreadFrame, open, reset_frame};
use std::marker::Model;

/// The master of a connection. It has no clock and no communication interface: the caller passes in frames and ticks,
/// and sends the frames that the master writes.
#[derive(Drop)]
pub struct Master {
    kit: Kit,
    phase: Phase,
    /// The frame of the phase, while it is still to be sent.
    due: Option<Due>,
    watchdog: Watchdog,
}

/// The code of the Reset frame that is sent for this cause: that of the fault that was found, else 0.
fn code_sent(why: Cause) -> Code
    ensures { result ≡ code (code_sent why) }
{
    match why {
        Cause::Found(code) => code,
        Cause::Peer(_) | Cause::Local => Code::LOCAL_RESET,
    }
}

/// Reports that a Reset frame was taken, and that nothing was sent yet.
fn tell_reset(view: &FrameView<'_>, did: &mut Did)
    ensures { did.new ≡ record (takes command.Reset view.now.load false) { sent = false } }
{
    let mut took = Took {
        command: Command::Reset,
        load: Image::new(),
    };
    view.load_into(&mut took.load);
    *did = Did {
        sent: false,
        ..Did::taken(took, false)
    };
}

impl Model for Master {
    ghost use Rattle.master_core.specs.MasterView.{MasterView, IsSoundMaster};

    ghost Value = { MasterView };

    ghost view = { λ m. record { kit = m.kit; state = record { phase = m.phase; due = m.due }; timer = m.watchdog } };

    ghost invariant = { λ m. IsSoundMaster (record { kit = m.kit; state = record { phase = m.phase; due = m.due }; timer = m.watchdog }) };
}

impl Master {
    ghost use Rattle.std.specs.Prelude.{◌≤◌, ◌||◌, Some, true, IsTrue, OnOk, IfErr, is_some, length, [], option_copied};
    ghost use Rattle.fsoe_base.specs.declared.did.Cause.TheVariants as cause;
    ghost use Rattle.param_load.specs.Profile.{allows_id};
    ghost use Rattle.failsafe_io.specs.Timer.{started};
    ghost use Rattle.master_core.specs.Master.{accepted_of, outcome_of, ends, refuses, on_reset_view, on_session, settles, accepted, replies, falls, on_frame, tick_of};
    ghost use Rattle.master_core.specs.Now.{is_due, reply};
    ghost use Rattle.master_core.specs.Phase.{chain_of, fault, next_phase};
    ghost use Rattle.param_load.specs.declared.entry.Move.TheVariants as event;
    ghost use Rattle.seq_chain.specs.Session.{HasPassed};
    ghost use Rattle.end_model.specs.Setup.{OfMaster, sends, receives};
    ghost use Rattle.end_model.specs.Readiness as model;
    ghost use Rattle.end_model.specs.Outputs.{out};
    ghost use Rattle.master_core.specs.Standing.{MasterIsAfter, Follows, Answers, Shows};
    ghost use Rattle.master_core.specs.Waiting.{Delivery, Waits, Accepts, Keeps, Replies, ShowsDue};

    /// Creates a master with these settings, in state Reset, with offer and outputs of zeros, and fail-safe data off.
    /// At its first tick the watchdog expires, and it sends the Reset frame.
    #[tactic(auto, using(crate::proofs::Law::new_is_after))]
    pub fn new(settings: MasterSettings) -> Master
        ensures stands { MasterIsAfter settings result [] }
        ensures settings { result.kit.settings ≡ settings }
        ensures rest { is_due result.state ≡ false }
    {
        let limit = settings.watchdog();
        Master {
            kit: Kit::new(settings),
            phase: Phase::Reset(InReset(())),
            due: None,
            watchdog: Watchdog::new(limit, limit - 1),
        }
    }

    /// The frame of the phase is due from now on, a Reset frame with this code. The age is 0.
    fn owe(&mut self, code: Code)
        ensures { self.new ≡ record self.old { state = record self.old.state { due = Some (record { code = code }) }; timer = started self.old.kit.settings.watchdog } }
    {
        self.due = Some(Due { code });
        let limit = self.kit.settings.watchdog();
        self.watchdog.restart(limit);
    }

    /// Forgets the session; a Reset frame is due.
    #[cold]
    #[inline(never)]
    fn end(&mut self, why: Cause, did: &mut Did)
        ensures { accepted_of self.new did.new ≡ ends self.old false why }
    {
        self.phase = Phase::Reset(InReset(()));
        self.owe(code_sent(why));
        *did = Did {
            sent: false,
            ..Did::reset(false, why)
        };
    }

    /// The contents of a frame that passed the tests are wrong.
    #[cold]
    #[inline(never)]
    fn refuse_contents(&mut self, code: Code, did: &mut Did)
        ensures { accepted_of self.new did.new ≡ ends self.old true (cause.Found code) }
    {
        self.end(Cause::Found(code), did);
        did.passed = true;
    }

    /// A test of a frame failed with this code: in state Reset the frame is dropped.
    #[cold]
    #[inline(never)]
    fn refuse(&mut self, code: Code, did: &mut Did)
        ensures accepted { accepted_of self.new did.new ≡ refuses self.old code }
        ensures kit { self.new.kit ≡ self.old.kit }
        ensures unsent { did.new.sent ≡ false }
    {
        if self.phase.is_reset() {
            did.clear();
            did.dropped = Some(Dropped::InReset);
            return;
        }
        self.end(Cause::Found(code), did);
    }

    /// A valid Reset frame came: in state Reset the one with code 0 begins a session.
    #[cold]
    #[inline(never)]
    fn acknowledge(&mut self, code: Code, view: &FrameView<'_>, did: &mut Did)
        ensures accepted { accepted_of self.new did.new ≡ on_reset_view self.old code view.now }
        ensures kit { self.new.kit ≡ self.old.kit }
        ensures unsent { did.new.sent ≡ false }
    {
        if !self.phase.is_reset() {
            return self.end(Cause::Peer(code), did);
        }
        if code.0 != 0x00 {
            did.clear();
            did.dropped = Some(Dropped::InReset);
            return;
        }
        let mut last = FrameBuf::new();
        last.set(view.bytes());
        self.phase = Phase::Begin(last);
        self.owe(Code::LOCAL_RESET);
        tell_reset(view, did);
    }

    /// Takes a frame that passed the tests, with the values that the chain stores of it, unless its contents are wrong.
    /// After a refusal the phase must only be left.
    #[tactic(auto, using(crate::proofs::Taken::taken, crate::proofs::Taken::refused))]
    fn take(&mut self, seen: &SessionFrame<'_>, link: Link) -> Result<(), Code>
        requires passed { HasPassed (receives (OfMaster self.old.kit.settings)) (chain_of self.old.state.phase) seen.now link }
        ensures taken { OnOk result (accepted_of self.new (record (takes seen.now.command seen.now.frame.load true) { sent = false }) ≡ settles self.old seen.now (next_phase self.old.kit self.old.state.phase seen.now)) }
        ensures refused { IfErr result (λ code. ends self.new true (cause.Found code) ≡ settles self.old seen.now (next_phase self.old.kit self.old.state.phase seen.now)) }
        ensures kit { self.new.kit ≡ self.old.kit }
    {
        self.phase.take(seen, link, &self.kit)?;
        self.owe(Code::LOCAL_RESET);
        Ok(())
    }

    /// Tests a frame and takes it, or drops it, or leaves the session.
    #[inline(never)]
    fn receive(&mut self, frame: &[u8], did: &mut Did)
        ensures accepted { accepted_of self.new did.new ≡ accepted self.old frame.now }
        ensures kit { self.new.kit ≡ self.old.kit }
        ensures unsent { did.new.sent ≡ false }
    {
        let repeats = self.phase.is_repeat(frame);
        // The frame is read where it was opened, and its data where they are told, so that neither is moved.
        let opened = open(frame, self.kit.settings.peer_len(), repeats);
        match &opened {
            Opened::Drop(why) => {
                did.clear();
                did.dropped = Some(*why);
            }
            Opened::Refuse(code) => self.refuse(*code, did),
            Opened::ResetFrame(code, view) => self.acknowledge(*code, view, did),
            Opened::OfSession(unread) => self.receive_session(unread, did),
        }
    }

    /// Tests a frame of a session and takes it, or drops it, or leaves the session.
    #[inline(always)]
    fn receive_session(&mut self, unread: &UnreadFrame<'_>, did: &mut Did)
        requires { length unread.now.frame.load ≡ receives (OfMaster self.old.kit.settings) }
        ensures accepted { accepted_of self.new did.new ≡ on_session self.old unread.now (fault self.old.kit.settings self.old.state.phase unread.now) }
        ensures kit { self.new.kit ≡ self.old.kit }
        ensures unsent { did.new.sent ≡ false }
    {
        unread.took_into(did);
        let Some(took) = &did.took else {
            unreachable!();
        };
        let seen = SessionFrame::new(unread, &took.load);
        let link = match self.phase.test(&self.kit.settings, &seen) {
            Err(code) => return self.refuse(code, did),
            Ok(link) => link,
        };
        match self.take(&seen, link) {
            Err(code) => self.refuse_contents(code, did),
            Ok(()) => {
                did.tell_taken(true);
                did.sent = false;
            }
        }
    }

    /// Accepts a frame of the slave, of any number of bytes. No frame may be due before. If a frame is taken or the
    /// session ends, a frame is due after the call.
    /// - A frame with a wrong length, or equal to the last accepted frame, is dropped.
    /// - A valid Reset frame ends the session. In state Reset it begins a session if its code is 0, else it is dropped.
    /// - A frame that fails a test ends the session with the code of this test; in state Reset it is dropped.
    /// - Every other frame is taken.
    pub fn accept(&mut self, frame: &[u8]) -> Did
        requires { is_due self.old.state ≡ false }
        ensures accepts { Accepts self.old frame.now result self.new }
        ensures due { is_due self.new.state ≡ (is_some result.took || is_some result.reset) }
        ensures kit { self.new.kit ≡ self.old.kit }
        ensures unsent { result.sent ≡ false }
    {
        let mut did = Did::nothing();
        self.accept_into(frame, &mut did);
        did
    }

    /// Does the same as `accept` and overwrites `did`, so that the data of a taken frame aren't moved again.
    #[tactic(auto, using(crate::proofs::Accepting::due_told))]
    pub fn accept_into(&mut self, frame: &[u8], did: &mut Did)
        requires { is_due self.old.state ≡ false }
        ensures accepts { Accepts self.old frame.now did.new self.new }
        ensures due { is_due self.new.state ≡ (is_some did.new.took || is_some did.new.reset) }
        ensures kit { self.new.kit ≡ self.old.kit }
        ensures unsent { did.new.sent ≡ false }
    {
        self.receive(frame, did);
    }

    /// Returns true if a frame is due: a frame was taken or a session ended, and nothing was sent after that.
    pub fn due(&self) -> bool
        ensures { result ≡ is_due self.now.state }
    {
        self.due.is_some()
    }

    /// Sends the frame that is due, if one is.
    fn send(&mut self, out: &mut FrameBuf)
        ensures master { self.new ≡ replies self.old }
        ensures sent { out.new ≡ reply self.old.kit self.old.state }
        ensures kit { self.new.kit ≡ self.old.kit }
        ensures done { is_due self.new.state ≡ false }
    {
        match self.due.take() {
            Some(due) => due.send(&mut self.phase, &self.kit, out),
            None => out.clear(),
        }
    }

    /// Writes the due frame to `out`, whose old contents are lost. A data frame carries the offer of this moment, and
    /// the first Session frame the session id (`nonce`) of this moment.
    #[tactic(auto, using(crate::proofs::Waiting::replies_by))]
    pub fn reply(&mut self, out: &mut FrameBuf)
        requires { IsTrue (is_due self.old.state) }
        ensures replies { Replies self.old self.new out.new }
        ensures kit { self.new.kit ≡ self.old.kit }
        ensures done { is_due self.new.state ≡ false }
    {
        self.send(out);
    }

    /// Tests a frame, and sends the frame that is then due at once.
    #[inline(never)]
    fn exchange(&mut self, frame: &[u8], did: &mut Did, out: &mut FrameBuf)
        requires { is_due self.old.state ≡ false }
        ensures outcome { outcome_of self.new did.new out.new ≡ on_frame self.old frame.now }
        ensures kit { self.new.kit ≡ self.old.kit }
        ensures done { is_due self.new.state ≡ false }
    {
        self.receive(frame, did);
        did.sent = self.due.is_some();
        self.send(out);
    }

    /// Accepts a frame, as `accept` does, and writes the frame that is then due to `out`. No frame may be due before.
    /// The old contents of `out` are lost; it is empty if nothing is sent.
    pub fn deliver(&mut self, frame: &[u8], out: &mut FrameBuf) -> Did
        requires { is_due self.old.state ≡ false }
        ensures follows { Follows self.old (event.Deliver frame.now) self.new }
        ensures answers { Answers self.old (event.Deliver frame.now) result out.new }
        ensures kit { self.new.kit ≡ self.old.kit }
        ensures done { is_due self.new.state ≡ false }
    {
        let mut did = Did::nothing();
        self.deliver_into(frame, &mut did, out);
        did
    }

    /// Does the same as `deliver` and overwrites `did`, so that the data of a taken frame aren't moved again.
    pub fn deliver_into(&mut self, frame: &[u8], did: &mut Did, out: &mut FrameBuf)
        requires { is_due self.old.state ≡ false }
        ensures follows { Follows self.old (event.Deliver frame.now) self.new }
        ensures answers { Answers self.old (event.Deliver frame.now) did.new out.new }
        ensures kit { self.new.kit ≡ self.old.kit }
        ensures done { is_due self.new.state ≡ false }
    {
        self.exchange(frame, did, out);
    }

    /// Forgets the session, and sends a Reset frame at once.
    #[cold]
    #[inline(never)]
    fn fall(&mut self, why: Cause, did: &mut Did, out: &mut FrameBuf)
        ensures { outcome_of self.new did.new out.new ≡ falls self.old why }
    {
        self.end(why, did);
        did.sent = true;
        self.send(out);
    }

    /// Counts a tick.
    fn count(&mut self, did: &mut Did, out: &mut FrameBuf)
        requires { is_due self.old.state ≡ false }
        ensures outcome { outcome_of self.new did.new out.new ≡ tick_of self.old }
        ensures kit { self.new.kit ≡ self.old.kit }
        ensures done { is_due self.new.state ≡ false }
    {
        out.clear();
        if !self.watchdog.tick() {
            did.clear();
            return;
        }
        if self.phase.is_reset() {
            reset_frame(Code::LOCAL_RESET, self.kit.settings.own_len(), out);
            did.clear();
            did.sent = true;
            return;
        }
        self.fall(Cause::Found(Code::WATCHDOG_EXPIRED), did, out);
    }

    /// Counts a tick; no frame may be due. If the age reaches the watchdog, the session ends with code 05h: the outputs
    /// are zeros from this tick on, and the Reset frame is written to `out`. In state Reset the Reset frame with code 0
    /// is written at each expiry.
    pub fn tick(&mut self, out: &mut FrameBuf) -> Did
        requires { is_due self.old.state ≡ false }
        ensures follows { Follows self.old event.Tick self.new }
        ensures answers { Answers self.old event.Tick result out.new }
        ensures kit { self.new.kit ≡ self.old.kit }
        ensures done { is_due self.new.state ≡ false }
    {
        let mut did = Did::nothing();
        self.tick_into(&mut did, out);
        did
    }

    /// Does the same as `tick`, and overwrites `did` with the result.
    #[tactic(auto, using(crate::proofs::Law::follows_by, crate::proofs::Law::answers_by))]
    pub fn tick_into(&mut self, did: &mut Did, out: &mut FrameBuf)
        requires { is_due self.old.state ≡ false }
        ensures follows { Follows self.old event.Tick self.new }
        ensures answers { Answers self.old event.Tick did.new out.new }
        ensures kit { self.new.kit ≡ self.old.kit }
        ensures done { is_due self.new.state ≡ false }
    {
        self.count(did, out);
    }

    /// Ends the session, if there is one, while no frame is due, and writes Reset(0) to `out`.
    #[tactic(auto, using(crate::proofs::Law::follows_by, crate::proofs::Law::answers_by))]
    pub fn reset(&mut self, out: &mut FrameBuf) -> Did
        requires { is_due self.old.state ≡ false }
        ensures follows { Follows self.old event.Local self.new }
        ensures answers { Answers self.old event.Local result out.new }
        ensures kit { self.new.kit ≡ self.old.kit }
        ensures done { is_due self.new.state ≡ false }
    {
        let mut did = Did::nothing();
        self.fall(Cause::Local, &mut did, out);
        did
    }

    /// Sets the safe data to send from now on, also in a frame that is due, `settings().own_len()` bytes. The offer
    /// outlasts resets.
    #[tactic(auto, using(crate::proofs::Law::follows_by, crate::proofs::Waiting::put_keeps))]
    pub fn put(&mut self, load: &[u8])
        requires { length load.now ≡ sends (OfMaster self.old.kit.settings) }
        ensures follows { Follows self.old (event.Put load.now) self.new }
        ensures keeps { Keeps self.old (event.Put load.now) self.new }
        ensures settings { self.new.kit.settings ≡ self.old.kit.settings }
        ensures due { is_due self.new.state ≡ is_due self.old.state }
    {
        self.kit.offer.put(load);
    }

    /// Switches fail-safe data on or off, also for a due frame: while on, zeros replace the offer. It outlasts resets.
    #[tactic(auto, using(crate::proofs::Law::follows_by, crate::proofs::Waiting::hold_keeps))]
    pub fn hold(&mut self, failsafe: bool)
        ensures follows { Follows self.old (event.Hold failsafe) self.new }
        ensures keeps { Keeps self.old (event.Hold failsafe) self.new }
        ensures settings { self.new.kit.settings ≡ self.old.kit.settings }
        ensures due { is_due self.new.state ≡ is_due self.old.state }
    {
        self.kit.offer.hold(failsafe);
    }

    /// Sets the id of all sessions whose first Session frame is sent after this call, also if that frame is due now. It
    /// is at most 65,535 in profile One. It outlasts resets: give a fresh one before each session.
    #[tactic(auto, using(crate::proofs::Law::follows_by, crate::proofs::Waiting::nonce_keeps))]
    pub fn nonce(&mut self, id: u32)
        requires { IsTrue (allows_id self.old.kit.settings.profile id) }
        ensures follows { Follows self.old (event.Nonce id) self.new }
        ensures keeps { Keeps self.old (event.Nonce id) self.new }
        ensures settings { self.new.kit.settings ≡ self.old.kit.settings }
        ensures due { is_due self.new.state ≡ is_due self.old.state }
    {
        self.kit.nonce = id;
    }

    /// The settings that the master was made with.
    pub fn settings(&self) -> &MasterSettings
        ensures { result.now ≡ self.now.kit.settings }
    {
        &self.kit.settings
    }

    /// Returns the state: the phase of the last frame sent in this session, or Reset if there is no session. A frame
    /// that is due is treated as already sent.
    #[tactic(auto, using(crate::proofs::Law::state_shown, crate::proofs::ShownDue::state_due))]
    pub fn state(&self) -> State
        ensures shown { Shows self.now result model.state_of }
        ensures shown_due { ShowsDue self.now result model.state_of }
    {
        self.phase.state()
    }

    /// Returns the outputs, `settings().peer_len()` bytes that came from the slave. In state Data they are the data of
    /// the last frame taken, which are zeros after a FailSafeData frame. In every other state they are zeros.
    #[tactic(auto, using(crate::proofs::Law::outputs_shown, crate::proofs::ShownDue::outputs_due))]
    pub fn outputs(&self) -> &[u8]
        ensures shown { Shows self.now result.now out }
        ensures shown_due { ShowsDue self.now result.now out }
        ensures len { length result.now ≡ receives (OfMaster self.now.kit.settings) }
        ensures most { length result.now ≤ MOST_DATA }
    {
        self.phase.outputs(&self.kit)
    }

    /// Returns the terms of the session, or None in every state except Data.
    #[tactic(auto, using(crate::proofs::Law::terms_shown, crate::proofs::ShownDue::terms_due))]
    pub fn terms(&self) -> Option<&Terms>
        ensures shown { Shows self.now (option_copied result) model.told_terms }
        ensures shown_due { ShowsDue self.now (option_copied result) model.told_terms }
    {
        self.phase.terms()
    }

    /// Returns the ticks since the last frame was sent, 0 while a frame is due. A new master has its watchdog less 1.
    #[tactic(auto, using(crate::proofs::Law::age_shown, crate::proofs::ShownDue::age_due))]
    pub fn age(&self) -> u16
        ensures shown { Shows self.now result model.age }
        ensures shown_due { ShowsDue self.now result model.age }
        ensures zero_while_due { (delivery : Delivery) → Waits self.now delivery → IsTrue (is_due self.now.state) → result ≡ 0 }
    {
        self.watchdog.age()
    }

    /// The safe data that were put last, zeros at first.
    #[tactic(auto, using(crate::proofs::Law::offer_shown, crate::proofs::ShownDue::offer_due))]
    pub fn offer(&self) -> &[u8]
        ensures shown { Shows self.now result.now model.offer }
        ensures shown_due { ShowsDue self.now result.now model.offer }
        ensures len { length result.now ≡ sends (OfMaster self.now.kit.settings) }
    {
        self.kit.offer.bytes()
    }

    /// Whether zeros are sent in place of the offer.
    #[tactic(auto, using(crate::proofs::Law::held_shown, crate::proofs::ShownDue::held_due))]
    pub fn held(&self) -> bool
        ensures shown { Shows self.now result (λ s e. model.held e) }
        ensures shown_due { ShowsDue self.now result (λ s e. model.held e) }
    {
        self.kit.offer.held()
    }
}
