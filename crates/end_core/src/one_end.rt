//! A master or a slave, with the calls that both have.
ghost use Rattle.std.specs.Prelude.{◌≡◌, ◌≤◌, IsTrue, length, option_copied};
ghost use Rattle.fsoe_base.specs.Lengths.{is_length};
ghost use Rattle.param_load.specs.Profile.{allows_id};
ghost use Rattle.param_load.specs.MoveRef.{owned_move};
ghost use Rattle.param_load.specs.declared.entry.Move.TheVariants as event;
ghost use Rattle.end_model.specs.Outputs as looking_back;
ghost use Rattle.end_model.specs.Readiness as model;
ghost use Rattle.end_model.specs.Setup.{OfMaster, OfSlave, lengths_of, receives, sends};
ghost use Rattle.end_model.specs.Runs.{IsProper, profile_of};
ghost use Rattle.end_core.specs.Core.{setup_of, IsAtRest};
ghost use Rattle.end_core.specs.Standing.{IsNew, Follows, Answers, Shows};

use fsoe_base::{Did, FrameBuf, Lengths, MOST_DATA, State};
use master_core::Master;
use param_load::{Answer, MasterSettings, MoveRef, Profile, SlaveSettings, Terms};
use slave_core::Slave;

/// One end of a connection. A master that accepted a frame must have replied before; its `deliver` is one call here.
#[derive(Drop)]
pub enum Core {
    Master(Master),
    Slave(Slave),
}

impl Core {
    /// A new master with these settings.
    #[tactic(auto, using(crate::proofs::Either::new_master, crate::proofs::Either::master_set))]
    pub fn new_master(settings: MasterSettings) -> Core
        ensures new { IsNew result }
        ensures setup { setup_of result ≡ OfMaster settings }
    {
        Core::Master(Master::new(settings))
    }

    /// A new slave with these settings.
    #[tactic(auto, using(crate::proofs::Either::new_slave, crate::proofs::Either::slave_set))]
    pub fn new_slave(settings: SlaveSettings) -> Core
        ensures new { IsNew result }
        ensures setup { setup_of result ≡ OfSlave settings }
    {
        Core::Slave(Slave::new(settings))
    }

    /// The numbers of safe data bytes that both ends send.
    pub fn lengths(&self) -> &Lengths
        ensures { result.now ≡ lengths_of (setup_of self.now) }
    {
        match self {
            Core::Master(master) => master.settings().lengths(),
            Core::Slave(slave) => slave.settings().lengths(),
        }
    }

    /// The profile of parameters.
    pub fn profile(&self) -> Profile
        ensures { result ≡ profile_of (setup_of self.now) }
    {
        match self {
            Core::Master(master) => master.settings().profile(),
            Core::Slave(slave) => slave.settings().profile(),
        }
    }

    /// The number of safe data bytes that this end sends.
    pub fn own_len(&self) -> usize
        ensures value { result ≡ sends (setup_of self.now) }
        ensures valid { IsTrue (is_length result) }
    {
        match self {
            Core::Master(master) => master.settings().own_len(),
            Core::Slave(slave) => slave.settings().own_len(),
        }
    }

    /// The number of safe data bytes that its peer sends.
    pub fn peer_len(&self) -> usize
        ensures value { result ≡ receives (setup_of self.now) }
        ensures valid { IsTrue (is_length result) }
    {
        match self {
            Core::Master(master) => master.settings().peer_len(),
            Core::Slave(slave) => slave.settings().peer_len(),
        }
    }

    /// Lets this event happen. Writes what the end did, and the frame that it sent, over `answer`.
    #[tactic(auto, using(crate::proofs::Either::set_answers))]
    #[inline(always)]
    pub fn act(&mut self, event: MoveRef<'_>, answer: &mut Answer)
        requires proper { IsProper (setup_of self.old) (owned_move event) }
        requires rest { IsAtRest self.old }
        ensures follows { Follows self.old (owned_move event.entry) self.new }
        ensures answers { Answers self.old (owned_move event.entry) answer.new.did answer.new.sent }
        ensures setup { setup_of self.new ≡ setup_of self.old }
        ensures rest { IsAtRest self.new }
    {
        match event {
            MoveRef::Deliver(frame) => self.deliver_into(frame, &mut answer.did, &mut answer.sent),
            MoveRef::Tick => self.tick_into(&mut answer.did, &mut answer.sent),
            MoveRef::Local => answer.did = self.reset(&mut answer.sent),
            MoveRef::Put(load) => {
                self.put(load);
                answer.clear();
            }
            MoveRef::Hold(failsafe) => {
                self.hold(failsafe);
                answer.clear();
            }
            MoveRef::Nonce(id) => {
                self.nonce(id);
                answer.clear();
            }
        }
    }

    /// Processes a frame of the peer, of any number of bytes. Writes the result to `did`, and the frame to send to
    /// `out`, which is empty if none is sent.
    #[tactic(auto, using(crate::proofs::Either::master_follows, crate::proofs::Either::slave_follows, crate::proofs::Either::master_answers, crate::proofs::Either::slave_answers))]
    pub fn deliver_into(&mut self, frame: &[u8], did: &mut Did, out: &mut FrameBuf)
        requires { IsAtRest self.old }
        ensures follows { Follows self.old (event.Deliver frame.now) self.new }
        ensures answers { Answers self.old (event.Deliver frame.now) did.new out.new }
        ensures setup { setup_of self.new ≡ setup_of self.old }
        ensures rest { IsAtRest self.new }
    {
        match self {
            Core::Master(master) => master.deliver_into(frame, did, out),
            Core::Slave(slave) => slave.deliver_into(frame, did, out),
        }
    }

    /// Counts a tick. Writes the result to `did`, and the frame to send to `out`, which is empty if none is sent.
    #[tactic(auto, using(crate::proofs::Either::master_follows, crate::proofs::Either::slave_follows, crate::proofs::Either::master_answers, crate::proofs::Either::slave_answers))]
    pub fn tick_into(&mut self, did: &mut Did, out: &mut FrameBuf)
        requires { IsAtRest self.old }
        ensures follows { Follows self.old event.Tick self.new }
        ensures answers { Answers self.old event.Tick did.new out.new }
        ensures setup { setup_of self.new ≡ setup_of self.old }
        ensures rest { IsAtRest self.new }
    {
        match self {
            Core::Master(master) => master.tick_into(did, out),
            Core::Slave(slave) => slave.tick_into(did, out),
        }
    }

    /// Ends the session, if there is one, and writes Reset(0) to `out`.
    #[tactic(auto, using(crate::proofs::Either::master_follows, crate::proofs::Either::slave_follows, crate::proofs::Either::master_answers, crate::proofs::Either::slave_answers))]
    pub fn reset(&mut self, out: &mut FrameBuf) -> Did
        requires { IsAtRest self.old }
        ensures follows { Follows self.old event.Local self.new }
        ensures answers { Answers self.old event.Local result out.new }
        ensures setup { setup_of self.new ≡ setup_of self.old }
        ensures rest { IsAtRest self.new }
    {
        match self {
            Core::Master(master) => master.reset(out),
            Core::Slave(slave) => slave.reset(out),
        }
    }

    /// Sets the safe data to send from now on, `own_len()` bytes. The offer outlasts resets.
    #[tactic(auto, using(crate::proofs::Either::master_follows, crate::proofs::Either::slave_follows))]
    pub fn put(&mut self, load: &[u8])
        requires len { length load.now ≡ sends (setup_of self.old) }
        requires rest { IsAtRest self.old }
        ensures follows { Follows self.old (event.Put load.now) self.new }
        ensures setup { setup_of self.new ≡ setup_of self.old }
        ensures rest { IsAtRest self.new }
    {
        match self {
            Core::Master(master) => master.put(load),
            Core::Slave(slave) => slave.put(load),
        }
    }

    /// Switches fail-safe data on or off: while on, zeros are sent in place of the offer. It outlasts resets.
    #[tactic(auto, using(crate::proofs::Either::master_follows, crate::proofs::Either::slave_follows))]
    pub fn hold(&mut self, failsafe: bool)
        requires { IsAtRest self.old }
        ensures follows { Follows self.old (event.Hold failsafe) self.new }
        ensures setup { setup_of self.new ≡ setup_of self.old }
        ensures rest { IsAtRest self.new }
    {
        match self {
            Core::Master(master) => master.hold(failsafe),
            Core::Slave(slave) => slave.hold(failsafe),
        }
    }

    /// Sets the id of all sessions whose first Session frame is sent after this call, at most 65,535 in profile One. It
    /// outlasts resets.
    #[tactic(auto, using(crate::proofs::Either::master_follows, crate::proofs::Either::slave_follows))]
    pub fn nonce(&mut self, id: u32)
        requires allowed { IsTrue (allows_id (profile_of (setup_of self.old)) id) }
        requires rest { IsAtRest self.old }
        ensures follows { Follows self.old (event.Nonce id) self.new }
        ensures setup { setup_of self.new ≡ setup_of self.old }
        ensures rest { IsAtRest self.new }
    {
        match self {
            Core::Master(master) => master.nonce(id),
            Core::Slave(slave) => slave.nonce(id),
        }
    }

    /// The state.
    #[tactic(auto, using(crate::proofs::Either::master_shows, crate::proofs::Either::slave_shows))]
    pub fn state(&self) -> State
        ensures { Shows self.now result model.state_of }
    {
        match self {
            Core::Master(master) => master.state(),
            Core::Slave(slave) => slave.state(),
        }
    }

    /// Returns the outputs, as many bytes as the peer's frames have. They are zeros in every state except Data.
    #[tactic(auto, using(crate::proofs::Either::master_shows, crate::proofs::Either::slave_shows))]
    pub fn outputs(&self) -> &[u8]
        ensures shown { Shows self.now result.now looking_back.out }
        ensures len { length result.now ≡ receives (setup_of self.now) }
        ensures most { length result.now ≤ MOST_DATA }
    {
        match self {
            Core::Master(master) => master.outputs(),
            Core::Slave(slave) => slave.outputs(),
        }
    }

    /// Returns the terms of the session, or None in every state except Data.
    #[tactic(auto, using(crate::proofs::Either::master_shows, crate::proofs::Either::slave_shows))]
    pub fn terms(&self) -> Option<&Terms>
        ensures { Shows self.now (option_copied result) model.told_terms }
    {
        match self {
            Core::Master(master) => master.terms(),
            Core::Slave(slave) => slave.terms(),
        }
    }
}
