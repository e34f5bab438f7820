//! A master of many connections.
ghost use Rattle.std.specs.Prelude.{◌≡◌, ◌≤◌, [], ◌∷◌, ◌++◌, length, option_copied, take, IfOk, IfErr, IfSome, IsErrAnd, None, OnErr, OnOk, Some};
ghost use Rattle.std.specs.Result.{result_err};
ghost use Rattle.end_model.specs.Readiness as model;
ghost use Rattle.end_model.specs.Setup.{OfMaster, receives, sends};
ghost use Rattle.multi_master.specs.declared.fault.NewFault.TheVariants as fault;

use crate::cycle::tick_all;
use crate::fault::NewFault;
use crate::making::{Connections, first_fault, first_fault_with};
use arrayvec::ArrayVec;
use failsafe_io::{Application, Bit};
use fsoe_base::{Did, FrameBuf, MOST_DATA, State};
use param_load::{MasterSettings, Terms};
use std::alloc::{AllocError, Allocator, Global};
use std::marker::Model;

/// The masters of up to 64 connections. In each cycle the application computes the offers of all of them from the
/// outputs of all. An event of one connection changes another one only in this way. Only `new`, `within`,
/// `connect` and `add` allocate.
#[derive(Drop)]
pub struct MultiMaster<A, M: Allocator = Global> {
    connections: Connections<M>,
    app: A,
}

impl<A, M: Allocator> Model for MultiMaster<A, M> {
    ghost use Rattle.multi_master.specs.Standing.{MultiValue, IsMulti};

    ghost Value = { MultiValue A };

    ghost view = { λ m. record {
      masters = m.connections.masters.items;
      app = m.app;
      inputs = m.connections.inputs.items;
      changed = m.connections.changed.items;
    } };

    ghost invariant = { λ m. let made = m.connections in IsMulti made.masters.items made.inputs.items made.answers.items made.changed.items };
}

impl<A: Application, M: Allocator> MultiMaster<A, M> {
    ghost use Rattle.multi_master.specs.Connection.{setup, connection_outputs, offer_at};
    ghost use Rattle.multi_master.specs.Calls.{AppView, Deliver, Tick, Reset, Nonce, Hold, ChangeApp, app_view};
    ghost use Rattle.multi_master.specs.New.{first_fault};
    ghost use Rattle.multi_master.specs.Standing.{seen, links, HasLink, StandsFor, AddsNew, Follows, AnswersFrame, AnswersTick, AnswersReset, ShowsAt, ShowsApp, ShowsChanged, AreNumbers, settings_of, settings_at, AllowsId};

    /// Creates the masters of connections with these settings, in this order, each in state Reset, and this
    /// application. No cycle is run: the offers are zeros until the first one. There may be no connection. The first
    /// refusal is returned: more than 64 connections, a duplicate connection id with its positions, no memory. Then
    /// settings and application are dropped.
    pub fn new(settings: Vec<MasterSettings, M>, app: A) -> Result<MultiMaster<A, M>, NewFault>
    where
        M: Copy,
        ensures refused { IfSome (first_fault settings.items) (λ found. result_err result ≡ Some found) }
        ensures memory_alone { IfErr result (λ found. first_fault settings.items ≡ None → found ≡ fault.Memory) }
        ensures stands { IfOk result (λ m. StandsFor settings.items (app_view A.rule A.holds A.guards app) (seen A.rule A.holds A.guards m) []) }
        ensures settings { IfOk result (λ m. settings_of m ≡ settings.items) }
    {
        let mut multi = MultiMaster::unconnected(*settings.allocator(), app);
        multi.connect(settings)?;
        Ok(multi)
    }

    /// Creates a master of no connection yet, with this application. Doesn't allocate.
    pub fn unconnected(alloc: M, app: A) -> MultiMaster<A, M>
    where
        M: Copy,
        ensures { result ≡ record { masters = []; app = app; inputs = []; changed = [] } }
    {
        MultiMaster {
            connections: Connections {
                masters: Vec::new(alloc),
                inputs: Vec::new(alloc),
                answers: Vec::new(alloc),
                changed: ArrayVec::new(),
            },
            app,
        }
    }

    /// Creates a master of no connection yet, with this application, and room for `most` connections. Without memory for
    /// it, the application is dropped.
    pub fn within(alloc: M, most: usize, app: A) -> Result<MultiMaster<A, M>, AllocError>
    where
        M: Copy,
        ensures { IfOk result (λ m. m ≡ record { masters = []; app = app; inputs = []; changed = [] }) }
    {
        let connections = Connections {
            masters: Vec::with_capacity(alloc, most)?,
            inputs: Vec::with_capacity(alloc, most)?,
            answers: Vec::with_capacity(alloc, most)?,
            changed: ArrayVec::new(),
        };
        Ok(MultiMaster { connections, app })
    }

    /// Replaces all connections with new ones of these settings, as `new` creates them. The application stays. After a
    /// refusal, as those of `new`, nothing is changed, and the settings are dropped.
    pub fn connect(&mut self, settings: Vec<MasterSettings, M>) -> Result<(), NewFault>
    where
        M: Copy,
        ensures refused { IfSome (first_fault settings.items) (λ found. result_err result ≡ Some found) }
        ensures memory_alone { IfErr result (λ found. first_fault settings.items ≡ None → found ≡ fault.Memory) }
        ensures stands { let seen = seen A.rule A.holds A.guards in OnOk result (StandsFor settings.items (seen self.old).app (seen self.new) []) }
        ensures app { self.new.app ≡ self.old.app }
        ensures settings { OnOk result (settings_of self.new ≡ settings.items) }
        ensures kept { OnErr result (self.new ≡ self.old) }
    {
        if let Some(found) = first_fault(settings.as_slice()) {
            return Err(found);
        }
        let Ok(connections) = Connections::new(settings) else {
            return Err(NewFault::Memory);
        };
        self.connections = connections;
        Ok(())
    }

    /// Returns the fault for which `add` refuses these settings, if they have one.
    pub fn fault_with(&self, settings: &MasterSettings) -> Option<NewFault>
        ensures { result ≡ first_fault (settings_of self.now ++ settings.now ∷ []) }
    {
        first_fault_with(self.connections.masters.as_slice(), settings)
    }

    /// Adds a connection with these settings, the last one. Nothing else changes, and no cycle is run: add connections
    /// before the first call. After a refusal, as that of `new` for the settings of all, nothing is changed, and the
    /// settings are dropped.
    pub fn add(&mut self, settings: MasterSettings) -> Result<(), NewFault>
        ensures refused { IfSome (first_fault (settings_of self.old ++ settings ∷ [])) (λ found. result_err result ≡ Some found) }
        ensures memory_alone { IfErr result (λ found. first_fault (settings_of self.old ++ settings ∷ []) ≡ None → found ≡ fault.Memory) }
        ensures stands { let seen = seen A.rule A.holds A.guards in OnOk result (AddsNew (seen self.old) settings (seen self.new)) }
        ensures others { OnOk result (take (length self.old.masters) self.new.masters ≡ self.old.masters) }
        ensures app { self.new.app ≡ self.old.app }
        ensures settings { OnOk result (settings_of self.new ≡ settings_of self.old ++ settings ∷ []) }
        ensures kept { OnErr result (self.new ≡ self.old) }
    {
        if let Some(found) = self.fault_with(&settings) {
            return Err(found);
        }
        let Ok(()) = self.connections.add(settings) else {
            return Err(NewFault::Memory);
        };
        Ok(())
    }

    /// Processes a frame, of any number of bytes, of the slave of this connection. If the frame is taken or ends the
    /// session, the application runs one unticked cycle over all outputs, with those of this frame. Its results become
    /// the offers of all connections, and then the due frame is written to `out`. If it carries process data, it
    /// carries the new offer. If the frame is dropped, no cycle runs and `out` is empty.
    pub fn deliver(&mut self, link: u16, frame: &[u8], out: &mut FrameBuf) -> Did
        requires { HasLink self.old link }
        ensures follows { let seen = seen A.rule A.holds A.guards in Follows (seen self.old) (Deliver link frame.now) (seen self.new) }
        ensures answers { AnswersFrame (seen A.rule A.holds A.guards self.old) link frame.now result out.new }
        ensures settings { settings_of self.new ≡ settings_of self.old }
    {
        let mut did = Did::nothing();
        self.deliver_into(link, frame, &mut did, out);
        did
    }

    /// Does the same as `deliver` and overwrites `did`, so that the data of a taken frame aren't moved again.
    pub fn deliver_into(&mut self, link: u16, frame: &[u8], did: &mut Did, out: &mut FrameBuf)
        requires { HasLink self.old link }
        ensures follows { let seen = seen A.rule A.holds A.guards in Follows (seen self.old) (Deliver link frame.now) (seen self.new) }
        ensures answers { AnswersFrame (seen A.rule A.holds A.guards self.old) link frame.now did.new out.new }
        ensures settings { settings_of self.new ≡ settings_of self.old }
    {
        let place = usize::from(link) - 1;
        let master = &mut self.connections.masters[place];
        master.accept_into(frame, did);
        if !master.due() {
            self.connections.changed.clear();
            out.clear();
            return;
        }
        self.connections.inputs[place].set(master.outputs());
        self.connections.run_cycle(&mut self.app, false);
        self.connections.masters[place].reply(out);
        did.sent = true;
    }

    /// Counts a tick at each master, in the order of the connections. Writes the result of each to `dids` and its frame
    /// to `outs`, empty if none is sent; both have one place for each connection. Then the application runs one ticked
    /// cycle, and its results become the offers of all connections.
    pub fn tick(&mut self, outs: &mut [FrameBuf], dids: &mut [Did])
        requires outs { length outs.old ≡ links self.old }
        requires dids { length dids.old ≡ links self.old }
        ensures follows { let seen = seen A.rule A.holds A.guards in Follows (seen self.old) Tick (seen self.new) }
        ensures answers { AnswersTick (seen A.rule A.holds A.guards self.old) dids.new outs.new }
        ensures settings { settings_of self.new ≡ settings_of self.old }
    {
        tick_all(
            self.connections.masters.as_mut_slice(),
            self.connections.inputs.as_mut_slice(),
            outs,
            dids,
        );
        self.connections.run_cycle(&mut self.app, true);
    }

    /// Resets the master of this connection: its session ends, if there is one, its outputs become zeros, and Reset(0)
    /// is written to `out`. Then the application runs one unticked cycle over all outputs, also in state Reset, and its
    /// results become the offers of all connections.
    pub fn reset(&mut self, link: u16, out: &mut FrameBuf) -> Did
        requires { HasLink self.old link }
        ensures follows { let seen = seen A.rule A.holds A.guards in Follows (seen self.old) (Reset link) (seen self.new) }
        ensures answers { AnswersReset (seen A.rule A.holds A.guards self.old) link result out.new }
        ensures settings { settings_of self.new ≡ settings_of self.old }
    {
        let place = usize::from(link) - 1;
        let master = &mut self.connections.masters[place];
        let did = master.reset(out);
        self.connections.inputs[place].set(master.outputs());
        self.connections.run_cycle(&mut self.app, false);
        did
    }

    /// Runs an unticked cycle of the application, as the first one after a change to it from any other application. Its
    /// results become the offers of all connections. No frame is built in between, so none carries an older offer.
    pub fn first_cycle(&mut self)
        ensures follows { let seen = seen A.rule A.holds A.guards in (other : AppView) → Follows (record (seen self.old) { app = other }) (ChangeApp (seen self.old).app) (seen self.new) }
        ensures settings { settings_of self.new ≡ settings_of self.old }
    {
        self.connections.run_cycle(&mut self.app, false);
    }

    /// Replaces the running application with `app`, and runs its first cycle at once, as `first_cycle` does.
    pub fn change_app(&mut self, app: A)
        ensures follows { let seen = seen A.rule A.holds A.guards in Follows (seen self.old) (ChangeApp (app_view A.rule A.holds A.guards app)) (seen self.new) }
        ensures settings { settings_of self.new ≡ settings_of self.old }
    {
        self.app = app;
        self.first_cycle();
    }

    /// Sets the id of all sessions of this connection whose first Session frame is sent after this call. A 16-bit id is
    /// allowed in both profiles. Give a fresh one before each session.
    pub fn nonce(&mut self, link: u16, id: u16)
        requires { HasLink self.old link }
        ensures follows { let seen = seen A.rule A.holds A.guards in Follows (seen self.old) (Nonce link id) (seen self.new) }
        ensures settings { settings_of self.new ≡ settings_of self.old }
    {
        self.session_id(link, u32::from(id));
    }

    /// Does the same as `nonce` with an id of 32 bits. In profile One it is at most 65,535.
    pub fn session_id(&mut self, link: u16, id: u32)
        requires number { HasLink self.old link }
        requires allowed { AllowsId self.old link id }
        ensures follows { let seen = seen A.rule A.holds A.guards in Follows (seen self.old) (Nonce link id) (seen self.new) }
        ensures settings { settings_of self.new ≡ settings_of self.old }
    {
        self.connections.changed.clear();
        self.connections.masters[usize::from(link) - 1].nonce(id);
    }

    /// Switches fail-safe data of this connection on or off: while on, its master sends zeros in place of the offer.
    /// They outlast resets.
    pub fn hold(&mut self, link: u16, failsafe: bool)
        requires { HasLink self.old link }
        ensures follows { let seen = seen A.rule A.holds A.guards in Follows (seen self.old) (Hold link failsafe) (seen self.new) }
        ensures settings { settings_of self.new ≡ settings_of self.old }
    {
        self.connections.changed.clear();
        self.connections.masters[usize::from(link) - 1].hold(failsafe);
    }

    /// The number of connections, which are numbered from 1.
    pub fn links(&self) -> u16
        ensures count { result ≡ links self.now }
        ensures most { result ≤ 64 }
    {
        self.connections.masters.len() as u16
    }

    /// The settings that this connection was made with.
    pub fn settings(&self, link: u16) -> &MasterSettings
        requires { HasLink self.now link }
        ensures { settings_at self.now link ≡ Some result.now }
    {
        self.connections.masters[usize::from(link) - 1].settings()
    }

    /// The state of the master of this connection.
    pub fn state(&self, link: u16) -> State
        requires { HasLink self.now link }
        ensures { ShowsAt (seen A.rule A.holds A.guards self.now) link result (λ c. model.state_of (setup c) c.deeds) }
    {
        self.connections.masters[usize::from(link) - 1].state()
    }

    /// Returns the outputs of the master of this connection, which are inputs of the application (SafeInputs): as many
    /// bytes as its slave's frames have. They are zeros in every state except Data.
    pub fn outputs(&self, link: u16) -> &[u8]
        requires { HasLink self.now link }
        ensures shown { ShowsAt (seen A.rule A.holds A.guards self.now) link result.now connection_outputs }
        ensures len { IfSome (settings_at self.now link) (λ s. length result.now ≡ receives (OfMaster s)) }
        ensures most { length result.now ≤ MOST_DATA }
    {
        self.connections.masters[usize::from(link) - 1].outputs()
    }

    /// Returns the terms of this connection's session, or None in every state except Data.
    pub fn terms(&self, link: u16) -> Option<&Terms>
        requires { HasLink self.now link }
        ensures { ShowsAt (seen A.rule A.holds A.guards self.now) link (option_copied result) (λ c. model.told_terms (setup c) c.deeds) }
    {
        self.connections.masters[usize::from(link) - 1].terms()
    }

    /// Returns the age of the master of this connection: the ticks since its last frame was sent.
    pub fn age(&self, link: u16) -> u16
        requires { HasLink self.now link }
        ensures { ShowsAt (seen A.rule A.holds A.guards self.now) link result (λ c. model.age (setup c) c.deeds) }
    {
        self.connections.masters[usize::from(link) - 1].age()
    }

    /// Returns true while the master of this connection sends zeros in place of the offer.
    pub fn held(&self, link: u16) -> bool
        requires { HasLink self.now link }
        ensures { ShowsAt (seen A.rule A.holds A.guards self.now) link result (λ c. model.held c.deeds) }
    {
        self.connections.masters[usize::from(link) - 1].held()
    }

    /// Returns the last result of the application for this connection, or zeros before the first cycle. Its next data
    /// frame carries this, unless it is held. It has as many bytes as its master's frames.
    pub fn offer(&self, link: u16) -> &[u8]
        requires { HasLink self.now link }
        ensures shown { ShowsAt (seen A.rule A.holds A.guards self.now) link result.now offer_at }
        ensures len { IfSome (settings_at self.now link) (λ s. length result.now ≡ sends (OfMaster s)) }
        ensures most { length result.now ≤ MOST_DATA }
    {
        let master = &self.connections.masters[usize::from(link) - 1];
        let fits = master.settings().own_len() <= MOST_DATA;
        prove!(fits);
        master.offer()
    }

    /// Returns the numbers of the connections whose offers the last call changed, in ascending order. None is listed if
    /// that call ran no cycle.
    pub fn changed(&self) -> &[u16]
        ensures changed { ShowsChanged (seen A.rule A.holds A.guards self.now) result.now }
        ensures numbers { AreNumbers (links self.now) result.now }
    {
        self.connections.changed.as_slice()
    }

    /// The running application.
    pub fn app(&self) -> &A
        ensures { result.now ≡ self.now.app }
    {
        &self.app
    }

    /// Returns the result of `guards` of the running application.
    pub fn guards(&self, out: Bit, inp: Bit) -> bool
        ensures { ShowsApp (seen A.rule A.holds A.guards self.now) result (λ app. app.guards out inp) }
    {
        self.app.guards(out, inp)
    }
}
