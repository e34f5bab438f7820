//! What a plant keeps of one connection beside its master.
ghost use Rattle.std.specs.Prelude.{◌≡◌, ◌+◌, ◌<◌, ◌≤◌, ◌^◌, ◌&&◌, not, List, [], None, IfSome, IsSome, false, is_some, length, option_copied};
ghost use Rattle.fsoe_base.specs.Did.{nothing};
ghost use Rattle.fsoe_base.specs.Image.{bit_of};
ghost use Rattle.param_load.specs.MoveRef.{owned_move};
ghost use Rattle.end_model.specs.Deed.{delivered};
ghost use Rattle.end_model.specs.Readiness as model;
ghost use Rattle.end_model.specs.Outputs as looking_back;
ghost use Rattle.param_load.specs.declared.entry.Entry.{Entry};
ghost use Rattle.end_model.specs.Runs.{IsProper};
ghost use Rattle.end_model.specs.Setup.{OfSlave};
ghost use Rattle.exchange_model.specs.Ends.{peer};
ghost use Rattle.exchange_model.specs.Honest.{is_tick};
ghost use Rattle.exchange_model.specs.Monitor.{view_of};
ghost use Rattle.exchange_model.specs.Other.{first_other};
ghost use Rattle.fsoe_base.specs.declared.command.End.TheVariants as side;
ghost use Rattle.fsoe_base.specs.declared.lengths.TheConstants.{MOST_DATA};
ghost use Rattle.plant_model.specs.Gifts.{place_of, sent_uses};
ghost use Rattle.plant_model.specs.Uses.{Trace};
ghost use Rattle.reaction_bound.specs.Age.{told_age, worst_of};
ghost use Rattle.reaction_bound.specs.Ages as ages;
ghost use Rattle.reaction_bound.specs.Ages.{watchdog_in};
ghost use Rattle.slave_core.specs.Standing.{Shows};

use crate::watch::Watch;
use black_channel::{Channel, Place};
use fsoe_base::{Did, End, FrameBuf, State};
use param_load::{Answer, MoveRef, Terms};
use plant_conf::LinkConf;
use slave_core::Slave;
use std::marker::Model;

/// The slave of a connection, what notes the entries of its pair, and whether the connection is cut. Each call in which
/// the slave acts notes what it did; the acts of the master are passed in.
#[derive(Drop)]
pub(crate) struct Link {
    slave: Slave,
    watch: Watch,
    cut: bool,
}

impl Model for Link {
    ghost use Rattle.plant_core.specs.Link.{LinkView, ages_in, monitor_in};

    ghost Value = { LinkView };

    ghost view = { λ l. record { slave = l.slave; monitor = monitor_in l.watch; ages = ages_in l.watch; cut = l.cut } };
}

/// The watchdog in these terms, if there are some.
pub(crate) fn watchdog_in(terms: Option<&Terms>) -> Option<u16>
    ensures { result ≡ watchdog_in (option_copied terms.entry) }
{
    match terms {
        Some(terms) => Some(terms.watchdog),
        None => None,
    }
}

/// Whether an event is a tick, and the bytes that come at it.
fn parts_of(event: MoveRef<'_>) -> (bool, &[u8])
    ensures tick { result.0 ≡ is_tick (owned_move event.entry) }
    ensures came { result.1.now ≡ delivered (owned_move event.entry) }
{
    match event {
        MoveRef::Tick => (true, &[]),
        MoveRef::Deliver(frame) => (false, frame),
        _ => (false, &[]),
    }
}

/// The other end of a connection.
fn peer(at: End) -> End
    ensures { result ≡ peer at }
{
    match at {
        End::Master => End::Slave,
        End::Slave => End::Master,
    }
}

impl Link {
    ghost use Rattle.plant_core.specs.Doing.{SlaveActs};
    ghost use Rattle.plant_core.specs.Link.{new_link, IsNoted};

    /// Creates the slave of this connection, which isn't cut. With `aged` the ages of the outputs are counted.
    #[tactic(auto, using(crate::proofs::Linked::is_new))]
    pub(crate) fn new(conf: &LinkConf, aged: bool) -> Link
        ensures { result ≡ new_link aged conf.now }
    {
        Link {
            slave: Slave::new(conf.slave.copy()),
            watch: Watch::new(aged),
            cut: false,
        }
    }

    /// Lets this event happen at the slave of this connection, and notes it. Writes what it did and the frame that it
    /// sent, which is pushed.
    pub(crate) fn act<C: Channel>(
        &mut self,
        link: u16,
        event: MoveRef<'_>,
        channel: &mut C,
        answer: &mut Answer,
    )
        requires few { self.old.monitor.noted + 1 < 2 ^ 64 }
        requires proper { IsProper (OfSlave self.old.slave.kit.settings) (owned_move event) }
        ensures acts { SlaveActs link (owned_move event.entry) self.old self.new (C.told channel.old) (C.told channel.new) }
        ensures name_stays { C.name channel.new ≡ C.name channel.old }
    {
        self.slave.act(event, answer);
        let watchdog = watchdog_in(self.slave.terms());
        let (tick, came) = parts_of(event);
        let Answer { did, sent } = answer;
        self.acted(End::Slave, link, tick, came, did, sent, watchdog, channel);
    }

    /// Notes what an end of this connection did, by whether it was a tick, the bytes that came, and the watchdog in its
    /// terms, which is used only if it took ProcessData. Pushes its frame if there is one and the connection isn't cut.
    #[tactic(auto, using(crate::proofs::Linked::notes_one))]
    #[inline(always)]
    pub(crate) fn acted<C: Channel>(
        &mut self,
        at: End,
        link: u16,
        tick: bool,
        came: &[u8],
        did: &Did,
        sent: &FrameBuf,
        watchdog: Option<u16>,
        channel: &mut C,
    )
        requires few { self.old.monitor.noted + 1 < 2 ^ 64 }
        ensures noted { IsNoted at tick came.now did.now sent.now watchdog self.old self.new }
        ensures pushed { Trace (sent_uses (place_of link (peer at)) sent.now self.old.cut) (C.told channel.old) (C.told channel.new) }
        ensures name_stays { C.name channel.new ≡ C.name channel.old }
    {
        self.watch.note_parts(at, tick, came, did, sent, watchdog);
        if !self.cut && !sent.is_empty() {
            let to = Place {
                link,
                end: peer(at),
            };
            channel.push(to, sent.bytes());
        }
    }

    /// Notes that the master was set, at which nothing came and nothing was sent.
    #[tactic(auto, using(crate::proofs::Linked::notes_one))]
    #[inline(always)]
    pub(crate) fn note_setting(&mut self)
        requires few { self.old.monitor.noted + 1 < 2 ^ 64 }
        ensures { IsNoted side.Master false [] nothing [] None self.old self.new }
    {
        let (did, sent) = (Did::nothing(), FrameBuf::new());
        self.watch
            .note_parts(End::Master, false, &[], &did, &sent, None);
    }

    /// Cuts the connection, or joins it again.
    pub(crate) fn set_cut(&mut self, cut: bool)
        ensures { self.new ≡ record self.old { cut = cut } }
    {
        self.cut = cut;
    }

    /// The state of the slave.
    pub(crate) fn state(&self) -> State
        ensures { Shows self.now.slave result model.state_of }
    {
        self.slave.state()
    }

    /// The outputs of the slave.
    pub(crate) fn outputs(&self) -> &[u8]
        ensures shown { Shows self.now.slave result.now looking_back.out }
        ensures most { length result.now ≤ MOST_DATA }
    {
        self.slave.outputs()
    }

    /// Returns true if the slave sends this bit as 1 with fail-safe data off. A bit that its offer doesn't have is 0.
    pub(crate) fn offers(&self, bit: u16) -> bool
        ensures { Shows self.now.slave result (λ s e. not (model.held e) && bit_of (model.offer s e) bit) }
    {
        !self.slave.held() && bit_of(self.slave.offer(), bit)
    }

    /// Returns true if an entry of the pair is `other`.
    pub(crate) fn has_other(&self) -> bool
        ensures { (w : List Entry) → self.now.monitor ≡ view_of w → result ≡ is_some (first_other w) }
    {
        self.watch.has_other()
    }

    /// The greatest age of an end's outputs, if ages are counted.
    pub(crate) fn worst(&self, at: End) -> Option<u32>
        requires { IsSome self.now.ages }
        ensures { (w : List Entry) → IfSome self.now.ages (λ a. a ≡ ages.view_of w) → result ≡ told_age (worst_of at w) }
    {
        self.watch.worst(at)
    }
}

/// The value of a bit of these bytes: bit `b % 8`, lowest first, of byte `b / 8`; 0 where there is no such byte.
pub(crate) fn bit_of(bytes: &[u8], b: u16) -> bool
    ensures { result ≡ bit_of bytes.now b }
{
    match bytes.get(usize::from(b / 8)) {
        Some(byte) => *byte & (1 << (b % 8)) != 0,
        None => false,
    }
}
