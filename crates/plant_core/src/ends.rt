//! Both ends of all connections of a plant.
ghost use Rattle.std.specs.Prelude.{◌≡◌, ◌≤◌, ◌<◌, ◌+◌, ◌*◌, [], ◌∷◌, ◌++◌, Some, None, length, MatchOption, vec_len, vec_capacity};
ghost use Rattle.plant_model.specs.declared.event.PlantEvent.TheVariants as plant_event;
ghost use Rattle.plant_model.specs.declared.journal.JournalStep.TheVariants as step;
ghost use Rattle.param_load.specs.MoveRef.{owned_move};
ghost use Rattle.plant_core.specs.Doing.{room_for, slave_move};

use crate::link::{Link, watchdog_in};
use crate::offers::note_offers;
use crate::ticking::{masters_ticked, tick_slaves};
use black_channel::{Channel, Parcel, Place};
use failsafe_io::Application;
use fsoe_base::{Did, End, FrameBuf};
use multi_master::MultiMaster;
use param_load::{Answer, MoveRef};
use plant_model::{JournalStep, PlantEvent};

/// The most parcels that are pulled in a tick.
pub(crate) const MOST_PULLS: u8 = 64;

/// The masters of all connections, what is kept of each beside its master, and places for what masters do in a tick.
#[derive(Drop)]
pub(crate) struct Ends<A> {
    pub(crate) master: MultiMaster<A>,
    pub(crate) links: Vec<Link>,
    pub(crate) dids: Vec<Did>,
    pub(crate) outs: Vec<FrameBuf>,
    /// What an end did at the last frame that was pulled, or at the last event at a slave. Its place for data stays,
    /// since ticks have places of their own.
    pub(crate) answer: Answer,
}

/// Notes in the journal that this parcel was pulled.
#[tactic(auto, using(std::proofs::lemmas::Grind::common_steps, std::proofs::lemmas::List::set_at))]
fn note_pulled(to: Place, frame: &FrameBuf, steps: &mut Vec<JournalStep>)
    requires room { vec_len steps.old + 1 ≤ vec_capacity steps.old }
    ensures noted { steps.new.items ≡ steps.old.items ++ step.Pulled (record { to = to; frame = frame.now }) ∷ [] }
    ensures count { vec_len steps.new ≡ vec_len steps.old + 1 }
    ensures capacity { vec_capacity steps.old ≤ vec_capacity steps.new }
{
    // The bytes are written where the parcel lies, so that its room isn't moved.
    let place = steps.len();
    let blank = FrameBuf::new();
    steps.push_reserved(JournalStep::Pulled(Parcel { to, frame: blank }));
    if let JournalStep::Pulled(parcel) = &mut steps[place] {
        parcel.frame.set(frame.bytes());
    }
}

/// Notes an event of the script in the journal.
fn note_event(event: &PlantEvent, steps: &mut Vec<JournalStep>)
    requires room { vec_len steps.old + 1 ≤ vec_capacity steps.old }
    ensures noted { steps.new.items ≡ steps.old.items ++ step.Script event.now ∷ [] }
    ensures count { vec_len steps.new ≡ vec_len steps.old + 1 }
    ensures capacity { vec_capacity steps.old ≤ vec_capacity steps.new }
{
    let event = match event {
        PlantEvent::Tick => PlantEvent::Tick,
        PlantEvent::Put { link, load } => PlantEvent::Put {
            link: *link,
            load: load.copy(),
        },
        PlantEvent::Hold { link, failsafe } => PlantEvent::Hold {
            link: *link,
            failsafe: *failsafe,
        },
        PlantEvent::Local { link } => PlantEvent::Local { link: *link },
        PlantEvent::Nonce { link, end, id } => PlantEvent::Nonce {
            link: *link,
            end: *end,
            id: *id,
        },
        PlantEvent::Cut { link, cut } => PlantEvent::Cut {
            link: *link,
            cut: *cut,
        },
    };
    steps.push_reserved(JournalStep::Script(event));
}

/// What an event of the script has happen to the slave of a connection, with the number of this, if it does.
fn slave_move(event: &PlantEvent) -> Option<(u16, MoveRef<'_>)>
    ensures { MatchOption result (slave_move event.now ≡ None) (λ to. slave_move event.now ≡ Some (to.0, owned_move to.1)) }
{
    match event {
        PlantEvent::Put { link, load } => Some((*link, MoveRef::Put(load.bytes()))),
        PlantEvent::Hold { link, failsafe } => Some((*link, MoveRef::Hold(*failsafe))),
        PlantEvent::Local { link } => Some((*link, MoveRef::Local)),
        PlantEvent::Nonce {
            link,
            end: End::Slave,
            id,
        } => Some((*link, MoveRef::Nonce(u32::from(*id)))),
        _ => None,
    }
}

impl<A: Application> Ends<A> {
    ghost use Rattle.multi_master.specs.Calls.{app_view};
    ghost use Rattle.plant_model.specs.Acts.{Event, App};
    ghost use Rattle.plant_core.specs.Doing.{Delivers, IsReady, Pulls, DoesLine, sees};
    ghost use Rattle.plant_core.specs.Standing.{fixed_in, lengths_kept};
    ghost use Rattle.black_channel.specs.Told.{ChannelTold};
    ghost use Rattle.plant_model.specs.Fits.{Fits};

    /// Notes a pulled parcel, and delivers it to its end, if there is one, whose answer is pushed. The offers that a
    /// cycle of the masters changed are noted before the parcel.
    fn deliver<C: Channel>(
        &mut self,
        to: Place,
        frame: &FrameBuf,
        steps: &mut Vec<JournalStep>,
        channel: &mut C,
    )
        requires ready { IsReady self.old steps.old }
        requires room { vec_len steps.old + 1 + vec_len self.old.links ≤ vec_capacity steps.old }
        ensures delivers { let seen = sees A.rule A.holds A.guards in Delivers (seen self.old steps.old) (record { to = to; frame = frame.now }) (seen self.new steps.new) (C.told channel.old) (C.told channel.new) }
        ensures name_stays { C.name channel.new ≡ C.name channel.old }
        ensures ready { IsReady self.new steps.new }
        ensures count { vec_len self.new.links ≡ vec_len self.old.links }
        ensures few { vec_len steps.new ≤ vec_len steps.old + 1 + vec_len self.old.links }
        ensures capacity { vec_capacity steps.old ≤ vec_capacity steps.new }
    {
        let link = to.link;
        if link == 0 || usize::from(link) > self.links.len() {
            note_pulled(to, frame, steps);
            return;
        }
        match to.end {
            End::Master => {
                let Answer { did, sent } = &mut self.answer;
                self.master.deliver_into(link, frame.bytes(), did, sent);
                note_offers(&self.master, &mut self.links, steps);
                note_pulled(to, frame, steps);
                let watchdog = watchdog_in(self.master.terms(link));
                self.links[usize::from(link) - 1].acted(
                    End::Master,
                    link,
                    false,
                    frame.bytes(),
                    &self.answer.did,
                    &self.answer.sent,
                    watchdog,
                    channel,
                );
            }
            End::Slave => {
                note_pulled(to, frame, steps);
                let event = MoveRef::Deliver(frame.bytes());
                self.links[usize::from(link) - 1].act(link, event, channel, &mut self.answer);
            }
        }
    }

    /// Pulls at most 64 parcels, until none comes, and delivers each.
    fn pull_all<C: Channel>(&mut self, steps: &mut Vec<JournalStep>, channel: &mut C)
        requires ready { IsReady self.old steps.old }
        requires room { vec_len steps.old + 64 * (vec_len self.old.links + 1) ≤ vec_capacity steps.old }
        ensures pulls { let seen = sees A.rule A.holds A.guards in Pulls 0 (seen self.old steps.old) (seen self.new steps.new) (C.told channel.old) (C.told channel.new) }
        ensures name_stays { C.name channel.new ≡ C.name channel.old }
        ensures ready { IsReady self.new steps.new }
    {
        let mut frame = FrameBuf::new();
        for _ in 0..MOST_PULLS {
            let Some(to) = channel.pull(&mut frame) else {
                return;
            };
            self.deliver(to, &frame, steps, channel);
        }
    }

    /// Does a tick: first the slaves, then the masters with a cycle of the application, the offers that it changed, and
    /// then what the channel gives.
    fn tick<C: Channel>(&mut self, steps: &mut Vec<JournalStep>, channel: &mut C)
        requires ready { IsReady self.old steps.old }
        requires room { vec_len steps.old + room_for plant_event.Tick (vec_len self.old.links) ≤ vec_capacity steps.old }
        ensures line { let seen = sees A.rule A.holds A.guards in DoesLine (seen self.old steps.old) (Event plant_event.Tick) (seen self.new steps.new) (C.told channel.old) (C.told channel.new) }
        ensures name_stays { C.name channel.new ≡ C.name channel.old }
        ensures ready { IsReady self.new steps.new }
    {
        note_event(&PlantEvent::Tick, steps);
        tick_slaves(&mut self.links, channel);
        self.master
            .tick(self.outs.as_mut_slice(), self.dids.as_mut_slice());
        masters_ticked(&mut self.links, &self.dids, &self.outs, channel);
        note_offers(&self.master, &mut self.links, steps);
        self.pull_all(steps, channel);
    }

    /// Does an event of the script.
    pub(crate) fn happen<C: Channel>(
        &mut self,
        event: &PlantEvent,
        steps: &mut Vec<JournalStep>,
        channel: &mut C,
    )
        requires fits { Fits (lengths_kept self.old.links.items) event.now }
        requires ready { IsReady self.old steps.old }
        requires room { vec_len steps.old + room_for event.now (vec_len self.old.links) ≤ vec_capacity steps.old }
        ensures line { let seen = sees A.rule A.holds A.guards in DoesLine (seen self.old steps.old) (Event event.now) (seen self.new steps.new) (C.told channel.old) (C.told channel.new) }
        ensures name_stays { C.name channel.new ≡ C.name channel.old }
        ensures ready { IsReady self.new steps.new }
    {
        if let PlantEvent::Tick = event {
            return self.tick(steps, channel);
        }
        note_event(event, steps);
        if let Some((link, what)) = slave_move(event) {
            self.links[usize::from(link) - 1].act(link, what, channel, &mut self.answer);
            return;
        }
        match event {
            PlantEvent::Nonce {
                link,
                end: End::Master,
                id,
            } => {
                self.master.nonce(*link, *id);
                self.links[usize::from(*link) - 1].note_setting();
            }
            PlantEvent::Cut { link, cut } => self.links[usize::from(*link) - 1].set_cut(*cut),
            _ => {}
        }
    }

    /// Changes to another application, and notes the offers that its first cycle changed.
    pub(crate) fn change_app(&mut self, app: A, steps: &mut Vec<JournalStep>)
        requires ready { IsReady self.old steps.old }
        requires room { vec_len steps.old + 1 + vec_len self.old.links ≤ vec_capacity steps.old }
        ensures line { let seen = sees A.rule A.holds A.guards in (told : ChannelTold) → DoesLine (seen self.old steps.old) (App (app_view A.rule A.holds A.guards app)) (seen self.new steps.new) told told }
        ensures fixed { fixed_in self.new.links.items ≡ fixed_in self.old.links.items }
        ensures ready { IsReady self.new steps.new }
    {
        steps.push_reserved(JournalStep::App);
        self.master.change_app(app);
        note_offers(&self.master, &mut self.links, steps);
    }
}

/// The most steps that an event may note with this number of connections.
pub(crate) fn room_for(event: &PlantEvent, links: usize) -> usize
    requires { links ≤ 64 }
    ensures { result ≡ room_for event.now links }
{
    match event {
        PlantEvent::Tick => 65 * (links + 1),
        _ => 1,
    }
}
