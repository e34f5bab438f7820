//! What all slaves do in a tick, and what is noted of all masters then.
ghost use Rattle.std.specs.Prelude.{◌≡◌, ◌≤◌, ◌-◌, ◌^◌, length, vec_len};
ghost use Rattle.plant_core.specs.Doing.{EachActs, MasterTicked, SlaveTicks};
ghost use Rattle.plant_core.specs.Standing.{AreNoted};

use crate::link::Link;
use black_channel::Channel;
use fsoe_base::{Did, End, FrameBuf};
use param_load::{Answer, MoveRef};

/// The slaves of all connections tick, in their order, and their frames are pushed.
#[tactic(auto, using(crate::proofs::Acting::each_begun, crate::proofs::Acting::each_acted))]
pub(crate) fn tick_slaves<C: Channel>(links: &mut Vec<Link>, channel: &mut C)
    requires most { vec_len links.old ≤ 64 }
    requires few { AreNoted (2 ^ 64 - 2) links.old.items }
    ensures acted { EachActs SlaveTicks 0 links.old.items links.new.items (C.told channel.old) (C.told channel.new) }
    ensures count { vec_len links.new ≡ vec_len links.old }
    ensures name_stays { C.name channel.new ≡ C.name channel.old }
{
    let mut answer = Answer::new();
    for i in 0..links.len() {
        links[i].act(i as u16 + 1, MoveRef::Tick, channel, &mut answer);
    }
}

/// Notes what each master did in a tick, in the order of the connections, and pushes their frames.
#[tactic(auto, using(crate::proofs::Acting::each_begun, crate::proofs::Acting::each_acted))]
pub(crate) fn masters_ticked<C: Channel>(
    links: &mut Vec<Link>,
    dids: &[Did],
    outs: &[FrameBuf],
    channel: &mut C,
)
    requires most { vec_len links.old ≤ 64 }
    requires few { AreNoted (2 ^ 64 - 2) links.old.items }
    requires dids { length dids.now ≡ vec_len links.old }
    requires outs { length outs.now ≡ vec_len links.old }
    ensures acted { EachActs (MasterTicked dids.now outs.now) 0 links.old.items links.new.items (C.told channel.old) (C.told channel.new) }
    ensures count { vec_len links.new ≡ vec_len links.old }
    ensures name_stays { C.name channel.new ≡ C.name channel.old }
{
    for i in 0..links.len() {
        let (did, out) = (&dids[i], &outs[i]);
        links[i].acted(
            End::Master,
            i as u16 + 1,
            true,
            &[],
            did,
            out,
            None,
            channel,
        );
    }
}
