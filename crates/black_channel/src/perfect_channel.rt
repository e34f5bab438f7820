//! A channel that keeps order.
ghost use Rattle.std.specs.Prelude.{◌≡◌, ◌≤◌, [], codes, length, IfOk};
ghost use Rattle.black_channel.specs.Holds.{Ring};
ghost use Rattle.black_channel.specs.Told.{ChannelTold, Begins, PushesParcel, PullsParcel, parcel_of};
ghost use Rattle.black_channel.specs.Calls.{empties_after, holding};

use crate::channel::{Channel, Place, empties_after};
use crate::parcel_ring::ParcelRing;
use fsoe_base::{FrameBuf, Memory};
use std::alloc::Global;
use std::marker::Model;

/// A channel by the name `perfect` that gives each frame once, unaltered and in order, and loses none while at most
/// 1,024 are under way. In contracts the value is what is known of it.
#[derive(Drop)]
pub struct PerfectChannel {
    ring: ParcelRing,
    empties: u64,
}

impl Model for PerfectChannel {
    ghost use Rattle.black_channel.specs.Holds.{IsRing, Ring};
    ghost use Rattle.black_channel.specs.Told.{ChannelTold};
    ghost use Rattle.black_channel.specs.Calls.{holding};

    ghost Value = { ChannelTold };

    ghost view = { λ c. holding (Ring c.ring) c.empties };

    ghost invariant = { λ c. IsRing c.ring };
}

impl PerfectChannel {
    /// Creates a channel with nothing under way. `Memory` if there is none for 1,024 frames.
    pub fn new(alloc: Global) -> Result<PerfectChannel, Memory>
        ensures { IfOk result (λ c. c ≡ holding (Ring []) 0) }
    {
        Ok(PerfectChannel {
            ring: ParcelRing::new(alloc)?,
            empties: 0,
        })
    }
}

impl Channel for PerfectChannel {
    ghost name = { λ _. codes "perfect" };

    ghost told = { λ c. c };

    fn name(&self) -> &str {
        "perfect"
    }

    fn begin(&mut self, _seed: u64) {
        self.ring.clear();
    }

    fn push(&mut self, to: Place, frame: &[u8]) {
        self.ring.push(to, frame);
    }

    #[tactic(auto, using(crate::proofs::Pulling::pulls_by, crate::proofs::Pulling::ring_left))]
    fn pull(&mut self, out: &mut FrameBuf) -> Option<Place>
        ensures pulls { PullsParcel (parcel_of result out.new) self.old self.new }
        ensures counts { self.new.empties ≡ empties_after result self.old.empties }
    {
        let place = self.ring.take(out);
        self.empties = empties_after(place, self.empties);
        place
    }
}
