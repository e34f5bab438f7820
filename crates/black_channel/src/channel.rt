//! What every channel of a plant is.
ghost use Rattle.std.specs.Prelude.{◌≡◌, ◌≤◌, ℕ, List, length};
ghost use Rattle.black_channel.specs.Told.{ChannelTold, Begins, PushesParcel, PullsParcel, parcel_of};
ghost use Rattle.black_channel.specs.Calls.{empties_after};

use fsoe_base::{End, FrameBuf, MOST_FRAME};

/// Where a frame goes.
#[derive(Clone, Copy, Debug, PartialEq, Eq)]
pub struct Place {
    /// The number of the connection.
    pub link: u16,
    /// Which of its ends.
    pub end: End,
}

/// A frame and where it goes.
#[derive(Drop)]
pub struct Parcel {
    pub to: Place,
    pub frame: FrameBuf,
}

/// A black channel: it brings the frames of all connections of a plant to their ends. It may lose frames, alter them,
/// change their order, and bring them again or elsewhere.
pub trait Channel: Drop {
    // Its name.
    ghost name: { Self → List ℕ };

    // What is known of it.
    ghost told: { Self → ChannelTold };

    /// Its name, by which a configuration picks it. No call changes it.
    fn name(&self) -> &str
        ensures { result.now ≡ name self.now };

    /// Starts again, with this seed for what it leaves to chance.
    fn begin(&mut self, seed: u64)
        ensures name_stays { name self.new ≡ name self.old }
        ensures begins { Begins seed (told self.old) (told self.new) };

    /// Takes a frame of 1 to 255 bytes that an end sent, and the place where it goes.
    fn push(&mut self, to: Place, frame: &[u8])
        requires some { 1 ≤ length frame.now }
        requires fits { length frame.now ≤ MOST_FRAME }
        ensures name_stays { name self.new ≡ name self.old }
        ensures pushes { PushesParcel (record { to = to; frame = frame.now }) (told self.old) (told self.new) };

    /// Writes a frame to `out`, whose old contents are lost, and returns where it goes. Returns None if nothing comes,
    /// only if the channel's count of that rose by one in this call or is 2^64 - 1.
    fn pull(&mut self, out: &mut FrameBuf) -> Option<Place>
        ensures name_stays { name self.new ≡ name self.old }
        ensures pulls { PullsParcel (parcel_of result out.new) (told self.old) (told self.new) };
}

/// How many pulls gave nothing, 2^64 - 1 for all greater numbers, after one more pull.
pub(crate) fn empties_after(answer: Option<Place>, empties: u64) -> u64
    ensures { result ≡ empties_after answer empties }
{
    match answer {
        Some(_) => empties,
        None => empties.saturating_add(1),
    }
}

impl Channel for Box<dyn Channel> {
    ghost name = { λ b. (Channel-box b).name b.value };

    ghost told = { λ b. (Channel-box b).told b.value };

    fn name(&self) -> &str {
        (**self).name()
    }

    fn begin(&mut self, seed: u64) {
        (**self).begin(seed)
    }

    fn push(&mut self, to: Place, frame: &[u8]) {
        (**self).push(to, frame)
    }

    fn pull(&mut self, out: &mut FrameBuf) -> Option<Place> {
        (**self).pull(out)
    }
}
