//! The frames that an end sent last.
ghost use Rattle.std.specs.Prelude.{◌≡◌, ◌≤◌, ◌↔◌, ◌+◌, ◌-◌, ◌^◌, true, false, min, [], ◌∷◌, length, take, is_some, option_copied};
ghost use Rattle.black_channel.specs.Window.{found, window_of, Pushes, Tells};
ghost use Rattle.black_channel.specs.Altered.{back_th};

use arrayvec::ArrayVec;
use fsoe_base::{FrameBuf, MOST_FRAME};
use std::marker::Model;

/// The last 64 frames of one end, of which a channel may bring any again. Doesn't allocate.
#[derive(Drop)]
pub struct Window {
    ring: ArrayVec<FrameBuf, 64>,
    /// The place of the oldest frame, where the next one goes after all 64 places are used.
    next: usize,
    sent: u64,
}

impl Model for Window {
    ghost use Rattle.std.specs.Prelude.{length};
    ghost use Rattle.black_channel.specs.Window.{WindowView, newest_first, IsRing};

    ghost Value = { WindowView };

    ghost view = { λ w. record { frames = newest_first w.next w.ring.items; sent = w.sent } };

    ghost invariant = { λ w. IsRing w.next w.sent (length w.ring.items) };
}

impl Window {
    /// A window of an end that sent nothing.
    pub fn new() -> Window
        ensures { result ≡ window_of [] }
    {
        Window {
            ring: ArrayVec::new(),
            next: 0,
            sent: 0,
        }
    }

    /// Stores the next frame, of at most 255 bytes, and forgets the oldest one if there are 64.
    #[tactic(auto, using(crate::proofs::Pushed::pushes_by))]
    pub fn push(&mut self, frame: &[u8])
        requires { length frame.now ≤ MOST_FRAME }
        ensures { Pushes self.old frame.now self.new }
    {
        self.note(frame);
    }

    #[tactic(auto, using(crate::proofs::Pushed::turned, crate::proofs::Pushed::grown))]
    fn note(&mut self, frame: &[u8])
        requires { length frame.now ≤ MOST_FRAME }
        ensures frames { self.new.frames ≡ take 64 (frame.now ∷ self.old.frames) }
        ensures sent { self.new.sent ≡ min (self.old.sent + 1) (2 ^ 64 - 1) }
    {
        self.sent = self.sent.saturating_add(1);
        if self.ring.is_full() {
            let oldest = &mut self.ring[self.next];
            oldest.set(frame);
            self.next = (self.next + 1) % 64;
        } else {
            let mut copy = FrameBuf::new();
            copy.set(frame);
            self.ring.push(copy);
        }
    }

    /// The number of frames that were pushed, 2^64 - 1 for all greater numbers.
    pub fn sent(&self) -> u64
        ensures { result ≡ self.now.sent }
    {
        self.sent
    }

    /// Returns the `j`-th frame back, the newest for `j` = 1, at most 64 back, or None if fewer than `j` were pushed.
    #[tactic(auto, using(crate::proofs::Pushed::tells_by))]
    pub fn look_back(&self, j: u8) -> Option<&FrameBuf>
        requires some { 1 ≤ j }
        requires within { j ≤ 64 }
        ensures there { is_some result ≡ true ↔ (j ≤ self.now.sent) }
        ensures tells { Tells self.now j (option_copied result) }
        ensures frame { option_copied result ≡ back_th j self.now.frames }
    {
        self.find(j)
    }

    #[tactic(auto, using(crate::proofs::Pushed::found_at, crate::proofs::Pushed::not_found))]
    fn find(&self, j: u8) -> Option<&FrameBuf>
        requires some { 1 ≤ j }
        requires within { j ≤ 64 }
        ensures there { is_some result ≡ true ↔ (j ≤ self.now.sent) }
        ensures frame { option_copied result ≡ back_th j self.now.frames }
    {
        let j = j as usize;
        let len = self.ring.len();
        if j > len {
            return None;
        }
        let place = if j <= self.next {
            self.next - j
        } else {
            self.next + len - j
        };
        Some(&self.ring[place])
    }

    /// Writes the `j`-th frame back, as `look_back` gives it, to `out`, whose old contents are lost. Returns false if
    /// fewer than `j` were pushed; then `out` is unchanged.
    pub fn back(&self, j: u8, out: &mut FrameBuf) -> bool
        requires some { 1 ≤ j }
        requires within { j ≤ 64 }
        ensures there { result ≡ true ↔ (j ≤ self.now.sent) }
        ensures tells { Tells self.now j (found result out.new) }
        ensures frame { found result out.new ≡ back_th j self.now.frames }
        ensures kept { result ≡ false → out.new ≡ out.old }
    {
        match self.look_back(j) {
            Some(frame) => {
                out.set(frame.bytes());
                true
            }
            None => false,
        }
    }
}
