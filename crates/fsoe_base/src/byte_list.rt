//! Lists of bytes of a fixed capacity: those of a frame, and the safe data of one direction.
ghost use Rattle.std.specs.Prelude.{◌≡◌, ◌≤◌, ◌<◌, ◌*◌, ◌==◌, ◌^◌, ◌%◌, ◌+◌, [], ◌∷◌, ◌++◌, length, replicate, take};
ghost use Rattle.std.specs.Borrow.{sem};
ghost use Rattle.fsoe_base.specs.Image.{bit_of, with_bit};

use crate::lengths::{MOST_DATA, MOST_FRAME};
use arrayvec::ArrayVec;
use std::marker::Model;

/// At most `MOST` bytes, which lie in the value itself. In contracts the value is the list of these bytes.
#[derive(Drop)]
pub struct ByteList<const MOST: usize> {
    /// The bytes, and behind them what other bytes left there, so that none is blanked when the list gets shorter.
    places: ArrayVec<u8, MOST>,
    len: usize,
}

impl<const MOST: usize> Model for ByteList<MOST> {
    ghost use Rattle.std.specs.Prelude.{◌≤◌, ℕ, List, length, take};

    ghost Value = { List ℕ };

    ghost view = { λ l. take l.len l.places.items };

    ghost invariant = { λ l. (l.len ≤ length l.places.items) × (length l.places.items ≤ MOST) };
}

/// The bytes of one frame, at most 255, or of none where it is empty.
pub type FrameBuf = ByteList<MOST_FRAME>;

/// The safe data bytes of one direction, at most 126.
pub type Image = ByteList<MOST_DATA>;

/// The mask of a bit of a byte.
fn mask_of(bit: u16) -> u8
    requires { bit < 8 }
    ensures { result ≡ 2 ^ bit }
{
    match bit {
        0 => 1,
        1 => 2,
        2 => 4,
        3 => 8,
        4 => 16,
        5 => 32,
        6 => 64,
        _ => 128,
    }
}

impl<const MOST: usize> ByteList<MOST> {
    ghost use Rattle.fsoe_base.specs.ByteList.{lends_bytes};

    /// No bytes.
    pub fn new() -> Self
        ensures { result ≡ [] }
    {
        ByteList {
            places: ArrayVec::new(),
            len: 0,
        }
    }

    /// `l` zeros, at most `MOST`.
    pub fn zeros(l: usize) -> Self
        requires { l ≤ MOST }
        ensures { result ≡ replicate l 0 }
    {
        ByteList {
            places: ArrayVec::from_array_in((), [0; MOST]),
            len: l,
        }
    }

    /// The number of bytes.
    pub fn len(&self) -> usize
        ensures value { result ≡ length self.now }
        ensures most { result ≤ MOST }
    {
        self.len
    }

    /// Whether there are no bytes.
    pub fn is_empty(&self) -> bool
        ensures { result ≡ (length self.now == 0) }
    {
        self.len == 0
    }

    /// The bytes.
    pub fn bytes(&self) -> &[u8]
        ensures value { result.now ≡ self.now }
        ensures most { length result.now ≤ MOST }
    {
        &self.places[..self.len]
    }

    /// The bytes, for writing over them.
    pub fn bytes_mut(&mut self) -> &mut [u8]
        ensures* writes_back { sem 𝓛 (lends_bytes MOST.row self.entry result) }
        ensures value { result.now ≡ self.old }
    {
        self.places.truncate(self.len);
        self.places.as_mut_slice()
    }

    /// Has this many bytes from now on, at most `MOST`, whichever they are.
    pub fn resize(&mut self, len: usize)
        requires { len ≤ MOST }
        ensures { length self.new ≡ len }
    {
        if len <= self.places.len() {
            self.len = len;
        } else {
            self.set(&[0; MOST][..len]);
        }
    }

    /// Drops all bytes after the first `len`.
    pub fn truncate(&mut self, len: usize)
        ensures { self.new ≡ take len self.old }
    {
        self.len = self.len.min(len);
    }

    /// Clears the list.
    pub fn clear(&mut self)
        ensures { self.new ≡ [] }
    {
        self.len = 0;
    }

    /// Appends a byte if the list has fewer than `MOST`.
    pub fn push(&mut self, b: u8)
        requires { length self.old < MOST }
        ensures { self.new ≡ self.old ++ b ∷ [] }
    {
        if self.len < self.places.len() {
            self.places[self.len] = b;
        } else {
            self.places.push(b);
        }
        self.len += 1;
    }

    /// Appends bytes if there is room for them among `MOST`.
    pub fn push_all(&mut self, piece: &[u8])
        requires { length self.old + length piece.now ≤ MOST }
        ensures { self.new ≡ self.old ++ piece.now }
    {
        let end = self.len + piece.len();
        if end <= self.places.len() {
            self.places.as_mut_slice()[self.len..end].copy_from_slice(piece);
        } else {
            self.places.truncate(self.len);
            let _fits = self.places.try_extend_from_slice(piece);
        }
        self.len = end;
    }

    /// Replaces the bytes of this list with these, at most `MOST`.
    pub fn set(&mut self, from: &[u8])
        requires { length from.now ≤ MOST }
        ensures { self.new ≡ from.now }
    {
        self.clear();
        self.push_all(from);
    }

    /// Returns a copy. Doesn't allocate.
    pub fn copy(&self) -> Self
        ensures { result ≡ self.now }
    {
        let mut list = ByteList::new();
        list.push_all(self.bytes());
        list
    }

    /// The value of a bit that exists: bit `b % 8`, lowest first, of byte `b / 8`.
    pub fn bit(&self, b: u16) -> bool
        requires { b < 8 * length self.now }
        ensures { result ≡ bit_of self.now b }
    {
        self.bytes()[usize::from(b / 8)] & mask_of(b % 8) != 0
    }

    /// Sets or clears a bit that exists.
    pub fn set_bit(&mut self, b: u16, v: bool)
        requires { b < 8 * length self.old }
        ensures { self.new ≡ with_bit self.old b v }
    {
        let place = usize::from(b / 8);
        let mask = mask_of(b % 8);
        let byte = self.places[place];
        self.places[place] = if v { byte | mask } else { byte & (mask ^ 255) };
    }
}

impl<const MOST: usize> Default for ByteList<MOST> {
    ghost is_default = { λ l. l ≡ [] };

    fn default() -> Self {
        ByteList::new()
    }
}
