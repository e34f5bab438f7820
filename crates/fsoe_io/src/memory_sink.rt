//! Sinks in memory.
ghost use Rattle.std.specs.Prelude.{◌≡◌, ◌+◌, ◌-◌, ◌≤◌, ◌<◌, ◌||◌, Some, None, [], length, min, ◌++◌, IfOk, IfSome, IsNone, SomeIff, is_err};
ghost use Rattle.fsoe_io.specs.Ends.{finds_no_room, refusals_after, store_faults};
ghost use Rattle.fsoe_io.specs.Calls.{HasCause, TakesSome, WriteGrows};
ghost use Rattle.fsoe_io.specs.Planned.{is_next_listed, with_one_more};

use crate::planned::PlannedCalls;
use crate::sink::Sink;
use crate::source::Failed;
use fsoe_base::Memory;
use std::alloc::Global;
use std::marker::Model;

/// A sink in memory for tests. A call fails if it is listed, or if its piece isn't empty and no room is left. Its count
/// of faults counts each listed call so far and each other call that found no room once, up to 2^64 - 1.
#[derive(Drop)]
pub struct MemSink {
    room: Vec<u8>,
    len: usize,
    most: usize,
    calls: PlannedCalls,
    refusals: u64,
}

impl Model for MemSink {
    ghost use Rattle.std.specs.Prelude.{◌≤◌, ◌<◌, take, vec_len};
    ghost use Rattle.fsoe_io.specs.Ends.{Store};

    ghost Value = { Store };

    ghost view = { λ s. record {
      written = take s.len s.room.items;
      room = vec_len s.room;
      most = s.most;
      planned = s.calls;
      refusals = s.refusals;
    } };

    ghost invariant = { λ s. (s.len ≤ vec_len s.room) × (0 < s.most) };
}

impl MemSink {
    /// A sink with room for `room` bytes that takes at most `most` bytes in a call, and fails at the calls that
    /// `fails` lists by their number from 1. `Memory` where there is none for the room.
    pub fn new(alloc: Global, room: usize, most: usize, fails: Vec<u64>) -> Result<MemSink, Memory>
        requires { 0 < most }
        ensures { IfOk result (λ sink. sink ≡ record { written = []; room = room; most = most; planned = record { fails = fails.items; calls = 0 }; refusals = 0 }) }
    {
        match vec![in alloc; 0; room] {
            Ok(room) => Ok(MemSink {
                room,
                len: 0,
                most,
                calls: PlannedCalls::new(fails),
                refusals: 0,
            }),
            Err(_) => Err(Memory),
        }
    }

    /// What was written.
    pub fn bytes(&self) -> &[u8]
        ensures { result.now ≡ self.now.written }
    {
        &self.room[..self.len]
    }
}

impl Sink for MemSink {
    ghost written = { λ s. Some s.written };

    ghost faults = { store_faults };

    fn write(&mut self, piece: &[u8]) -> Result<usize, Failed>
        ensures bound { TakesSome result piece.now }
        ensures bytes { WriteGrows (Some self.old.written) (Some self.new.written) result piece.now }
        ensures cause { HasCause (store_faults self.old) (store_faults self.new) result }
        // Each call counts. It fails if and only if it is listed or finds no room, and else takes as much as it may. A
        // call that is listed and finds no room counts once, as listed.
        ensures counts { self.new.planned ≡ with_one_more self.old.planned }
        ensures fails { is_err result ≡ (is_next_listed self.old.planned || finds_no_room self.old piece.now) }
        ensures count { IfOk result (λ n. n ≡ min (min (length piece.now) (self.old.room - length self.old.written)) self.old.most) }
        ensures refusals { self.new.refusals ≡ refusals_after self.old piece.now }
        ensures room { self.new.room ≡ self.old.room }
        ensures most { self.new.most ≡ self.old.most }
    {
        if self.calls.next_fails() {
            return Err(Failed);
        }
        let count = piece.len().min(self.room.len() - self.len).min(self.most);
        if count == 0 && !piece.is_empty() {
            self.refusals = self.refusals.saturating_add(1);
            return Err(Failed);
        }
        self.room[self.len..self.len + count].copy_from_slice(&piece[..count]);
        self.len += count;
        Ok(count)
    }
}

/// A sink in memory that never fails. What was written is known until a piece doesn't fit; from then on it accepts
/// bytes, and its contents are unknown.
#[derive(Drop)]
pub struct SureSink {
    room: Vec<u8>,
    len: usize,
    over: bool,
}

impl Model for SureSink {
    ghost use Rattle.std.specs.Prelude.{◌≤◌, Some, None, take, vec_len, if◌then◌else◌};
    ghost use Rattle.fsoe_io.specs.Ends.{SureSinkView};

    ghost Value = { SureSinkView };

    ghost view = { λ s. record {
      written = (if s.over then None else Some (take s.len s.room.items));
      room = vec_len s.room;
    } };

    ghost invariant = { λ s. s.len ≤ vec_len s.room };
}

impl SureSink {
    /// A sink with room for `room` bytes. `Memory` where there is none for the room.
    pub fn new(alloc: Global, room: usize) -> Result<SureSink, Memory>
        ensures { IfOk result (λ sink. sink ≡ record { written = Some []; room = room }) }
    {
        match vec![in alloc; 0; room] {
            Ok(room) => Ok(SureSink {
                room,
                len: 0,
                over: false,
            }),
            Err(_) => Err(Memory),
        }
    }

    /// Returns what was written, or nothing after a piece that didn't fit.
    pub fn bytes(&self) -> &[u8]
        ensures told { IfSome self.now.written (λ written. result.now ≡ written) }
        ensures untold { IsNone self.now.written → result.now ≡ [] }
    {
        if self.over {
            return &[];
        }
        &self.room[..self.len]
    }
}

impl Sink for SureSink {
    ghost written = { λ s. s.written };

    ghost faults = { λ _. 0 };

    fn write(&mut self, piece: &[u8]) -> Result<usize, Failed>
        ensures bytes { WriteGrows self.old.written self.new.written result piece.now }
        // It takes the whole piece, and what was written stays known if and only if the piece fits into the room.
        ensures count { result ≡ Ok (length piece.now) }
        ensures tells { IfSome self.old.written (λ written.
            SomeIff self.new.written (length written + length piece.now ≤ self.old.room) (written ++ piece.now)) }
        ensures room { self.new.room ≡ self.old.room }
    {
        if self.over || piece.len() > self.room.len() - self.len {
            self.over = true;
        } else {
            self.room[self.len..self.len + piece.len()].copy_from_slice(piece);
            self.len += piece.len();
        }
        Ok(piece.len())
    }
}
