//! A buffer in front of a sink.
ghost use Rattle.std.specs.Prelude.{◌≡◌, ◌+◌, ◌^◌, ◌≤◌, ◌<◌, [], ◌++◌, length, OnOk};
ghost use Rattle.fsoe_io.specs.Calls.{HasCause};
ghost use Rattle.fsoe_io.specs.Output.{Puts};
ghost use Rattle.fsoe_io.specs.Sink.{most_waiting};

use crate::sink::{Sink, put_all};
use crate::source::Failed;
use std::marker::Model;

/// A buffer of 4,096 bytes in front of a sink. In contracts the value is the bytes not written yet, and the number of
/// bytes that went to the sink. After `Failed` call only `sent`.
#[derive(Drop)]
pub struct Output {
    bytes: [u8; 4096],
    len: usize,
    sent: u64,
}

impl Model for Output {
    ghost use Rattle.std.specs.Prelude.{◌≤◌, take};
    ghost use Rattle.fsoe_io.specs.Output.{OutputView};

    ghost Value = { OutputView };

    ghost view = { λ o. record { bytes = take o.len o.bytes; sent = o.sent } };

    ghost invariant = { λ o. o.len ≤ 4096 };
}

impl Output {
    /// An empty buffer that sent nothing.
    pub fn new() -> Output
        ensures bytes { result.bytes ≡ [] }
        ensures sent { result.sent ≡ 0 }
    {
        Output {
            bytes: [0; 4096],
            len: 0,
            sent: 0,
        }
    }

    /// How many bytes went to the sink.
    pub fn sent(&self) -> u64
        ensures { result ≡ self.now.sent }
    {
        self.sent
    }

    fn push(&mut self, piece: &[u8])
        requires { length self.old.bytes + length piece.now ≤ 4096 }
        ensures bytes { self.new.bytes ≡ self.old.bytes ++ piece.now }
        ensures sent { self.new.sent ≡ self.old.sent }
    {
        self.bytes[self.len..self.len + piece.len()].copy_from_slice(piece);
        self.len += piece.len();
    }

    /// Sends all buffered bytes.
    pub fn flush<K: Sink>(&mut self, sink: &mut K) -> Result<(), Failed>
        requires { self.old.sent + length self.old.bytes < 2 ^ 64 }
        ensures puts { Puts result self.old self.new (K.written sink.old) (K.written sink.new) [] }
        ensures empty { OnOk result (self.new.bytes ≡ []) }
        ensures cause { HasCause (K.faults sink.old) (K.faults sink.new) result }
    {
        match put_all(sink, &self.bytes[..self.len]) {
            Ok(()) => {
                self.sent += self.len as u64;
                self.len = 0;
                Ok(())
            }
            Err(partial) => {
                self.sent += partial.done as u64;
                Err(Failed)
            }
        }
    }

    /// Appends a piece of at most 1,024 bytes, and sends the buffered bytes before if there is no room for it.
    pub fn put<K: Sink>(&mut self, sink: &mut K, piece: &[u8]) -> Result<(), Failed>
        requires short { length piece.now ≤ 1024 }
        requires count { self.old.sent + length self.old.bytes < 2 ^ 63 }
        ensures puts { Puts result self.old self.new (K.written sink.old) (K.written sink.new) piece.now }
        ensures count { OnOk result (self.new.sent + length self.new.bytes ≡ self.old.sent + length self.old.bytes + length piece.now) }
        ensures most { OnOk result (length self.new.bytes ≤ most_waiting) }
        ensures cause { HasCause (K.faults sink.old) (K.faults sink.new) result }
    {
        if piece.len() > 4096 - self.len {
            self.flush(sink)?;
        }
        self.push(piece);
        Ok(())
    }

    /// Appends a last piece of at most 1,024 bytes, and sends all buffered bytes.
    pub fn finish<K: Sink>(&mut self, sink: &mut K, piece: &[u8]) -> Result<(), Failed>
        requires short { length piece.now ≤ 1024 }
        requires count { self.old.sent + length self.old.bytes < 2 ^ 63 }
        ensures puts { Puts result self.old self.new (K.written sink.old) (K.written sink.new) piece.now }
        ensures empty { OnOk result (self.new.bytes ≡ []) }
        ensures cause { HasCause (K.faults sink.old) (K.faults sink.new) result }
    {
        self.put(sink, piece)?;
        self.flush(sink)
    }
}
