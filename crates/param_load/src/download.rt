//! What a master sends piece by piece in a handshake.
use crate::payload::{Payload, padded};
use crate::upload::Progress;
use fsoe_base::{Code, Image, MOST_DATA, is_all_zero};
use std::marker::Model;

/// A payload that a master sends piece by piece, one a frame, until each is answered. In contracts the value is the
/// payload, the bytes of a piece, whether the answers are echoes, and the place where the current piece begins.
#[derive(Drop)]
pub struct Download {
    payload: Payload,
    piece: usize,
    echo: bool,
    from: usize,
}

impl Model for Download {
    ghost use Rattle.std.specs.Prelude.{◌≤◌};
    ghost use Rattle.fsoe_base.specs.declared.lengths.TheConstants.{MOST_DATA};
    ghost use Rattle.param_load.specs.DownloadView.{DownloadView};

    ghost Value = { DownloadView };

    ghost view = { λ d. record { payload = d.payload; piece = d.piece; echo = d.echo; from = d.from } };

    ghost invariant = { λ d. d.piece ≤ MOST_DATA };
}

impl Download {
    ghost use Rattle.std.specs.Prelude.{◌≡◌, ◌≤◌, false, OnOk, OnErr, length};
    ghost use Rattle.param_load.specs.Payload.{padded};
    ghost use Rattle.param_load.specs.Download.{download, piece_in_turn, is_whole, is_answer, advanced, outcome};

    /// Creates the download of this payload in pieces of `piece` bytes, at most 126. With `echo` each answer repeats
    /// its piece; without it the answers carry data of the slave.
    pub fn new(payload: Payload, piece: usize, echo: bool) -> Download
        requires { piece ≤ MOST_DATA }
        ensures { result ≡ download payload piece echo }
    {
        Download {
            payload,
            piece,
            echo,
            from: 0,
        }
    }

    /// Whether all pieces were answered.
    pub fn is_whole(&self) -> bool
        ensures { result ≡ is_whole self.now }
    {
        self.payload.bytes().len() <= self.from
    }

    /// Returns the current piece, padded with zeros to `len` bytes, from `piece` to 126; only zeros if none is left.
    pub fn load(&self, len: usize) -> Image
        requires piece { self.now.piece ≤ len }
        requires most { len ≤ MOST_DATA }
        ensures value { result ≡ padded (piece_in_turn self.now) len }
        ensures len { length result ≡ len }
    {
        padded(self.payload.piece_from(self.from, self.piece), len)
    }

    /// Returns true if these bytes answer the current piece.
    fn is_answer(&self, bytes: &[u8]) -> bool
        requires piece { self.now.piece ≤ length bytes.now }
        requires most { length bytes.now ≤ MOST_DATA }
        ensures { result ≡ is_answer self.now bytes.now }
    {
        if self.echo {
            return bytes == self.load(bytes.len()).bytes();
        }
        let piece = self.payload.piece_from(self.from, self.piece);
        is_all_zero(&bytes[piece.len()..])
    }

    /// Takes the data of an answer to the current piece, from `piece` to 126 bytes. The download must be incomplete.
    /// Refused with 07h if they aren't the piece followed by zeros; without `echo` only the zeros after the piece are
    /// tested. After a refusal the download is unchanged.
    pub fn check(&mut self, bytes: &[u8]) -> Result<Progress, Code>
        requires more { is_whole self.old ≡ false }
        requires piece { self.old.piece ≤ length bytes.now }
        requires most { length bytes.now ≤ MOST_DATA }
        ensures outcome { result ≡ outcome self.old bytes.now }
        ensures advanced { OnOk result (self.new ≡ advanced self.old) }
        ensures refused { OnErr result (self.new ≡ self.old) }
    {
        if !self.is_answer(bytes) {
            return Err(Code::WRONG_DATA);
        }
        let len = self.payload.bytes().len();
        self.from += self.piece;
        if len <= self.from {
            Ok(Progress::Whole)
        } else {
            Ok(Progress::More)
        }
    }
}
