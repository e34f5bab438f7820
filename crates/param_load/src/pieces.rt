//! What a slave keeps of a payload that comes piece by piece in a handshake.
use crate::app_rule::AppRule;
use crate::contents::Expected;
use crate::joined::{Joined, number_at, past};
use crate::payload::padded;
use crate::profile::Profile;
use crate::upload::Progress;
use byteorder::{ByteOrder, LittleEndian};
use fsoe_base::{Code, Image, MOST_DATA};
use std::marker::Model;

/// The pieces of a payload, one in each frame, which are tested against what is expected. The caller of `take` keeps
/// the rule for application parameters. In contracts the value is what is expected, the bytes of a piece, and the
/// pieces so far, joined.
#[derive(Drop)]
pub struct Pieces {
    expected: Expected,
    piece: usize,
    joined: Joined,
}

impl Model for Pieces {
    ghost use Rattle.param_load.specs.UploadView.{UploadView};
    ghost use Rattle.param_load.specs.Upload.{IsUpload};

    ghost Value = { UploadView };

    ghost view = { λ u. record { expected = u.expected; piece = u.piece; joined = u.joined } };

    ghost invariant = { λ u. IsUpload (record { expected = u.expected; piece = u.piece; joined = u.joined }) };
}

impl Pieces {
    ghost use Rattle.std.specs.Prelude.{◌≡◌, ◌≤◌, ◌<◌, IsTrue, false, OnOk, OnErr, length};
    ghost use Rattle.param_load.specs.AppRule.{is_acceptable};
    ghost use Rattle.param_load.specs.Contents.{app_part};
    ghost use Rattle.param_load.specs.Upload.{is_session, is_parameter, session_upload, connection_upload, parameter_upload, is_whole, id_of, advanced, outcome, last_piece};
    ghost use Rattle.param_load.specs.Payload.{number_at, padded};

    /// The upload of a session id of this profile, in pieces of `piece` bytes, at most 126.
    pub fn session(piece: usize, profile: Profile) -> Pieces
        requires { piece ≤ MOST_DATA }
        ensures { result ≡ session_upload piece profile }
    {
        Pieces {
            expected: Expected::Session(profile),
            piece,
            joined: Joined::new(),
        }
    }

    /// The upload of this connection id and this slave address, in pieces of `piece` bytes, at most 126.
    pub fn connection(piece: usize, conn: u16, address: u16) -> Pieces
        requires { piece ≤ MOST_DATA }
        ensures { result ≡ connection_upload piece conn address }
    {
        Pieces {
            expected: Expected::Connection { conn, address },
            piece,
            joined: Joined::new(),
        }
    }

    /// Creates the upload of parameters of this profile, with a watchdog of 1 to `most` ticks, in pieces of `piece`
    /// bytes, at most 126. There are as many application parameters as `rule` accepts, which must be acceptable.
    pub fn parameter(piece: usize, most: u16, rule: &AppRule, profile: Profile) -> Pieces
        requires most { piece ≤ MOST_DATA }
        requires acceptable { IsTrue (is_acceptable rule.now) }
        ensures { result ≡ parameter_upload piece most rule.now profile }
    {
        Pieces {
            expected: Expected::Parameter {
                most,
                count: rule.len(),
                profile,
            },
            piece,
            joined: Joined::new(),
        }
    }

    /// Returns the number of bytes received so far, including the padding of the last piece.
    pub fn len(&self) -> usize
        ensures { result ≡ length self.now.joined }
    {
        self.joined.len()
    }

    /// Whether all bytes of the payload have come.
    pub fn is_whole(&self) -> bool
        ensures { result ≡ is_whole self.now }
    {
        self.expected.len() <= self.joined.len()
    }

    /// Takes the data of a frame, at least `piece` bytes. The upload must be incomplete; a refusal leaves it unchanged.
    /// The fields whose last byte is in this frame are tested in order, then the padding:
    /// - 03h for a wrong connection id, 06h for a wrong slave address;
    /// - 08h for a wrong length of the communication parameters;
    /// - 09h for a watchdog of 0 or above `most`, or a wrong profile word;
    /// - 0Ah for a wrong number of application parameters, 0Bh if `rule` doesn't accept them, 07h for padding that
    ///   isn't 0.
    ///
    /// Of a session id, a connection id and an address `rule` says nothing.
    pub fn take(&mut self, bytes: &[u8], rule: &AppRule) -> Result<Progress, Code>
        requires more { is_whole self.old ≡ false }
        requires piece { self.old.piece ≤ length bytes.now }
        ensures outcome { result ≡ outcome self.old rule.now bytes.now }
        ensures joined { OnOk result (self.new ≡ advanced self.old bytes.now) }
        ensures refused { OnErr result (self.new ≡ self.old) }
    {
        let whole = self.expected.len();
        let before = self.joined.len();
        self.joined.push_all(&bytes[..self.piece]);
        if let Some(code) = self
            .expected
            .contents_fault(rule, &self.joined, before, &bytes[self.piece..])
        {
            self.joined.truncate(before);
            return Err(code);
        }
        if self.joined.len() < whole {
            Ok(Progress::More)
        } else {
            Ok(Progress::Whole)
        }
    }

    /// Returns the last received piece, padded with zeros to `len` bytes, from `piece` to 126.
    pub fn echo(&self, len: usize) -> Image
        requires piece { self.now.piece ≤ len }
        requires most { len ≤ MOST_DATA }
        ensures value { result ≡ padded (last_piece self.now) len }
        ensures len { length result ≡ len }
    {
        let from = self.joined.len().saturating_sub(self.piece);
        padded(past(self.joined.bytes(), from), len)
    }

    /// Returns the session id. The upload must be that of a session id, and complete.
    pub fn id(&self) -> u32
        requires whole { IsTrue (is_whole self.now) }
        requires session { IsTrue (is_session self.now.expected) }
        ensures { result ≡ id_of self.now.expected self.now.joined }
    {
        let bytes = self.joined.bytes();
        match &self.expected {
            Expected::Session(Profile::Two(_)) => LittleEndian::read_u32(bytes),
            _ => u32::from(LittleEndian::read_u16(bytes)),
        }
    }

    /// Returns the watchdog in ticks. The upload must be that of parameters, and complete.
    pub fn watchdog(&self) -> u16
        requires whole { IsTrue (is_whole self.now) }
        requires parameter { IsTrue (is_parameter self.now.expected) }
        ensures value { result ≡ number_at 2 self.now.joined }
        ensures some { 0 < result }
    {
        number_at(self.joined.bytes(), 2)
    }

    /// Returns the application parameters, none but in an upload of parameters. The upload must be complete.
    pub fn app(&self) -> &[u8]
        requires { IsTrue (is_whole self.now) }
        ensures value { result.now ≡ app_part self.now.expected self.now.joined }
        ensures most { length result.now ≤ 512 }
    {
        self.expected.app_part(&self.joined)
    }
}
