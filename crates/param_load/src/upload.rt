//! An upload with its rule.
ghost use Rattle.std.specs.Prelude.{◌≡◌, IsTrue};
ghost use Rattle.param_load.specs.Contents.{app_part};
ghost use Rattle.param_load.specs.Upload.{is_whole};

use crate::app_rule::{AppBytes, AppRule};
use crate::pieces::Pieces;
use crate::profile::Profile;
use fsoe_base::{Code, Image, MOST_DATA};

/// How far a payload has come.
#[derive(Clone, Copy, Debug, PartialEq, Eq)]
pub enum Progress {
    /// Pieces are still to come.
    More,
    /// All bytes have come.
    Whole,
}

/// A payload that comes piece by piece, with the rule for its application parameters. `Slave` has this rule in its
/// settings, so it keeps only `Pieces`.
#[derive(Drop)]
pub struct Upload {
    pieces: Pieces,
    rule: AppRule,
    app: AppBytes,
    pub ghost app_is: { IsTrue (is_whole pieces) → app ≡ app_part pieces.expected pieces.joined },
}

impl Upload {
    ghost use Rattle.std.specs.Prelude.{◌≡◌, ◌≤◌, ◌<◌, [], IsTrue, false, OnOk, OnErr, length};
    ghost use Rattle.param_load.specs.AppRule.{is_acceptable};
    ghost use Rattle.param_load.specs.Contents.{app_part};
    ghost use Rattle.param_load.specs.Upload.{is_session, is_parameter, session_upload, connection_upload, parameter_upload, is_whole, id_of, advanced, outcome, last_piece};
    ghost use Rattle.param_load.specs.Payload.{number_at, padded};

    /// Creates the upload of a session id of this profile, in pieces of `piece` bytes, at most 126.
    pub fn session(piece: usize, profile: Profile) -> Upload
        requires { piece ≤ MOST_DATA }
        ensures { result.pieces ≡ session_upload piece profile }
    {
        Upload::new(Pieces::session(piece, profile), AppRule::Any(0))
    }

    /// Creates the upload of this connection id and this slave address, in pieces of `piece` bytes, at most 126.
    pub fn connection(piece: usize, conn: u16, address: u16) -> Upload
        requires { piece ≤ MOST_DATA }
        ensures { result.pieces ≡ connection_upload piece conn address }
    {
        Upload::new(Pieces::connection(piece, conn, address), AppRule::Any(0))
    }

    /// Creates the upload of parameters of this profile, with a watchdog of 1 to `most` ticks, in pieces of `piece`
    /// bytes, at most 126. The application parameters are tested by a copy of `rule`, which must be acceptable.
    pub fn parameter(piece: usize, most: u16, rule: &AppRule, profile: Profile) -> Upload
        requires most { piece ≤ MOST_DATA }
        requires acceptable { IsTrue (is_acceptable rule.now) }
        ensures pieces { result.pieces ≡ parameter_upload piece most rule.now profile }
        ensures rule { result.rule ≡ rule.now }
    {
        Upload::new(Pieces::parameter(piece, most, rule, profile), rule.copy())
    }

    /// No piece has come.
    fn new(pieces: Pieces, rule: AppRule) -> Upload
        requires { pieces.joined ≡ [] }
        ensures pieces { result.pieces ≡ pieces }
        ensures rule { result.rule ≡ rule }
    {
        Upload {
            pieces,
            rule,
            app: AppBytes::new(),
        }
    }

    /// Whether all bytes of the payload have come.
    pub fn is_whole(&self) -> bool
        ensures { result ≡ is_whole self.now.pieces }
    {
        self.pieces.is_whole()
    }

    /// Takes the data of a frame, at least `piece` bytes. The upload must be incomplete; a refusal leaves it unchanged.
    /// The fields whose last byte is in this frame are tested in order, then the padding, with the codes of
    /// `Pieces::take`. The application parameters are tested by the rule of the upload.
    pub fn take(&mut self, bytes: &[u8]) -> Result<Progress, Code>
        requires more { is_whole self.old.pieces ≡ false }
        requires piece { self.old.pieces.piece ≤ length bytes.now }
        ensures outcome { result ≡ outcome self.old.pieces self.old.rule bytes.now }
        ensures joined { OnOk result (self.new.pieces ≡ advanced self.old.pieces bytes.now) }
        ensures rule { self.new.rule ≡ self.old.rule }
        ensures refused { OnErr result (self.new ≡ self.old) }
    {
        let progress = self.pieces.take(bytes, &self.rule)?;
        if self.pieces.is_whole() {
            self.app.set(self.pieces.app());
        }
        Ok(progress)
    }

    /// Returns the last received piece, padded with zeros to `len` bytes, from `piece` to 126.
    pub fn echo(&self, len: usize) -> Image
        requires piece { self.now.pieces.piece ≤ len }
        requires most { len ≤ MOST_DATA }
        ensures { result ≡ padded (last_piece self.now.pieces) len }
    {
        self.pieces.echo(len)
    }

    /// Returns the session id. The upload must be that of a session id, and complete.
    pub fn id(&self) -> u32
        requires whole { IsTrue (is_whole self.now.pieces) }
        requires session { IsTrue (is_session self.now.pieces.expected) }
        ensures { result ≡ id_of self.now.pieces.expected self.now.pieces.joined }
    {
        self.pieces.id()
    }

    /// Returns the watchdog in ticks; it isn't 0. The upload must be that of parameters, and complete.
    pub fn watchdog(&self) -> u16
        requires whole { IsTrue (is_whole self.now.pieces) }
        requires parameter { IsTrue (is_parameter self.now.pieces.expected) }
        ensures value { result ≡ number_at 2 self.now.pieces.joined }
        ensures some { 0 < result }
    {
        self.pieces.watchdog()
    }

    /// Returns the application parameters, none but in an upload of parameters. The upload must be complete.
    pub fn app(&self) -> &AppBytes
        requires { IsTrue (is_whole self.now.pieces) }
        ensures { result.now ≡ app_part self.now.pieces.expected self.now.pieces.joined }
    {
        &self.app
    }
}
