//! What an end sends piece by piece in a handshake.
ghost use Rattle.std.specs.Prelude.{◌≡◌, ◌≤◌, ◌+◌, ◌++◌, [], length, IsTrue};
ghost use Rattle.fsoe_base.specs.Bytes.{low_high};
ghost use Rattle.param_load.specs.Profile.{allows_id};
ghost use Rattle.param_load.specs.Payload.{session_payload, connection_payload, parameter_payload, piece_from, padded};

use crate::app_rule::AppBytes;
use crate::joined::past;
use crate::profile::Profile;
use byteorder::{ByteOrder, LittleEndian};
use fsoe_base::{ByteList, Image, MOST_DATA};
use std::marker::Model;

/// A payload of a handshake, at most 520 bytes, sent in pieces, one a frame. In contracts the value is its bytes.
#[derive(Drop)]
pub struct Payload {
    inner: ByteList<520>,
}

impl Model for Payload {
    ghost use Rattle.std.specs.Prelude.{ℕ, List};

    ghost Value = { List ℕ };

    ghost view = { λ p. p.inner };
}

/// Appends a number in 2 bytes, low byte first, for which there is room.
fn add_number(list: &mut ByteList<520>, n: u16)
    requires { length list.old + 2 ≤ 520 }
    ensures { list.new ≡ list.old ++ low_high n }
{
    let mut bytes = [0; 2];
    LittleEndian::write_u16(&mut bytes, n);
    list.push_all(&bytes);
}

impl Payload {
    fn new() -> Payload
        ensures { result ≡ [] }
    {
        Payload {
            inner: ByteList::new(),
        }
    }

    /// A session id, in 2 bytes in profile One and in 4 in profile Two, low byte first. In profile One it is at
    /// most 65,535.
    pub fn session(id: u32, profile: Profile) -> Payload
        requires { IsTrue (allows_id profile id) }
        ensures { result ≡ session_payload id profile }
    {
        let mut payload = Payload::new();
        match profile {
            Profile::One => add_number(&mut payload.inner, id as u16),
            Profile::Two(_) => {
                let mut bytes = [0; 4];
                LittleEndian::write_u32(&mut bytes, id);
                payload.inner.push_all(&bytes);
            }
        }
        payload
    }

    /// A connection id and a slave address, each in 2 bytes.
    pub fn connection(conn: u16, address: u16) -> Payload
        ensures { result ≡ connection_payload conn address }
    {
        let mut payload = Payload::new();
        add_number(&mut payload.inner, conn);
        add_number(&mut payload.inner, address);
        payload
    }

    /// Creates the payload of parameters. In 2 bytes each: the length of the communication parameters, the watchdog, in
    /// profile Two the profile word, the number of application parameters. Then these follow.
    pub fn parameter(watchdog: u16, profile: Profile, app: &AppBytes) -> Payload
        ensures { result ≡ parameter_payload watchdog profile app.now }
    {
        let mut payload = Payload::new();
        add_number(&mut payload.inner, profile.id_len() as u16);
        add_number(&mut payload.inner, watchdog);
        if let Profile::Two(word) = profile {
            add_number(&mut payload.inner, word);
        }
        add_number(&mut payload.inner, app.len() as u16);
        payload.inner.push_all(app.bytes());
        payload
    }

    /// The bytes.
    pub fn bytes(&self) -> &[u8]
        ensures value { result.now ≡ self.now }
        ensures most { length result.now ≤ 520 }
    {
        self.inner.bytes()
    }

    #[tactic(auto, using(std::proofs::lemmas::List::take_min))]
    /// The piece that begins at this place: `piece` bytes, or those up to the payload's end.
    pub fn piece_from(&self, from: usize, piece: usize) -> &[u8]
        ensures value { result.now ≡ piece_from self.now from piece }
        ensures most { length result.now ≤ piece }
    {
        let rest = past(self.bytes(), from);
        &rest[..piece.min(rest.len())]
    }
}

/// A piece of a payload as the safe data of a frame: its bytes, then zeros up to `len` bytes, at most 126.
pub fn padded(piece: &[u8], len: usize) -> Image
    requires fits { length piece.now ≤ len }
    requires most { len ≤ MOST_DATA }
    ensures value { result ≡ padded piece.now len }
    ensures len { length result ≡ len }
{
    let mut load = Image::new();
    load.push_all(piece);
    load.push_all(&[0; MOST_DATA][..len - piece.len()]);
    load
}
