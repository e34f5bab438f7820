//! What C code gets: frames, what a step did, and the terms of a session.
ghost use Rattle.std.specs.Prelude.{◌≡◌, ◌==◌, ◌≤◌, IsTrue, IsSomeAnd, None, false, drop, length, option_copied};
ghost use Rattle.c_values.specs.Told.{frame_of, ShowsDid, ShowsTerms};

use crate::numbers::flag;
use fsoe_base::{Cause, Did, Dropped, FrameBuf, Took};
use param_load::{Profile, Terms};

/// A frame: the first `len` of these bytes, none if no frame is sent.
#[repr(C)]
#[derive(Drop)]
pub struct GpFrame {
    pub len: usize,
    pub bytes: [u8; 255],
}

/// What a step did.
#[repr(C)]
#[derive(Drop)]
pub struct GpDid {
    /// The byte of the command of the frame that was taken, 0 for none.
    pub took: u8,
    /// 1 if a frame that is no Reset frame passed its CRC test.
    pub passed: u8,
    /// 1 if a frame was sent.
    pub sent: u8,
    /// Why the end went to state Reset: 0 it didn't, 1 a local reset, 2 its peer, 3 a fault.
    pub reset: u8,
    /// The code of that reset.
    pub code: u8,
    /// Why a frame was dropped: 0 none was, 1 its length, 2 it is a repeat, 3 it fails a test in state Reset.
    pub dropped: u8,
    /// The safe data of the frame that was taken are the first `load_len` bytes of `load`.
    pub load_len: u8,
    pub load: [u8; 126],
    /// 1 if a session begins with this step whose id is that of the session before it.
    pub used: u8,
}

/// What the ends of a session agreed on.
#[repr(C)]
#[derive(Drop)]
pub struct GpTerms {
    /// The connection id.
    pub conn: u16,
    /// The slave's address.
    pub address: u16,
    /// The watchdog in ticks.
    pub watchdog: u16,
    /// The profile word of profile Two, 0 in profile One.
    pub word: u16,
    /// The application parameters are the first `app_len` bytes of `app`.
    pub app_len: u16,
    /// The profile, 1 or 2.
    pub profile: u8,
    pub app: [u8; 512],
}

impl GpFrame {
    /// Has these bytes from now on. Those behind them stay.
    pub fn set(&mut self, frame: &FrameBuf)
        ensures bytes { frame_of self.new ≡ frame.now }
        ensures len { self.new.len ≤ 255 }
        ensures past { drop self.new.len self.new.bytes ≡ drop self.new.len self.old.bytes }
    {
        let len = frame.len();
        self.len = len;
        if len > 0 {
            self.bytes[..len].copy_from_slice(frame.bytes());
        }
    }
}

impl GpDid {
    ghost use Rattle.std.specs.Prelude.{take};
    ghost use Rattle.c_values.specs.Numbers.{flag, took_number, reset_number, code_number};
    ghost use Rattle.c_values.specs.Told.{took_load};

    /// Says this of the frame that was taken. The bytes behind its data stay.
    fn set_took(&mut self, took: &Option<Took>)
        ensures took { self.new.took ≡ took_number took.now }
        ensures load { take self.new.load_len self.new.load ≡ took_load took.now }
        ensures load_len { self.new.load_len ≤ 126 }
        ensures past { drop self.new.load_len self.new.load ≡ drop self.new.load_len self.old.load }
    {
        match took {
            Some(took) => {
                let len = took.load.len();
                self.took = took.command.byte();
                self.load_len = len as u8;
                self.load[..len].copy_from_slice(took.load.bytes());
            }
            None => {
                self.took = 0;
                self.load_len = 0;
            }
        }
    }

    /// Says what this step did, with which no session begins with a used id. The bytes behind the data of a frame stay.
    pub fn set(&mut self, did: &Did)
        ensures did { ShowsDid self.new did.now }
        ensures unused { self.new.used ≡ 0 }
        ensures past { drop self.new.load_len self.new.load ≡ drop self.new.load_len self.old.load }
    {
        self.set_with_id(did, false);
    }

    /// Says what this step did, and whether the session that begins with it has a used id. The bytes behind the data of
    /// a frame stay.
    pub fn set_with_id(&mut self, did: &Did, used: bool)
        ensures did { ShowsDid self.new did.now }
        ensures used { self.new.used ≡ flag used }
        ensures past { drop self.new.load_len self.new.load ≡ drop self.new.load_len self.old.load }
    {
        self.set_took(&did.took);
        self.used = flag(used);
        self.passed = flag(did.passed);
        self.sent = flag(did.sent);
        (self.reset, self.code) = match did.reset {
            None => (0, 0),
            Some(Cause::Local) => (1, 0),
            Some(Cause::Peer(code)) => (2, code.0),
            Some(Cause::Found(code)) => (3, code.0),
        };
        self.dropped = match did.dropped {
            None => 0,
            Some(Dropped::Length) => 1,
            Some(Dropped::Repeat) => 2,
            Some(Dropped::InReset) => 3,
        };
    }
}

impl GpTerms {
    /// Says what these terms are. The bytes behind the application parameters stay.
    pub fn set(&mut self, terms: &Terms)
        ensures terms { ShowsTerms self.new terms.now }
        ensures past { drop self.new.app_len self.new.app ≡ drop self.new.app_len self.old.app }
    {
        let len = terms.app.len();
        self.conn = terms.conn;
        self.address = terms.address;
        self.watchdog = terms.watchdog;
        (self.profile, self.word) = match terms.profile {
            Profile::One => (1, 0),
            Profile::Two(word) => (2, word),
        };
        self.app_len = len as u16;
        self.app[..len].copy_from_slice(terms.app.bytes());
    }
}

/// Copies these bytes to `to` if that has their number of bytes. Returns whether it has.
pub fn copied(bytes: &[u8], to: &mut [u8]) -> bool
    ensures copied { IsTrue result → to.new ≡ bytes.now }
    ensures fits { result ≡ (length to.old == length bytes.now) }
    ensures refused { result ≡ false → to.new ≡ to.old }
{
    if to.len() != bytes.len() {
        return false;
    }
    to.copy_from_slice(bytes);
    true
}

/// Writes the terms, if there are some. Returns whether there are.
pub fn tells(terms: Option<&Terms>, told: &mut GpTerms) -> bool
    ensures some { IsTrue result → IsSomeAnd (option_copied terms.entry) (ShowsTerms told.new) }
    ensures none { result ≡ false → option_copied terms.entry ≡ None }
    ensures past { drop told.new.app_len told.new.app ≡ drop told.new.app_len told.old.app }
    ensures refused { result ≡ false → told.new ≡ told.old }
{
    match terms {
        Some(terms) => {
            told.set(terms);
            true
        }
        None => false,
    }
}
