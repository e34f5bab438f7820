//! The numbers that C code gets. `embed/gatepast.h` has them as `GP_OK` and so on.
ghost use Rattle.std.specs.Prelude.{◌≡◌};
ghost use Rattle.param_load.specs.declared.bad_setting.BadSetting.TheVariants as bad;
ghost use Rattle.c_values.specs.Numbers.{state_number, flag};

use fsoe_base::State;
use param_load::BadSetting;

/// The call was done.
pub const OK: u8 = 0;

/// No end is behind the handle.
pub const NO_END: u8 = 1;

/// An end is behind the handle already.
pub const BUSY: u8 = 2;

/// A number of safe data bytes isn't valid, or isn't that of this end.
pub const BAD_LENGTH: u8 = 3;

/// The profile is neither 1 nor 2.
pub const BAD_PROFILE: u8 = 4;

/// The profile doesn't allow the session id.
pub const BAD_NONCE: u8 = 5;

/// The connection id is 0.
pub const BAD_CONN: u8 = 6;

/// The watchdog is 0.
pub const BAD_WATCHDOG: u8 = 7;

/// The handshake timeout is 0.
pub const BAD_HAND: u8 = 8;

/// The longest watchdog that is accepted is 0.
pub const BAD_MOST: u8 = 9;

/// The application parameters are more than 512 bytes, or the ranges of the rule don't match.
pub const BAD_APP: u8 = 10;

/// A frame is due, and only `reply` may follow.
pub const FRAME_DUE: u8 = 11;

/// No frame is due.
pub const NONE_DUE: u8 = 12;

/// The end isn't in state Data.
pub const NOT_IN_DATA: u8 = 13;

/// The handle has no memory.
pub const NO_ROOM: u8 = 14;

/// The number of why settings are refused.
pub fn bad_number(why: BadSetting) -> u8
    ensures conn { why ≡ bad.Conn → result ≡ BAD_CONN }
    ensures watchdog { why ≡ bad.Watchdog → result ≡ BAD_WATCHDOG }
    ensures hand { why ≡ bad.Hand → result ≡ BAD_HAND }
    ensures most { why ≡ bad.Most → result ≡ BAD_MOST }
    ensures rule { why ≡ bad.Rule → result ≡ BAD_APP }
{
    match why {
        BadSetting::Conn => BAD_CONN,
        BadSetting::Watchdog => BAD_WATCHDOG,
        BadSetting::Hand => BAD_HAND,
        BadSetting::Most => BAD_MOST,
        BadSetting::Rule => BAD_APP,
    }
}

/// The number of a state.
pub fn state_number(state: State) -> u8
    ensures { result ≡ state_number state }
{
    match state {
        State::Reset => 0,
        State::Session => 1,
        State::Connection => 2,
        State::Parameter => 3,
        State::Data => 4,
    }
}

/// 1 for yes, 0 for no.
pub fn flag(yes: bool) -> u8
    ensures { result ≡ flag yes }
{
    u8::from(yes)
}
