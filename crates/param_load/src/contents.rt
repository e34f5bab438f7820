//! What an upload is expected to bring, and the tests of the contents of its frames.
ghost use Rattle.std.specs.Prelude.{◌≡◌, ◌≤◌, ◌<◌, ◌+◌, length, nat_le, nat_lt, ◌&&◌, IsTrue};
ghost use Rattle.param_load.specs.Contents.{expected_len, app_part, word_is, connection_fault, communication_fault, field_fault, contents_fault};
ghost use Rattle.param_load.specs.Upload.{is_expectable};
ghost use Rattle.param_load.specs.Profile.{id_len};

use crate::app_rule::AppRule;
use crate::joined::{Joined, number_at, past};
use crate::profile::Profile;
use fsoe_base::{Code, is_all_zero};

/// What an upload is expected to bring, with what its fields are compared with.
#[derive(Drop)]
pub(crate) enum Expected {
    /// A session id of this profile.
    Session(Profile),
    /// This connection id and this slave address.
    Connection {
        conn: u16,
        address: u16,
    },
    /// A watchdog of 1 to `most` ticks, the profile word, and `count` bytes of application parameters.
    Parameter {
        most: u16,
        count: usize,
        profile: Profile,
    },
}

/// Whether the byte at this place came with the frame before which `before` bytes were joined.
fn comes(joined: &Joined, before: usize, last: usize) -> bool
    ensures { result ≡ (nat_le before last && nat_lt last (length joined.now)) }
{
    before <= last && last < joined.len()
}

fn word_is(profile: Profile, joined: &Joined) -> bool
    requires { id_len profile + 1 < length joined.now }
    ensures { result ≡ word_is profile joined.now }
{
    match profile {
        Profile::One => true,
        Profile::Two(word) => number_at(joined.bytes(), 4) == word,
    }
}

fn connection_fault(conn: u16, address: u16, joined: &Joined, before: usize) -> Option<Code>
    ensures { result ≡ connection_fault conn address before joined.now }
{
    if comes(joined, before, 1) && number_at(joined.bytes(), 0) != conn {
        return Some(Code::WRONG_CONNECTION);
    }
    if comes(joined, before, 3) && number_at(joined.bytes(), 2) != address {
        return Some(Code::WRONG_ADDRESS);
    }
    None
}

fn communication_fault(
    most: u16,
    count: usize,
    profile: Profile,
    joined: &Joined,
    before: usize,
) -> Option<Code>
    ensures { result ≡ communication_fault most count profile before joined.now }
{
    let id_len = profile.id_len();
    if comes(joined, before, 1) && usize::from(number_at(joined.bytes(), 0)) != id_len {
        return Some(Code::WRONG_COMMUNICATION_LENGTH);
    }
    if comes(joined, before, 3) && !(1..=most).contains(&number_at(joined.bytes(), 2)) {
        return Some(Code::WRONG_COMMUNICATION);
    }
    if comes(joined, before, id_len + 1) && !word_is(profile, joined) {
        return Some(Code::WRONG_COMMUNICATION);
    }
    if comes(joined, before, id_len + 3)
        && usize::from(number_at(joined.bytes(), id_len + 2)) != count
    {
        return Some(Code::WRONG_APPLICATION_LENGTH);
    }
    None
}

impl Expected {
    /// The number of bytes of the whole payload.
    pub(crate) fn len(&self) -> usize
        requires { IsTrue (is_expectable self.now) }
        ensures value { result ≡ expected_len self.now }
        ensures most { result ≤ 520 }
    {
        match self {
            Expected::Session(profile) => profile.id_len(),
            Expected::Connection { .. } => 4,
            Expected::Parameter { count, profile, .. } => profile.id_len() + 4 + count,
        }
    }

    /// The application parameters among the joined bytes of a whole payload.
    pub(crate) fn app_part<'a>(&self, joined: &'a Joined) -> &'a [u8]
        requires expectable { IsTrue (is_expectable self.now) }
        requires whole { expected_len self.now ≤ length joined.now }
        ensures value { result.now ≡ app_part self.now joined.now }
        ensures most { length result.now ≤ 512 }
    {
        match self {
            Expected::Parameter { count, profile, .. } => {
                let from = profile.id_len() + 4;
                &joined.bytes()[from..from + *count]
            }
            _ => &[],
        }
    }

    /// The code of the first field that comes with a frame and fails its test.
    fn field_fault(&self, rule: &AppRule, joined: &Joined, before: usize) -> Option<Code>
        requires { IsTrue (is_expectable self.now) }
        ensures { result ≡ field_fault self.now rule.now before joined.now }
    {
        match self {
            Expected::Session(_) => None,
            Expected::Connection { conn, address } => {
                connection_fault(*conn, *address, joined, before)
            }
            Expected::Parameter {
                most,
                count,
                profile,
            } => {
                if let Some(code) = communication_fault(*most, *count, *profile, joined, before) {
                    return Some(code);
                }
                let last = profile.id_len() + 3 + count;
                if comes(joined, before, last) && !rule.allows(self.app_part(joined)) {
                    return Some(Code::WRONG_APPLICATION);
                }
                None
            }
        }
    }

    /// Returns the code of the first test of a frame's contents that fails. The fields that end in this frame are
    /// tested first, then the padding: the joined bytes past the payload's end and the rest of the frame's data.
    pub(crate) fn contents_fault(
        &self,
        rule: &AppRule,
        joined: &Joined,
        before: usize,
        rest: &[u8],
    ) -> Option<Code>
        requires { IsTrue (is_expectable self.now) }
        ensures { result ≡ contents_fault self.now rule.now before joined.now rest.now }
    {
        if let Some(code) = self.field_fault(rule, joined, before) {
            return Some(code);
        }
        let is_padded = is_all_zero(past(joined.bytes(), self.len())) && is_all_zero(rest);
        if is_padded {
            None
        } else {
            Some(Code::WRONG_DATA)
        }
    }
}
