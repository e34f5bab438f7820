//! The settings that C code gives to an end.
ghost use Rattle.std.specs.Prelude.{◌≡◌, ◌≤◌, ◌<◌, ◌==◌, ◌&&◌, Some, None, is_some, length, IfOk, IfErr, IfSome};
ghost use Rattle.fsoe_base.specs.Lengths.{is_length};
ghost use Rattle.c_values.specs.Settings.{HasLengths, IsMasterSetBy, IsSlaveSetBy, master_refusal, slave_refusal};

use crate::numbers::{BAD_LENGTH, BAD_NONCE, BAD_PROFILE, bad_number};
use fsoe_base::Lengths;
use param_load::{AppBytes, AppRule, MasterSettings, SlaveSettings};

/// The settings of a slave, except its rule for application parameters.
#[repr(C)]
#[derive(Drop)]
pub struct GpSlaveSettings {
    /// The number of safe data bytes of the master's frames.
    pub master_len: u16,
    /// The number of safe data bytes of the slave's frames.
    pub slave_len: u16,
    /// The slave's address.
    pub address: u16,
    /// The handshake timeout in ticks.
    pub hand: u16,
    /// The longest watchdog that is accepted, in ticks.
    pub most: u16,
    /// The profile, 1 or 2.
    pub profile: u16,
    /// The session id of the sessions that begin before another one is set.
    pub nonce: u32,
    /// The profile word of profile Two. Profile One has none.
    pub word: u16,
}

/// The settings of a master, except the application parameters.
#[repr(C)]
#[derive(Drop)]
pub struct GpMasterSettings {
    /// The number of safe data bytes of the master's frames.
    pub master_len: u16,
    /// The number of safe data bytes of the slave's frames.
    pub slave_len: u16,
    /// The connection id.
    pub conn: u16,
    /// The slave's address.
    pub address: u16,
    /// The watchdog in ticks.
    pub watchdog: u16,
    /// The profile, 1 or 2.
    pub profile: u16,
    /// The session id of the sessions that begin before another one is set.
    pub nonce: u32,
    /// The profile word of profile Two. Profile One has none.
    pub word: u16,
}

/// The most bytes of application parameters.
const MOST_APPLICATION: usize = 512;

/// These application parameters, unless they are more than 512 bytes.
pub fn app_of(bytes: &[u8]) -> Option<AppBytes>
    ensures some { length bytes.now ≤ MOST_APPLICATION → result ≡ Some bytes.now }
    ensures bytes { IfSome result (λ app. app ≡ bytes.now) }
    ensures none { MOST_APPLICATION < length bytes.now → result ≡ None }
{
    if bytes.len() > MOST_APPLICATION {
        return None;
    }
    let mut app = AppBytes::new();
    app.push_all(bytes);
    Some(app)
}

/// The lengths, where both are valid.
fn lengths_of(master_len: u16, slave_len: u16) -> Option<Lengths>
    ensures valid { is_some result ≡ (is_length master_len && is_length slave_len) }
    ensures lengths { IfSome result (HasLengths master_len slave_len) }
{
    Lengths::new(usize::from(master_len), usize::from(slave_len)).ok()
}

/// The settings of a slave, or the number of their first fault.
pub fn slave_settings(set: &GpSlaveSettings, rule: AppRule) -> Result<SlaveSettings, u8>
    ensures settings { IfOk result (IsSlaveSetBy set.now rule) }
    ensures good { IfOk result (λ _. slave_refusal set.now rule ≡ 0) }
    ensures refused { IfErr result (λ number. slave_refusal set.now rule ≡ number) }
    ensures named { IfErr result (λ number. 0 < number) }
{
    let Some(lengths) = lengths_of(set.master_len, set.slave_len) else {
        return Err(BAD_LENGTH);
    };
    let made = match set.profile {
        1 => match u16::try_from(set.nonce) {
            Ok(nonce) => SlaveSettings::new(lengths, set.address, set.hand, set.most, rule, nonce),
            Err(_) => return Err(BAD_NONCE),
        },
        2 => SlaveSettings::two(
            lengths,
            set.address,
            set.hand,
            set.most,
            rule,
            set.nonce,
            set.word,
        ),
        _ => return Err(BAD_PROFILE),
    };
    made.map_err(bad_number)
}

/// The settings of a master, or the number of their first fault.
pub fn master_settings(set: &GpMasterSettings, app: AppBytes) -> Result<MasterSettings, u8>
    ensures settings { IfOk result (IsMasterSetBy set.now app) }
    ensures good { IfOk result (λ _. master_refusal set.now ≡ 0) }
    ensures refused { IfErr result (λ number. master_refusal set.now ≡ number) }
    ensures named { IfErr result (λ number. 0 < number) }
{
    let Some(lengths) = lengths_of(set.master_len, set.slave_len) else {
        return Err(BAD_LENGTH);
    };
    let made = match set.profile {
        1 => match u16::try_from(set.nonce) {
            Ok(nonce) => MasterSettings::new(
                lengths,
                set.conn,
                set.address,
                set.watchdog,
                app,
                nonce,
            ),
            Err(_) => return Err(BAD_NONCE),
        },
        2 => MasterSettings::two(
            lengths,
            set.conn,
            set.address,
            set.watchdog,
            app,
            set.nonce,
            set.word,
        ),
        _ => return Err(BAD_PROFILE),
    };
    made.map_err(bad_number)
}
