//! What a master is set to.
ghost use Rattle.std.specs.Prelude.{◌≡◌, ◌<◌, ◌==◌, IsTrue, IsOk, IfOk, if◌then◌else◌};
ghost use Rattle.param_load.specs.Profile.{allows_id};

use crate::app_rule::AppBytes;
use crate::bad_setting::BadSetting;
use crate::profile::Profile;
use crate::terms::Terms;
use fsoe_base::{End, Lengths, MOST_DATA};

/// The settings of a master. The connection id and the watchdog aren't 0, and the profile allows the session id.
#[derive(Drop)]
pub struct MasterSettings {
    lengths: Lengths,
    conn: u16,
    address: u16,
    watchdog: u16,
    app: AppBytes,
    nonce: u32,
    profile: Profile,
    pub ghost some_conn: { 0 < conn },
    pub ghost some_watchdog: { 0 < watchdog },
    pub ghost allowed: { IsTrue (allows_id profile nonce) },
}

impl MasterSettings {
    ghost use Rattle.std.specs.Prelude.{◌≡◌, ◌≤◌, IsTrue, min};
    ghost use Rattle.fsoe_base.specs.Lengths.{is_length};
    ghost use Rattle.param_load.specs.declared.profile.Profile.TheVariants as profile;
    ghost use Rattle.param_load.specs.MasterSettings.{IsMasterSetTo};
    ghost use Rattle.param_load.specs.Download.{terms_of};

    /// Creates settings of profile One: the lengths, the connection id, the slave's address, the watchdog in ticks, the
    /// application parameters, and the session id. Refused with `Conn` if the connection id is 0, else with `Watchdog`
    /// if the watchdog is 0.
    pub fn new(
        lengths: Lengths,
        conn: u16,
        address: u16,
        watchdog: u16,
        app: AppBytes,
        nonce: u16,
    ) -> Result<MasterSettings, BadSetting>
        ensures bad_conn { conn ≡ 0 → result ≡ Err BadSetting.Conn }
        ensures bad_watchdog { 0 < conn → watchdog ≡ 0 → result ≡ Err BadSetting.Watchdog }
        ensures good { 0 < conn → 0 < watchdog → IsOk result }
        ensures settings { IfOk result (λ s. IsMasterSetTo s lengths conn address watchdog app nonce profile.One) }
    {
        fault(conn, watchdog)?;
        Ok(MasterSettings {
            lengths,
            conn,
            address,
            watchdog,
            app,
            nonce: u32::from(nonce),
            profile: Profile::One,
        })
    }

    /// Creates settings of profile Two with this profile word, with the same refusals as `new`.
    pub fn two(
        lengths: Lengths,
        conn: u16,
        address: u16,
        watchdog: u16,
        app: AppBytes,
        nonce: u32,
        word: u16,
    ) -> Result<MasterSettings, BadSetting>
        ensures bad_conn { conn ≡ 0 → result ≡ Err BadSetting.Conn }
        ensures bad_watchdog { 0 < conn → watchdog ≡ 0 → result ≡ Err BadSetting.Watchdog }
        ensures good { 0 < conn → 0 < watchdog → IsOk result }
        ensures settings { IfOk result (λ s. IsMasterSetTo s lengths conn address watchdog app nonce (profile.Two word)) }
    {
        fault(conn, watchdog)?;
        Ok(MasterSettings {
            lengths,
            conn,
            address,
            watchdog,
            app,
            nonce,
            profile: Profile::Two(word),
        })
    }

    /// The numbers of safe data bytes of both ends.
    pub fn lengths(&self) -> &Lengths
        ensures { result.now ≡ self.now.lengths }
    {
        &self.lengths
    }

    /// The number of safe data bytes of the master's frames.
    pub fn own_len(&self) -> usize
        ensures value { result ≡ self.now.lengths.master }
        ensures valid { IsTrue (is_length result) }
        ensures most { result ≤ MOST_DATA }
    {
        self.lengths.of(End::Master)
    }

    /// The number of safe data bytes of the slave's frames.
    pub fn peer_len(&self) -> usize
        ensures value { result ≡ self.now.lengths.slave }
        ensures valid { IsTrue (is_length result) }
        ensures most { result ≤ MOST_DATA }
    {
        self.lengths.of(End::Slave)
    }

    /// The most bytes of a payload that one frame carries.
    pub fn piece_len(&self) -> usize
        ensures value { result ≡ min self.now.lengths.master self.now.lengths.slave }
        ensures own { result ≤ self.now.lengths.master }
        ensures peer { result ≤ self.now.lengths.slave }
        ensures most { result ≤ MOST_DATA }
    {
        self.lengths.piece()
    }

    /// The connection id.
    pub fn conn(&self) -> u16
        ensures value { result ≡ self.now.conn }
        ensures some { 0 < result }
    {
        self.conn
    }

    /// The address of the slave.
    pub fn address(&self) -> u16
        ensures { result ≡ self.now.address }
    {
        self.address
    }

    /// The watchdog in ticks.
    pub fn watchdog(&self) -> u16
        ensures value { result ≡ self.now.watchdog }
        ensures some { 0 < result }
    {
        self.watchdog
    }

    /// The application parameters.
    pub fn app(&self) -> &AppBytes
        ensures { result.now ≡ self.now.app }
    {
        &self.app
    }

    /// The session id of the sessions that begin before another one is set.
    pub fn nonce(&self) -> u32
        ensures value { result ≡ self.now.nonce }
        ensures allowed { IsTrue (allows_id self.now.profile result) }
    {
        self.nonce
    }

    /// The profile of parameters.
    pub fn profile(&self) -> Profile
        ensures { result ≡ self.now.profile }
    {
        self.profile
    }

    /// Returns the terms of a connection with these settings. Doesn't allocate.
    pub fn terms(&self) -> Terms
        ensures { result ≡ terms_of self.now }
    {
        Terms {
            conn: self.conn,
            address: self.address,
            watchdog: self.watchdog,
            app: self.app.copy(),
            profile: self.profile,
        }
    }

    /// Returns a copy of the settings. Doesn't allocate.
    pub fn copy(&self) -> MasterSettings
        ensures { result ≡ self.now }
    {
        MasterSettings {
            lengths: self.lengths,
            conn: self.conn,
            address: self.address,
            watchdog: self.watchdog,
            app: self.app.copy(),
            nonce: self.nonce,
            profile: self.profile,
        }
    }
}

/// The first of the numbers that may not be 0 and is.
fn fault(conn: u16, watchdog: u16) -> Result<(), BadSetting>
    ensures { result ≡ (if conn == 0 then Err BadSetting.Conn else if watchdog == 0 then Err BadSetting.Watchdog else Ok tt) }
{
    if conn == 0 {
        return Err(BadSetting::Conn);
    }
    if watchdog == 0 {
        return Err(BadSetting::Watchdog);
    }
    Ok(())
}
