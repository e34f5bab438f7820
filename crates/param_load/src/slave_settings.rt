//! What a slave is set to.
ghost use Rattle.std.specs.Prelude.{◌≡◌, ◌<◌, ◌==◌, false, IsTrue, IsOk, IfOk, if◌then◌else◌};
ghost use Rattle.param_load.specs.AppRule.{is_acceptable};
ghost use Rattle.param_load.specs.Profile.{allows_id};

use crate::app_rule::AppRule;
use crate::bad_setting::BadSetting;
use crate::profile::Profile;
use fsoe_base::{End, Lengths, MOST_DATA};

/// The settings of a slave. The limits `hand` and `most` aren't 0, the rule is acceptable, and the profile allows the
/// session id.
#[derive(Drop)]
pub struct SlaveSettings {
    lengths: Lengths,
    address: u16,
    hand: u16,
    most: u16,
    rule: AppRule,
    nonce: u32,
    profile: Profile,
    pub ghost some_hand: { 0 < hand },
    pub ghost some_most: { 0 < most },
    pub ghost acceptable: { IsTrue (is_acceptable rule) },
    pub ghost allowed: { IsTrue (allows_id profile nonce) },
}

impl SlaveSettings {
    ghost use Rattle.std.specs.Prelude.{◌≡◌, ◌≤◌, IsTrue, min};
    ghost use Rattle.fsoe_base.specs.Lengths.{is_length};
    ghost use Rattle.param_load.specs.declared.profile.Profile.TheVariants as profile;
    ghost use Rattle.param_load.specs.SlaveSettings.{IsSlaveSetTo};

    /// Creates settings of profile One: the lengths, the slave's address, the handshake timeout in ticks, the longest
    /// watchdog that it accepts, the rule for application parameters, and the session id. The first refusal counts:
    /// `Hand` if `hand` is 0, `Most` if `most` is 0, `Rule` if the rule isn't acceptable.
    pub fn new(
        lengths: Lengths,
        address: u16,
        hand: u16,
        most: u16,
        rule: AppRule,
        nonce: u16,
    ) -> Result<SlaveSettings, BadSetting>
        ensures bad_hand { hand ≡ 0 → result ≡ Err BadSetting.Hand }
        ensures bad_most { 0 < hand → most ≡ 0 → result ≡ Err BadSetting.Most }
        ensures bad_rule { 0 < hand → 0 < most → is_acceptable rule ≡ false → result ≡ Err BadSetting.Rule }
        ensures good { 0 < hand → 0 < most → IsTrue (is_acceptable rule) → IsOk result }
        ensures settings { IfOk result (λ s. IsSlaveSetTo s lengths address hand most rule nonce profile.One) }
    {
        fault(hand, most, &rule)?;
        Ok(SlaveSettings {
            lengths,
            address,
            hand,
            most,
            rule,
            nonce: u32::from(nonce),
            profile: Profile::One,
        })
    }

    /// Creates settings of profile Two with this profile word, with the same refusals as `new`.
    pub fn two(
        lengths: Lengths,
        address: u16,
        hand: u16,
        most: u16,
        rule: AppRule,
        nonce: u32,
        word: u16,
    ) -> Result<SlaveSettings, BadSetting>
        ensures bad_hand { hand ≡ 0 → result ≡ Err BadSetting.Hand }
        ensures bad_most { 0 < hand → most ≡ 0 → result ≡ Err BadSetting.Most }
        ensures bad_rule { 0 < hand → 0 < most → is_acceptable rule ≡ false → result ≡ Err BadSetting.Rule }
        ensures good { 0 < hand → 0 < most → IsTrue (is_acceptable rule) → IsOk result }
        ensures settings { IfOk result (λ s. IsSlaveSetTo s lengths address hand most rule nonce (profile.Two word)) }
    {
        fault(hand, most, &rule)?;
        Ok(SlaveSettings {
            lengths,
            address,
            hand,
            most,
            rule,
            nonce,
            profile: Profile::Two(word),
        })
    }

    /// The numbers of safe data bytes of both ends.
    pub fn lengths(&self) -> &Lengths
        ensures { result.now ≡ self.now.lengths }
    {
        &self.lengths
    }

    /// The number of safe data bytes of the slave's frames.
    pub fn own_len(&self) -> usize
        ensures value { result ≡ self.now.lengths.slave }
        ensures valid { IsTrue (is_length result) }
        ensures most { result ≤ MOST_DATA }
    {
        self.lengths.of(End::Slave)
    }

    /// The number of safe data bytes of the master's frames.
    pub fn peer_len(&self) -> usize
        ensures value { result ≡ self.now.lengths.master }
        ensures valid { IsTrue (is_length result) }
        ensures most { result ≤ MOST_DATA }
    {
        self.lengths.of(End::Master)
    }

    /// The most bytes of a payload that one frame carries.
    pub fn piece_len(&self) -> usize
        ensures value { result ≡ min self.now.lengths.master self.now.lengths.slave }
        ensures own { result ≤ self.now.lengths.slave }
        ensures peer { result ≤ self.now.lengths.master }
        ensures most { result ≤ MOST_DATA }
    {
        self.lengths.piece()
    }

    /// The slave's address.
    pub fn address(&self) -> u16
        ensures { result ≡ self.now.address }
    {
        self.address
    }

    /// Returns the handshake timeout in ticks. It applies until the slave knows the master's watchdog.
    pub fn hand(&self) -> u16
        ensures value { result ≡ self.now.hand }
        ensures some { 0 < result }
    {
        self.hand
    }

    /// The longest watchdog that is accepted, in ticks.
    pub fn most(&self) -> u16
        ensures value { result ≡ self.now.most }
        ensures some { 0 < result }
    {
        self.most
    }

    /// The rule for application parameters.
    pub fn rule(&self) -> &AppRule
        ensures value { result.now ≡ self.now.rule }
        ensures acceptable { IsTrue (is_acceptable result.now) }
    {
        &self.rule
    }

    /// The session id of the sessions that begin before another one is set.
    pub fn nonce(&self) -> u32
        ensures value { result ≡ self.now.nonce }
        ensures allowed { IsTrue (allows_id self.now.profile result) }
    {
        self.nonce
    }

    /// The profile of parameters.
    pub fn profile(&self) -> Profile
        ensures { result ≡ self.now.profile }
    {
        self.profile
    }

    /// Returns a copy of the settings. Doesn't allocate.
    pub fn copy(&self) -> SlaveSettings
        ensures { result ≡ self.now }
    {
        SlaveSettings {
            lengths: self.lengths,
            address: self.address,
            hand: self.hand,
            most: self.most,
            rule: self.rule.copy(),
            nonce: self.nonce,
            profile: self.profile,
        }
    }
}

/// The first of these settings that is bad.
fn fault(hand: u16, most: u16, rule: &AppRule) -> Result<(), BadSetting>
    ensures { result ≡ (if hand == 0 then Err BadSetting.Hand else if most == 0 then Err BadSetting.Most
        else if is_acceptable rule.now then Ok tt else Err BadSetting.Rule) }
{
    if hand == 0 {
        return Err(BadSetting::Hand);
    }
    if most == 0 {
        return Err(BadSetting::Most);
    }
    if !rule.is_acceptable() {
        return Err(BadSetting::Rule);
    }
    Ok(())
}
