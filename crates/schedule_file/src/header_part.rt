//! What the lines of a header say of one end, as far as they are read.
ghost use Rattle.std.specs.Prelude.{◌≡◌, ◌<◌, IsTrue};
ghost use Rattle.param_load.specs.AppRule.{is_acceptable};
ghost use Rattle.param_load.specs.Profile.{allows_id};
ghost use Rattle.schedule_file.specs.FieldsRead.{Becomes};
ghost use Rattle.schedule_file.specs.Event.{RuleInRange};
ghost use Rattle.schedule_file.specs.HeaderPart.{profile_for, master_begun, slave_begun, list_with, ranges_with, rule_begun, master_with_app, slave_with_bytes, slave_with_pairs};

use crate::header_line::{MasterLine, RuleLine, SlaveLine};
use crate::line_cause::LineCause;
use fsoe_base::Lengths;
use param_load::{AppBytes, AppRule, MasterSettings, Profile, SlaveSettings};
use std::marker::Model;

/// The most application bytes of a master, and the most bytes or ranges of a slave's rule.
pub const MAX_APP: usize = 512;

/// What the lines of the master say together.
#[derive(Drop)]
pub struct MasterPart {
    line: MasterLine,
    profile: Profile,
    app: AppBytes,
}

impl Model for MasterPart {
    ghost use Rattle.std.specs.Prelude.{◌<◌, IsTrue};
    ghost use Rattle.param_load.specs.Profile.{allows_id};
    ghost use Rattle.schedule_file.specs.HeaderPart.{MasterValues};

    ghost Value = { MasterValues };

    ghost view = { λ m. record { line = m.line; profile = m.profile; app = m.app } };

    ghost invariant = { λ m.
        (0 < m.line.conn) × (0 < m.line.watchdog) × IsTrue (allows_id m.profile m.line.nonce) };
}

/// What the lines of the slave say together.
#[derive(Drop)]
pub struct SlavePart {
    line: SlaveLine,
    profile: Profile,
    rule: AppRule,
}

impl Model for SlavePart {
    ghost use Rattle.std.specs.Prelude.{◌<◌, IsTrue};
    ghost use Rattle.param_load.specs.AppRule.{is_acceptable};
    ghost use Rattle.param_load.specs.Profile.{allows_id};
    ghost use Rattle.schedule_file.specs.HeaderPart.{SlaveValues};

    ghost Value = { SlaveValues };

    ghost view = { λ s. record { line = s.line; profile = s.profile; rule = s.rule } };

    ghost invariant = { λ s.
        (0 < s.line.hand) × (0 < s.line.most) × IsTrue (allows_id s.profile s.line.nonce)
        × IsTrue (is_acceptable s.rule) };
}

/// The profile of an end before its `profile` line: One, or Two, with a word to come, where One does not
/// allow the nonce.
fn profile_for(nonce: u32) -> Profile
    ensures value { result ≡ profile_for nonce }
    ensures allowed { IsTrue (allows_id result nonce) }
{
    if Profile::One.allows_id(nonce) {
        Profile::One
    } else {
        Profile::Two(0)
    }
}

/// Appends the bytes of a line to a list of at most `MAX_APP`. `Range` where there are more in all.
fn append(list: &mut AppBytes, bytes: &[u8]) -> Result<(), LineCause>
    ensures { Becomes result list.new (list_with list.old bytes.now) }
{
    if bytes.len() > MAX_APP - list.len() {
        return Err(LineCause::Range);
    }
    for b in bytes {
        list.push(*b);
    }
    Ok(())
}

impl MasterPart {
    ghost use Rattle.param_load.specs.MasterSettings.{IsMasterSetTo};

    /// The values of a `master` line.
    pub fn of(line: MasterLine) -> MasterPart
        requires conn { 0 < line.conn }
        requires watchdog { 0 < line.watchdog }
        ensures { result ≡ master_begun line }
    {
        MasterPart {
            profile: profile_for(line.nonce),
            line,
            app: AppBytes::new(),
        }
    }

    /// The profile.
    pub fn profile(&self) -> Profile
        ensures { result ≡ self.now.profile }
    {
        self.profile
    }

    /// The word of a `profile` line.
    pub fn set_profile(&mut self, word: u16)
        ensures { self.new ≡ record self.old { profile = Profile.Two word } }
    {
        self.profile = Profile::Two(word);
    }

    /// The bytes of an `app` line.
    pub fn append(&mut self, bytes: &[u8]) -> Result<(), LineCause>
        ensures { Becomes result self.new (master_with_app self.old bytes.now) }
    {
        append(&mut self.app, bytes)
    }

    /// The settings of a master with these values.
    pub fn settings(&self, lengths: Lengths) -> MasterSettings
        ensures { let line = self.now.line in
            IsMasterSetTo result lengths line.conn line.address line.watchdog
            self.now.app line.nonce self.now.profile }
    {
        let MasterLine {
            conn,
            address,
            watchdog,
            nonce,
        } = self.line;
        let app = self.app.copy();
        let made = match self.profile {
            Profile::One => MasterSettings::new(
                lengths,
                conn,
                address,
                watchdog,
                app,
                nonce as u16,
            ),
            Profile::Two(word) => {
                MasterSettings::two(lengths, conn, address, watchdog, app, nonce, word)
            }
        };
        made.unwrap()
    }
}

/// Appends the pairs of a line, each a lowest and a highest value, to their lists. `Range` where the number
/// of bytes is odd, a low is above its high, or there are more than `MAX_APP` pairs in all.
fn append_pairs(low: &mut AppBytes, high: &mut AppBytes, pairs: &[u8]) -> Result<(), LineCause>
    requires { IsTrue (is_acceptable (AppRule.Ranges low.old high.old)) }
    ensures value { Becomes result (AppRule.Ranges low.new high.new) (ranges_with low.old high.old pairs.now) }
    ensures acceptable { IsTrue (is_acceptable (AppRule.Ranges low.new high.new)) }
{
    let count = pairs.len() / 2;
    if !pairs.len().is_multiple_of(2) || count > MAX_APP - low.len() {
        return Err(LineCause::Range);
    }
    for k in 0..count {
        let lowest = pairs[2 * k];
        let highest = pairs[2 * k + 1];
        if lowest > highest {
            return Err(LineCause::Range);
        }
        low.push(lowest);
        high.push(highest);
    }
    Ok(())
}

impl SlavePart {
    ghost use Rattle.param_load.specs.SlaveSettings.{IsSlaveSetTo};

    /// The values of a `slave` line.
    pub fn of(line: SlaveLine) -> SlavePart
        requires hand { 0 < line.hand }
        requires most { 0 < line.most }
        ensures { result ≡ slave_begun line }
    {
        SlavePart {
            profile: profile_for(line.nonce),
            line,
            rule: AppRule::Any(0),
        }
    }

    /// The profile.
    pub fn profile(&self) -> Profile
        ensures { result ≡ self.now.profile }
    {
        self.profile
    }

    /// The word of a `profile` line.
    pub fn set_profile(&mut self, word: u16)
        ensures { self.new ≡ record self.old { profile = Profile.Two word } }
    {
        self.profile = Profile::Two(word);
    }

    /// The rule of a `rule` line.
    pub fn set_rule(&mut self, line: RuleLine)
        requires { RuleInRange line }
        ensures { self.new ≡ record self.old { rule = rule_begun line } }
    {
        self.rule = match line {
            RuleLine::Any(n) => AppRule::Any(n),
            RuleLine::Exact => AppRule::Exact(AppBytes::new()),
            RuleLine::Ranges => AppRule::Ranges(AppBytes::new(), AppBytes::new()),
        };
    }

    /// The bytes of a `bytes` line.
    pub fn append(&mut self, bytes: &[u8]) -> Result<(), LineCause>
        ensures { Becomes result self.new (slave_with_bytes self.old bytes.now) }
    {
        match &mut self.rule {
            AppRule::Exact(want) => append(want, bytes),
            _ => Err(LineCause::Header),
        }
    }

    /// The pairs of a `range` line.
    pub fn append_pairs(&mut self, pairs: &[u8]) -> Result<(), LineCause>
        ensures { Becomes result self.new (slave_with_pairs self.old pairs.now) }
    {
        match &mut self.rule {
            AppRule::Ranges(low, high) => append_pairs(low, high, pairs),
            _ => Err(LineCause::Header),
        }
    }

    /// The settings of a slave with these values.
    pub fn settings(&self, lengths: Lengths) -> SlaveSettings
        ensures { let line = self.now.line in
            IsSlaveSetTo result lengths line.address line.hand line.most
            self.now.rule line.nonce self.now.profile }
    {
        let SlaveLine {
            address,
            hand,
            most,
            nonce,
        } = self.line;
        let rule = self.rule.copy();
        let made = match self.profile {
            Profile::One => SlaveSettings::new(lengths, address, hand, most, rule, nonce as u16),
            Profile::Two(word) => SlaveSettings::two(
                lengths, address, hand, most, rule, nonce, word,
            ),
        };
        made.unwrap()
    }
}
