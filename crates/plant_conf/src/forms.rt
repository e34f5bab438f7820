//! The keys of a table: each is there or not, is of a kind, and in its range or its form.
#![tactic(auto, unfolding(crate::specs::Keys::required, crate::specs::Keys::optional, crate::specs::Forms::whole_number, crate::specs::Forms::hex_bytes))]

ghost use Rattle.std.specs.Prelude.{◌≡◌, ◌≢◌, ◌≤◌, ◌-◌, ◌^◌, IsTrue, IfOk, IfErr, option_map, string_bytes, length, []};
ghost use Rattle.fsoe_base.specs.Lengths.{is_length};
ghost use Rattle.param_load.specs.AppRule.{is_acceptable};
ghost use Rattle.param_load.specs.declared.app_rule.AppRule.TheVariants as rule;
ghost use Rattle.schedule_file.specs.Fields.{value_or};
ghost use Rattle.std.specs.Result.{result_map_both};
ghost use Rattle.toml.specs.View.{view, table_view};
ghost use Rattle.plant_conf.specs.declared.fault.ConfFault.TheVariants as fault;
ghost use Rattle.plant_conf.specs.Forms.{whole_number, data_length, text, hex_bytes, rule_form, block_kind, bit_after, one_table, one_wire};
ghost use Rattle.plant_conf.specs.Keys.{value_at, required, optional};

use crate::fault::ConfFault;
use crate::key::Key;
use crate::words;
use failsafe_io::Bit;
use fb_lib::BlockKind;
use fb_net::Wire;
use fsoe_base::Lengths;
use param_load::{AppBytes, AppRule};
use std::alloc::Global;
use toml::{Table, Value};

/// The value at a key.
pub(crate) fn find<'a>(table: &'a Table, key: Key) -> Option<&'a Value>
    ensures { option_map (λ v. view v.now) result ≡ value_at key (table_view table.now) }
{
    table.get(key.word())
}

/// The value at a key that has to be there.
pub(crate) fn required(table: &Table, key: Key) -> Result<&Value, ConfFault>
    ensures { result_map_both (λ v. view v.now) (λ e. e) result ≡ value_or (fault.Missing key) (value_at key (table_view table.now)) }
{
    find(table, key).ok_or(ConfFault::Missing(key))
}

/// A table that has to be there.
pub(crate) fn required_table(table: &Table, key: Key) -> Result<&Table, ConfFault>
    ensures { result_map_both (λ t. table_view t.now) (λ e. e) result ≡ required one_table key (table_view table.now) }
{
    required(table, key)?.as_table().ok_or(ConfFault::Kind(key))
}

/// A whole number from `low` to `high`.
fn number(value: &Value, key: Key, low: u64, high: u64) -> Result<u64, ConfFault>
    ensures value { result ≡ whole_number low high key (view value.now) }
    ensures low { IfOk result (λ n. low ≤ n) }
    ensures high { IfOk result (λ n. n ≤ high) }
{
    let whole = value.as_integer().ok_or(ConfFault::Kind(key))?;
    if whole < 0 || (whole as u64) < low || high < whole as u64 {
        return Err(ConfFault::Range(key));
    }
    Ok(whole as u64)
}

/// A number of 16 bits that is at least `low`.
fn number_16(value: &Value, key: Key, low: u16) -> Result<u16, ConfFault>
    ensures value { result ≡ whole_number low 65535 key (view value.now) }
    ensures low { IfOk result (λ n. low ≤ n) }
{
    let n = number(value, key, u64::from(low), 65_535)?;
    Ok(n as u16)
}

/// A number of 16 bits that has to be there, and is at least `low`.
pub(crate) fn required_number(table: &Table, key: Key, low: u16) -> Result<u16, ConfFault>
    ensures value { result ≡ required (whole_number low 65535) key (table_view table.now) }
    ensures low { IfOk result (λ n. low ≤ n) }
{
    number_16(required(table, key)?, key, low)
}

/// A number of 16 bits that is at least `low`, or the default.
pub(crate) fn optional_number(
    table: &Table,
    key: Key,
    low: u16,
    default: u16,
) -> Result<u16, ConfFault>
    requires { low ≤ default }
    ensures value { result ≡ optional default (whole_number low 65535) key (table_view table.now) }
    ensures low { IfOk result (λ n. low ≤ n) }
{
    match find(table, key) {
        Some(value) => number_16(value, key, low),
        None => Ok(default),
    }
}

/// A seed, or 0.
pub(crate) fn optional_seed(table: &Table, key: Key) -> Result<u64, ConfFault>
    ensures { result ≡ optional 0 (whole_number 0 (2 ^ 63 - 1)) key (table_view table.now) }
{
    match find(table, key) {
        Some(value) => number(value, key, 0, i64::MAX as u64),
        None => Ok(0),
    }
}

/// A number of safe data bytes, which has to be there.
pub(crate) fn required_length(table: &Table, key: Key) -> Result<usize, ConfFault>
    ensures value { result ≡ required data_length key (table_view table.now) }
    ensures valid { IfOk result (λ l. IsTrue (is_length l)) }
{
    let whole = required(table, key)?
        .as_integer()
        .ok_or(ConfFault::Kind(key))?;
    if whole < 0 || Lengths::new(whole as usize, whole as usize).is_err() {
        return Err(ConfFault::Range(key));
    }
    Ok(whole as usize)
}

/// A text that has to be there.
pub(crate) fn required_text(alloc: Global, table: &Table, key: Key) -> Result<String, ConfFault>
    ensures reads { IfOk result (λ t. required text key (table_view table.now) ≡ Ok (string_bytes t)) }
    ensures refuses { IfErr result (λ e. e ≢ fault.Memory → required text key (table_view table.now) ≡ Err e) }
{
    let text = required(table, key)?.as_str().ok_or(ConfFault::Kind(key))?;
    match String::from_str(alloc, text) {
        Ok(text) => Ok(text),
        Err(_) => Err(ConfFault::Memory),
    }
}

/// Application parameters in hexadecimal, or none.
pub(crate) fn optional_bytes(table: &Table, key: Key) -> Result<AppBytes, ConfFault>
    ensures { result ≡ optional [] (hex_bytes 512) key (table_view table.now) }
{
    let Some(value) = find(table, key) else {
        return Ok(AppBytes::new());
    };
    let text = value.as_str().ok_or(ConfFault::Kind(key))?;
    words::hex_bytes(text.as_bytes()).ok_or(ConfFault::Range(key))
}

/// A rule for application parameters, which are these; any of their number where there is none.
pub(crate) fn optional_rule(table: &Table, key: Key, app: &AppBytes) -> Result<AppRule, ConfFault>
    ensures value { result ≡ optional (rule.Any (length app.now)) (rule_form app.now) key (table_view table.now) }
    ensures acceptable { IfOk result (λ r. IsTrue (is_acceptable r)) }
{
    let Some(value) = find(table, key) else {
        return Ok(AppRule::Any(app.len() as u16));
    };
    let text = value.as_str().ok_or(ConfFault::Kind(key))?;
    words::rule(text.as_bytes(), app).ok_or(ConfFault::Range(key))
}

/// The kind of a block, which has to be there.
pub(crate) fn required_kind(table: &Table, key: Key) -> Result<BlockKind, ConfFault>
    ensures { result ≡ required block_kind key (table_view table.now) }
{
    let text = required(table, key)?.as_str().ok_or(ConfFault::Kind(key))?;
    words::kind(text.as_bytes()).ok_or(ConfFault::Range(key))
}

/// A bit, which has to be there: one of an input after `i`, or one of an output after `o`.
pub(crate) fn required_bit(table: &Table, key: Key, letter: &[u8]) -> Result<Bit, ConfFault>
    ensures { result ≡ required (bit_after letter.now) key (table_view table.now) }
{
    let text = required(table, key)?.as_str().ok_or(ConfFault::Kind(key))?;
    words::bit(text.as_bytes(), letter).ok_or(ConfFault::Range(key))
}

/// A wire, which has to be there.
pub(crate) fn required_wire(table: &Table, key: Key) -> Result<Wire, ConfFault>
    ensures { result ≡ required one_wire key (table_view table.now) }
{
    let text = required(table, key)?.as_str().ok_or(ConfFault::Kind(key))?;
    words::wire(text.as_bytes()).ok_or(ConfFault::Range(key))
}
