//! Arrays of a configuration: of tables, each of which is read, and of wires.
ghost use Rattle.std.specs.Prelude.{◌≡◌, ◌≢◌, ℕ, IfOk, IfErr, is_some, map, option_map, Result};
ghost use Rattle.std.specs.List.{list_all};
ghost use Rattle.toml.specs.Data.{Members, as_str, as_table};
ghost use Rattle.toml.specs.View.{view, table_view};
ghost use Rattle.plant_conf.specs.declared.fault.ConfFault.{ConfFault};
ghost use Rattle.plant_conf.specs.declared.fault.ConfFault.TheVariants as fault;
ghost use Rattle.plant_conf.specs.Forms.{values_in, wires};
ghost use Rattle.plant_conf.specs.Keys.{required};

use crate::fault::ConfFault;
use crate::forms::required;
use crate::key::Key;
use crate::words;
use fb_net::Wires;
use std::alloc::Global;
use toml::{Table, Value};

/// What is read of a table that has a number.
pub(crate) trait FromTable: Sized {
    // The type of what a table says.
    ghost Values: { Type 0 };

    // What a table says from which a value was read.
    ghost values: { Self → Values };

    // What holds of each value that is read.
    ghost Holds: { Self → Type 0 };

    // What the table with this number means, or its first fault.
    ghost says: { ℕ → Members → Result Values ConfFault };

    /// Reads the table, which is the one with this number among those of its name.
    fn read(alloc: Global, table: &Table, number: u16) -> Result<Self, ConfFault>
        ensures reads { IfOk result (λ x. says number (table_view table.now) ≡ Ok (values x)) }
        ensures holds { IfOk result (λ x. Holds x) }
        ensures refuses { IfErr result (λ e. e ≢ fault.Memory → says number (table_view table.now) ≡ Err e) };
}

/// The values of an array.
#[tactic(auto, unfolding(crate::specs::Forms::values_in), using(crate::proofs::ArrayLaws::values_of_items_of))]
pub(crate) fn values_in(value: &Value) -> Option<&[Value]>
    ensures { option_map (λ vs. map view vs.now) result ≡ values_in (view value.now) }
{
    Some(value.as_array()?.as_slice())
}

/// Whether each value is a table.
pub(crate) fn are_tables(values: &[Value]) -> bool
    ensures { result ≡ list_all (λ d. is_some (as_table d)) (map view values.now) }
{
    for value in values {
        if !value.is_table() {
            return false;
        }
    }
    true
}

/// Whether each value is a text.
fn are_texts(values: &[Value]) -> bool
    ensures { result ≡ list_all (λ d. is_some (as_str d)) (map view values.now) }
{
    for value in values {
        if !value.is_str() {
            return false;
        }
    }
    true
}

/// An array of wires, which has to be there: first each value has to be a text, and then each text a wire.
#[tactic(auto, unfolding(crate::specs::Keys::required))]
pub(crate) fn required_wires(alloc: Global, table: &Table, key: Key) -> Result<Wires, ConfFault>
    ensures reads { IfOk result (λ ws. required wires key (table_view table.now) ≡ Ok ws) }
    ensures refuses { IfErr result (λ e. e ≢ fault.Memory → required wires key (table_view table.now) ≡ Err e) }
{
    let values = values_in(required(table, key)?).ok_or(ConfFault::Kind(key))?;
    if !are_texts(values) {
        return Err(ConfFault::Kind(key));
    }
    let mut wires = Vec::new(alloc);
    for value in values {
        let text = value.as_str().ok_or(ConfFault::Kind(key))?;
        let wire = words::wire(text.as_bytes()).ok_or(ConfFault::Range(key))?;
        if wires.push(wire).is_err() {
            return Err(ConfFault::Memory);
        }
    }
    Ok(Wires::new(wires))
}
