//! The fields of a line, and what one field says.
ghost use Rattle.std.specs.Prelude.{◌≡◌, ◌≤◌, ◌<◌, ◌∷◌, map, length, IfSome, IfOk, OnOk, OnErr};
ghost use Rattle.memchr.specs.Find.{IsFirstByte, is_byte};
ghost use Rattle.schedule_file.specs.Fields.{value_or, next_field, no_field, one_field, number_16, number_32, one_hex_field};
ghost use Rattle.schedule_file.specs.FieldsRead.{not_hex, IsField, AreFields, Becomes, fields_after};
ghost use Rattle.schedule_file.specs.Field.{fields_of, word_in, number_said, bytes_said};
ghost use Rattle.schedule_file.specs.declared.line_cause.LineCause.TheVariants as cause;

use crate::hex_digits::read_hex;
use crate::line_cause::LineCause;
use fsoe_base::ByteList;
use std::marker::Model;

/// Where the first space stands. Fields that are cut are short, so it's sought byte by byte.
fn space(text: &[u8]) -> Option<usize>
    ensures { IsFirstByte (is_byte 32) text.now result }
{
    for at in 0..text.len() {
        if text[at] == b' ' {
            return Some(at);
        }
    }
    None
}

/// The first field, and what follows the space after it.
pub fn cut(text: &[u8]) -> (&[u8], Option<&[u8]>)
    ensures { fields_of text.now ≡ result.0.now ∷ fields_after result.1 }
{
    match space(text) {
        Some(at) => (&text[..at], Some(&text[at + 1..])),
        None => (text, None),
    }
}

/// The number that a text says, in digits with no sign and no leading zero, where it is at most `most`.
pub fn read_number(text: &[u8], most: u64) -> Option<u64>
    ensures value { result ≡ number_said most text.now }
    ensures most { IfSome result (λ n. n ≤ most) }
{
    if text.is_empty() || (text.len() > 1 && text[0] == b'0') {
        return None;
    }
    let mut value = 0u128;
    for digit in text {
        if !digit.is_ascii_digit() {
            return None;
        }
        value = value * 10 + u128::from(*digit - b'0');
        if value > u128::from(most) {
            return None;
        }
    }
    Some(value as u64)
}

/// The most bytes of a hexadecimal field in a header.
pub const MAX_HEX: usize = 256;

/// The bytes of a hexadecimal field, from one to `MAX_HEX`.
#[derive(Drop)]
pub struct HexBytes {
    bytes: [u8; MAX_HEX],
    len: usize,
}

impl Model for HexBytes {
    ghost use Rattle.std.specs.Prelude.{◌≤◌, List, ℕ, take};
    ghost use Rattle.schedule_file.specs.declared.field.TheConstants.{MAX_HEX};

    ghost Value = { List ℕ };

    ghost view = { λ h. take h.len h.bytes };

    ghost invariant = { λ h. h.len ≤ MAX_HEX };
}

impl HexBytes {
    /// The bytes that a field says in digits of either case, from one to `most`.
    pub fn read(text: &[u8], most: usize) -> Option<HexBytes>
        requires { most ≤ MAX_HEX }
        ensures value { result ≡ bytes_said most text.now }
        ensures count { IfSome result (λ bytes. (0 < length bytes) × (length bytes ≤ most)) }
    {
        let mut bytes = [0; MAX_HEX];
        let len = read_hex(text, &mut bytes[..most])?;
        Some(HexBytes { bytes, len })
    }

    /// Its bytes.
    pub fn bytes(&self) -> &[u8]
        ensures value { result.now ≡ self.now }
        ensures most { length result.now ≤ MAX_HEX }
    {
        &self.bytes[..self.len]
    }
}

/// What stands beside this text in a table of words, the first if there are several.
#[inline(always)]
pub fn find_word<T: Copy>(words: &[(&[u8], T)], text: &[u8]) -> Option<T>
    ensures { result ≡ word_in (map (λ row. (row.0.now, row.1)) words.now) text.now }
{
    for (word, meaning) in words {
        if text == *word {
            return Some(*meaning);
        }
    }
    None
}

/// A field that is a number of 16 bits. `Number` where it isn't.
pub fn number_16(text: &[u8]) -> Result<u16, LineCause>
    ensures { result ≡ number_16 text.now }
{
    let n = read_number(text, u64::from(u16::MAX)).ok_or(LineCause::Number)?;
    Ok(n as u16)
}

/// A field that is a number of 32 bits. `Number` where it isn't.
pub fn number_32(text: &[u8]) -> Result<u32, LineCause>
    ensures { result ≡ number_32 text.now }
{
    let n = read_number(text, u64::from(u32::MAX)).ok_or(LineCause::Number)?;
    Ok(n as u32)
}

/// The next field, and what follows the space after it. `Fields` where there is none.
pub fn next_field(fields: Option<&[u8]>) -> Result<(&[u8], Option<&[u8]>), LineCause>
    ensures { AreFields result (next_field (fields_after fields.entry)) }
{
    match fields {
        None => Err(LineCause::Fields),
        Some(fields) => Ok(cut(fields)),
    }
}

/// The end of the fields. `Fields` where there is one more.
#[tactic(auto, using(crate::proofs::OneField::no_field_some))]
pub fn no_field(fields: Option<&[u8]>) -> Result<(), LineCause>
    ensures { result ≡ no_field (fields_after fields.entry) }
{
    match fields {
        None => Ok(()),
        Some(_) => Err(LineCause::Fields),
    }
}

/// The only field. `Fields` where there is none, or more than one.
#[tactic(auto, using(crate::proofs::OneField::one_field_two))]
pub fn one_field(fields: Option<&[u8]>) -> Result<&[u8], LineCause>
    ensures { IsField result (one_field (fields_after fields.entry)) }
{
    match fields {
        None => Err(LineCause::Fields),
        Some(fields) => match cut(fields) {
            (field, None) => Ok(field),
            (_, Some(_)) => Err(LineCause::Fields),
        },
    }
}

/// The bytes of the only field, from one to `most`. `Fields` where there is no field or more than one, else `Hex`.
/// Digits have no space among them, so one is sought only where they aren't digits.
#[tactic(auto, using(crate::proofs::HexAlone::hex_said, crate::proofs::HexAlone::hex_unsaid))]
pub fn one_hex_field(fields: Option<&[u8]>, most: usize) -> Result<HexBytes, LineCause>
    requires { most ≤ MAX_HEX }
    ensures value { result ≡ one_hex_field most (fields_after fields.entry) }
    ensures count { IfOk result (λ bytes. (0 < length bytes) × (length bytes ≤ most)) }
{
    let Some(text) = fields else {
        return Err(LineCause::Fields);
    };
    match HexBytes::read(text, most) {
        Some(bytes) => Ok(bytes),
        None => Err(not_hex(text)),
    }
}

/// Writes to `bytes` those that a field says in digits of either case, from one to as many as there is room for. `Hex`
/// where it says no such bytes; they are then as they were.
#[inline(always)]
pub fn read_bytes<const MOST: usize>(
    text: &[u8],
    bytes: &mut ByteList<MOST>,
) -> Result<(), LineCause>
    ensures value { Becomes result bytes.new (value_or cause.Hex (bytes_said MOST text.now)) }
    ensures count { OnOk result ((0 < length bytes.new) × (length bytes.new ≤ MOST)) }
    ensures unwritten { OnErr result (bytes.new ≡ bytes.old) }
{
    let mut read = [0; MOST];
    match read_hex(text, &mut read) {
        Some(count) => {
            bytes.set(&read[..count]);
            Ok(())
        }
        None => Err(LineCause::Hex),
    }
}

/// Writes to `bytes` those that the only field says, in digits of either case. `Fields` where there is no field or more
/// than one. Digits have no space among them, so one is sought only where they aren't digits.
#[inline(always)]
#[tactic(auto, using(crate::proofs::HexAlone::said_alone, crate::proofs::HexAlone::unsaid_alone))]
pub fn bytes_field<const MOST: usize>(
    fields: Option<&[u8]>,
    bytes: &mut ByteList<MOST>,
) -> Result<(), LineCause>
    ensures value { Becomes result bytes.new (one_hex_field MOST (fields_after fields.entry)) }
    ensures count { OnOk result ((0 < length bytes.new) × (length bytes.new ≤ MOST)) }
    ensures unwritten { OnErr result (bytes.new ≡ bytes.old) }
{
    let Some(text) = fields else {
        return Err(LineCause::Fields);
    };
    match read_bytes(text, bytes) {
        Ok(()) => Ok(()),
        Err(_) => Err(not_hex(text)),
    }
}

/// Why a text isn't one field of digits.
#[cold]
#[inline(never)]
fn not_hex(text: &[u8]) -> LineCause
    ensures { result ≡ not_hex (fields_of text.now) }
{
    match one_field(Some(text)) {
        Ok(_) => LineCause::Hex,
        Err(cause) => cause,
    }
}
