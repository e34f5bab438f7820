//! What one header line says, by its fields.
ghost use Rattle.std.specs.Prelude.{◌≡◌, IfOk, IsTrue, MatchResult, Ok, Err};
ghost use Rattle.fsoe_base.specs.Lengths.{is_length};
ghost use Rattle.schedule_file.specs.FieldsRead.{fields_after};
ghost use Rattle.schedule_file.specs.HeaderLine.{lengths_line, four_fields, end_numbers, master_line, slave_line, profile_line, any_line, rule_line, range_line, header_line};

use crate::field::{
    HexBytes, MAX_HEX, find_word, next_field, no_field, number_16, number_32, one_field,
    one_hex_field,
};
use crate::header_part::MAX_APP;
use crate::line_cause::LineCause;
use crate::place::Word;
use fsoe_base::Lengths;

/// The numbers of a `lengths` line: how many safe data bytes each end sends.
#[derive(Clone, Copy)]
pub struct LengthsLine {
    pub master: u16,
    pub slave: u16,
}

/// The numbers of a `master` line: the connection id, the slave's address, the watchdog in ticks and the session id.
#[derive(Clone, Copy)]
pub struct MasterLine {
    pub conn: u16,
    pub address: u16,
    pub watchdog: u16,
    pub nonce: u32,
}

/// The numbers of a `slave` line: its address, the handshake timeout in ticks, the longest watchdog in ticks that it
/// accepts, and the session id.
#[derive(Clone, Copy)]
pub struct SlaveLine {
    pub address: u16,
    pub hand: u16,
    pub most: u16,
    pub nonce: u32,
}

/// The rule of a `rule` line, whose bytes come in lines of their own.
#[derive(Clone, Copy)]
pub enum RuleLine {
    Any(u16),
    Exact,
    Ranges,
}

/// What a line of a header says, from its second line on.
#[derive(Drop)]
pub enum HeaderLine {
    Lengths(LengthsLine),
    Master(MasterLine),
    Profile(u16),
    App(HexBytes),
    Slave(SlaveLine),
    Rule(RuleLine),
    Bytes(HexBytes),
    Range(HexBytes),
    Go,
}

/// `<master> <slave>`: how many safe data bytes each end sends.
pub fn read_lengths(fields: Option<&[u8]>) -> Result<LengthsLine, LineCause>
    ensures value { result ≡ lengths_line (fields_after fields.entry) }
    ensures valid { IfOk result (λ line. IsTrue (is_length line.master) × IsTrue (is_length line.slave)) }
{
    let (master, rest) = next_field(fields)?;
    let slave = one_field(rest)?;
    let master = number_16(master)?;
    let slave = number_16(slave)?;
    match Lengths::new(usize::from(master), usize::from(slave)) {
        Ok(_) => Ok(LengthsLine { master, slave }),
        Err(_) => Err(LineCause::Length),
    }
}

/// The four fields of an end.
fn four_fields(fields: Option<&[u8]>) -> Result<(&[u8], &[u8], &[u8], &[u8]), LineCause>
    ensures { let said = four_fields (fields_after fields.entry) in
        MatchResult result (λ it. said ≡ Ok (it.0.now, it.1.now, it.2.now, it.3.now)) (λ cause. said ≡ Err cause) }
{
    let (first, rest) = next_field(fields)?;
    let (second, rest) = next_field(rest)?;
    let (third, rest) = next_field(rest)?;
    let fourth = one_field(rest)?;
    Ok((first, second, third, fourth))
}

/// The four numbers of an end: three of 16 bits, and its session id.
fn read_end_numbers(fields: Option<&[u8]>) -> Result<(u16, u16, u16, u32), LineCause>
    ensures { result ≡ end_numbers (fields_after fields.entry) }
{
    let (first, second, third, nonce) = four_fields(fields)?;
    Ok((
        number_16(first)?,
        number_16(second)?,
        number_16(third)?,
        number_32(nonce)?,
    ))
}

/// `<conn> <address> <watchdog> <nonce>`: the connection id and the watchdog aren't 0.
fn read_master(fields: Option<&[u8]>) -> Result<MasterLine, LineCause>
    ensures { result ≡ master_line (fields_after fields.entry) }
{
    let (conn, address, watchdog, nonce) = read_end_numbers(fields)?;
    if conn == 0 || watchdog == 0 {
        return Err(LineCause::Range);
    }
    Ok(MasterLine {
        conn,
        address,
        watchdog,
        nonce,
    })
}

/// `<address> <hand> <most> <nonce>`: neither limit is 0.
fn read_slave(fields: Option<&[u8]>) -> Result<SlaveLine, LineCause>
    ensures { result ≡ slave_line (fields_after fields.entry) }
{
    let (address, hand, most, nonce) = read_end_numbers(fields)?;
    if hand == 0 || most == 0 {
        return Err(LineCause::Range);
    }
    Ok(SlaveLine {
        address,
        hand,
        most,
        nonce,
    })
}

/// `<word>`: the word of profile Two.
fn read_profile(fields: Option<&[u8]>) -> Result<u16, LineCause>
    ensures { result ≡ profile_line (fields_after fields.entry) }
{
    let field = one_field(fields)?;
    number_16(field)
}

/// What stands after `rule any`.
fn read_any(fields: Option<&[u8]>) -> Result<RuleLine, LineCause>
    ensures { result ≡ any_line (fields_after fields.entry) }
{
    let field = one_field(fields)?;
    let n = number_16(field)?;
    if usize::from(n) <= MAX_APP {
        Ok(RuleLine::Any(n))
    } else {
        Err(LineCause::Range)
    }
}

/// The forms of a rule whose bytes come in lines of their own.
const LISTED: [(&[u8], RuleLine); 2] = [(b"exact", RuleLine::Exact), (b"ranges", RuleLine::Ranges)];

/// `any <n>`, `exact` or `ranges`.
fn read_rule(fields: Option<&[u8]>) -> Result<RuleLine, LineCause>
    ensures { result ≡ rule_line (fields_after fields.entry) }
{
    let (form, rest) = next_field(fields)?;
    if form == b"any".as_slice() {
        return read_any(rest);
    }
    no_field(rest)?;
    find_word(&LISTED, form).ok_or(LineCause::Range)
}

/// Pairs of a lowest and a highest value, at least one.
fn read_range(fields: Option<&[u8]>) -> Result<HexBytes, LineCause>
    ensures { result ≡ range_line (fields_after fields.entry) }
{
    let pairs = one_hex_field(fields, MAX_HEX)?;
    if pairs.bytes().len() == 1 {
        return Err(LineCause::Hex);
    }
    Ok(pairs)
}

/// What the fields of a line say that begins with this word.
pub fn read_header_line(word: Word, fields: Option<&[u8]>) -> Result<HeaderLine, LineCause>
    ensures { result ≡ header_line word (fields_after fields.entry) }
{
    match word {
        Word::Lengths => read_lengths(fields).map(HeaderLine::Lengths),
        Word::Master => read_master(fields).map(HeaderLine::Master),
        Word::Profile => read_profile(fields).map(HeaderLine::Profile),
        Word::App => one_hex_field(fields, MAX_HEX).map(HeaderLine::App),
        Word::Slave => read_slave(fields).map(HeaderLine::Slave),
        Word::Rule => read_rule(fields).map(HeaderLine::Rule),
        Word::Bytes => one_hex_field(fields, MAX_HEX).map(HeaderLine::Bytes),
        Word::Range => read_range(fields).map(HeaderLine::Range),
        Word::Go => {
            no_field(fields)?;
            Ok(HeaderLine::Go)
        }
    }
}
