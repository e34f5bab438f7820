//! What a line of a plant's script means.
ghost use Rattle.std.specs.Prelude.{◌≡◌, ◌≤◌, length, IfOk};
ghost use Rattle.schedule_file.specs.declared.line_buf.TheConstants.{MAX_LINE};
ghost use Rattle.schedule_file.specs.FieldsRead.{fields_after};
ghost use Rattle.plant_run.specs.ScriptLine.{existing, plant_put_line, link_and_switch, local_line, plant_nonce_line, plant_line};
ghost use Rattle.plant_run.specs.Running.{LineFits};

use fsoe_base::{End, Image, Lengths, MOST_DATA};
use plant_model::{PlantEvent, PlantLine};
use schedule_file::{
    HexBytes, LineBuf, LineCause, cut, find_word, next_field, no_field, number_16, one_field,
    read_switch,
};

/// The first field of a line.
#[derive(Clone, Copy)]
enum PlantWord {
    Tick,
    Put,
    Hold,
    Local,
    Nonce,
    Cut,
    App,
    End,
}

/// The words of lines.
const WORDS: [(&[u8], PlantWord); 8] = [
    (b"t", PlantWord::Tick),
    (b"p", PlantWord::Put),
    (b"h", PlantWord::Hold),
    (b"z", PlantWord::Local),
    (b"n", PlantWord::Nonce),
    (b"cut", PlantWord::Cut),
    (b"app", PlantWord::App),
    (b"end", PlantWord::End),
];

/// The letters of ends.
const LETTERS: [(&[u8], End); 2] = [(b"m", End::Master), (b"s", End::Slave)];

/// The lengths of the connection with this number, from 1. `NoLink` where there is none.
fn existing(lengths: &[Lengths], link: u16) -> Result<Lengths, LineCause>
    ensures { result ≡ existing lengths.now link }
{
    if link == 0 {
        return Err(LineCause::NoLink);
    }
    lengths
        .get(usize::from(link) - 1)
        .copied()
        .ok_or(LineCause::NoLink)
}

/// `<connection> <hex>`: safe data bytes, as many as the slave sends.
fn read_put(fields: Option<&[u8]>, lengths: &[Lengths]) -> Result<PlantLine, LineCause>
    ensures { result ≡ plant_put_line lengths.now (fields_after fields.entry) }
{
    let (link, rest) = next_field(fields)?;
    let digits = one_field(rest)?;
    let link = number_16(link)?;
    let ends = existing(lengths, link)?;
    let bytes = HexBytes::read(digits, MOST_DATA).ok_or(LineCause::Hex)?;
    if bytes.bytes().len() != ends.of(End::Slave) {
        return Err(LineCause::Length);
    }
    let mut load = Image::new();
    load.set(bytes.bytes());
    Ok(PlantLine::Step(PlantEvent::Put { link, load }))
}

/// `<connection> 0` or `<connection> 1`: fail-safe data of a slave off or on, or whether a connection is cut.
fn read_link_and_switch(
    fields: Option<&[u8]>,
    lengths: &[Lengths],
) -> Result<(u16, bool), LineCause>
    ensures { result ≡ link_and_switch lengths.now (fields_after fields.entry) }
{
    let (link, rest) = next_field(fields)?;
    let switch = one_field(rest)?;
    let link = number_16(link)?;
    let on = read_switch(switch).ok_or(LineCause::Number)?;
    existing(lengths, link)?;
    Ok((link, on))
}

/// `<connection>`: a local reset of its slave.
fn read_local(fields: Option<&[u8]>, lengths: &[Lengths]) -> Result<PlantLine, LineCause>
    ensures { result ≡ local_line lengths.now (fields_after fields.entry) }
{
    let link = one_field(fields)?;
    let link = number_16(link)?;
    existing(lengths, link)?;
    Ok(PlantLine::Step(PlantEvent::Local { link }))
}

/// `<connection> m <id>` or `<connection> s <id>`: a session id of the master or of the slave.
fn read_nonce(fields: Option<&[u8]>, lengths: &[Lengths]) -> Result<PlantLine, LineCause>
    ensures { result ≡ plant_nonce_line lengths.now (fields_after fields.entry) }
{
    let (link, rest) = next_field(fields)?;
    let (letter, rest) = next_field(rest)?;
    let digits = one_field(rest)?;
    let link = number_16(link)?;
    let end = find_word(&LETTERS, letter).ok_or(LineCause::Number)?;
    let id = number_16(digits)?;
    existing(lengths, link)?;
    Ok(PlantLine::Step(PlantEvent::Nonce { link, end, id }))
}

/// Parses a line of a script without its newline; the connections have these lengths. An error is the first cause that
/// applies of `Word`, `Fields`, `Number`, `NoLink`, `Hex`, `Length`. The lines:
/// - `t`: a tick; `z <k>`: a local reset of slave `k`; `cut <k> 1`, `cut <k> 0`, `app <name>`, and `end`;
/// - `p <k> <hex>`: data of slave `k`, exactly as many bytes as it sends; `h <k> 0`, `h <k> 1`: its fail-safe data off,
///   on;
/// - `n <k> m <id>`, `n <k> s <id>`: a session id of 16 bits of the master or the slave of connection `k`.
#[tactic(auto, using(crate::proofs::ScriptFits::put_fits, crate::proofs::ScriptFits::nonce_fits, crate::proofs::ScriptFits::name_fits))]
pub fn read_plant_event(line: &[u8], lengths: &[Lengths]) -> Result<PlantLine, LineCause>
    requires most { length line.now ≤ MAX_LINE }
    ensures value { result ≡ plant_line lengths.now line.now }
    ensures fits { IfOk result (LineFits lengths.now) }
{
    let (first, fields) = cut(line);
    match find_word(&WORDS, first) {
        Some(PlantWord::Tick) => {
            no_field(fields)?;
            Ok(PlantLine::Step(PlantEvent::Tick))
        }
        Some(PlantWord::Put) => read_put(fields, lengths),
        Some(PlantWord::Hold) => {
            let (link, failsafe) = read_link_and_switch(fields, lengths)?;
            Ok(PlantLine::Step(PlantEvent::Hold { link, failsafe }))
        }
        Some(PlantWord::Local) => read_local(fields, lengths),
        Some(PlantWord::Nonce) => read_nonce(fields, lengths),
        Some(PlantWord::Cut) => {
            let (link, cut) = read_link_and_switch(fields, lengths)?;
            Ok(PlantLine::Step(PlantEvent::Cut { link, cut }))
        }
        Some(PlantWord::App) => {
            let mut name = LineBuf::new();
            name.push_all(one_field(fields)?);
            Ok(PlantLine::App(name))
        }
        Some(PlantWord::End) => {
            no_field(fields)?;
            Ok(PlantLine::End)
        }
        None => Err(LineCause::Word),
    }
}
