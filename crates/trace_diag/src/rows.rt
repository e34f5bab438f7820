//! The rows of the table: which field of a frame isn't as it must be.
ghost use Rattle.std.specs.Prelude.{◌≡◌, ◌<◌, ◌≤◌, length, slice_index, IfSome};
ghost use Rattle.fsoe_base.specs.Lengths.{group_count};
ghost use Rattle.param_load.specs.Payload.{number_at, padded};
ghost use Rattle.end_model.specs.Verdict.{is_slave_conn};
ghost use Rattle.trace_diag.specs.Table.{is_of, conn_holds, id_holds, connection_holds, first_differing, first_failing, parameter_holds, payload_holds, piece_holds};

use byteorder::{ByteOrder, LittleEndian};
use fsoe_base::{Command, MOST_DATA, State};
use fsoe_frame::FrameView;

/// Whether a command is there, and one of this phase.
pub(crate) fn is_of(phase: State, command: Option<Command>) -> bool
    ensures { result ≡ is_of phase command }
{
    match command {
        None => false,
        Some(Command::Reset) => phase == State::Reset,
        Some(Command::Session) => phase == State::Session,
        Some(Command::Connection) => phase == State::Connection,
        Some(Command::Parameter) => phase == State::Parameter,
        Some(Command::FailSafeData) => phase == State::Data,
        Some(Command::ProcessData) => phase == State::Data,
    }
}

/// Returns true if a connection id is as it must be in a phase; `first` is that of the first Connection frame, if any.
pub(crate) fn conn_holds(phase: State, first: Option<u16>, conn: u16) -> bool
    ensures { result ≡ conn_holds phase first conn }
{
    match phase {
        State::Reset | State::Session => conn == 0,
        _ => is_conn(first, conn),
    }
}

/// Whether a connection id is that of the first Connection frame; the first one's isn't 0.
fn is_conn(first: Option<u16>, conn: u16) -> bool
    ensures { result ≡ is_slave_conn first conn }
{
    match first {
        None => conn != 0,
        Some(first) => conn == first,
    }
}

/// The byte at a place, 0 where there is none.
fn byte_at(bytes: &[u8], place: usize) -> u8
    ensures { result ≡ slice_index bytes.now place }
{
    if place < bytes.len() { bytes[place] } else { 0 }
}

/// The number in the two bytes from a place on, low byte first, of which those that are missing are 0.
pub(crate) fn number_at(bytes: &[u8], place: usize) -> u16
    requires { place < 6 }
    ensures { result ≡ number_at place bytes.now }
{
    LittleEndian::read_u16(&[byte_at(bytes, place), byte_at(bytes, place + 1)])
}

/// Whether a byte may stand at a place of a session id.
fn id_holds(place: usize, byte: u8) -> bool
    ensures { result ≡ id_holds place byte }
{
    place < 2 || byte == 0
}

/// Whether a byte may stand at a place of the connection id and the address.
fn connection_holds(conn: u16, place: usize, byte: u8) -> bool
    ensures { result ≡ connection_holds conn place byte }
{
    if place < 2 {
        byte == conn.to_le_bytes()[place]
    } else {
        place < 4 || byte == 0
    }
}

/// Whether a byte may stand at a place of the parameters, which begin with these bytes.
fn parameter_holds(parameters: &[u8], place: usize, byte: u8) -> bool
    ensures { result ≡ parameter_holds parameters.now place byte }
{
    if place < 2 {
        byte == 2u16.to_le_bytes()[place]
    } else if place == 3 {
        number_at(parameters, 2) > 0
    } else if place == 5 {
        number_at(parameters, 4) <= 512
    } else {
        place < 6 + usize::from(number_at(parameters, 4)) || byte == 0
    }
}

/// Whether a byte may stand at a place of the payload of a phase. The connection id is that of the frame.
fn payload_holds(phase: State, conn: u16, parameters: &[u8], place: usize, byte: u8) -> bool
    ensures { result ≡ payload_holds phase conn parameters.now place byte }
{
    match phase {
        State::Session => id_holds(place, byte),
        State::Connection => connection_holds(conn, place, byte),
        State::Parameter => parameter_holds(parameters, place, byte),
        _ => byte == 0,
    }
}

/// The first wrong byte of a frame's safe data. They carry a piece of `c` bytes of a payload, from its place `from` on.
/// The parameters are those up to the frame's last byte.
pub(crate) fn wrong_in_piece(
    c: usize,
    phase: State,
    conn: u16,
    parameters: &[u8],
    from: usize,
    load: &[u8],
) -> Option<usize>
    requires few { length load.now ≤ MOST_DATA }
    requires from { from < 65542 }
    ensures place { result ≡ first_failing (piece_holds c (payload_holds phase conn parameters.now) from) 0 load.now }
    ensures within { IfSome result (λ place. place < 256) }
{
    for (p, byte) in load.iter().enumerate() {
        let holds = if p < c {
            payload_holds(phase, conn, parameters, from + p, *byte)
        } else {
            *byte == 0
        };
        if !holds {
            return Some(p);
        }
    }
    None
}

/// The first place of a frame's safe data where a byte isn't that of these bytes, which zeros follow.
#[tactic(auto, using(crate::proofs::EchoSteps::echo_same, crate::proofs::EchoSteps::echo_other))]
pub(crate) fn wrong_in_echo(load: &[u8], want: &[u8]) -> Option<usize>
    requires { length load.now ≤ MOST_DATA }
    ensures place { result ≡ first_differing 0 load.now (padded want.now (length load.now)) }
    ensures within { IfSome result (λ place. place < 256) }
{
    for (p, byte) in load.iter().enumerate() {
        if *byte != byte_at(want, p) {
            return Some(p);
        }
    }
    None
}

/// The number of groups of so many safe data bytes: one byte alone, or pairs.
fn group_count(l: usize) -> usize
    ensures { result ≡ group_count l }
{
    if l == 1 { 1 } else { l / 2 }
}

/// The first group of a frame with `l` safe data bytes whose CRC isn't that of the frame that is due.
pub(crate) fn wrong_crc(view: &FrameView<'_>, due: &FrameView<'_>, l: usize) -> Option<usize>
    requires most { l ≤ MOST_DATA }
    requires same_many { length due.now.crcs ≡ length view.now.crcs }
    requires groups { length view.now.crcs ≡ group_count l }
    ensures place { result ≡ first_differing 0 view.now.crcs due.now.crcs }
    ensures within { IfSome result (λ group. group < 256) }
{
    for group in 0..group_count(l) {
        if view.crc_at(group) != due.crc_at(group) {
            return Some(group);
        }
    }
    None
}
