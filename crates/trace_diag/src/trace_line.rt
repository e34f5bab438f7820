//! Lines of a recorded trace after its header.
ghost use Rattle.std.specs.Prelude.{◌≡◌, [], ◌∷◌};
ghost use Rattle.std.specs.Str.{bytes_eq};
ghost use Rattle.schedule_file.specs.FieldsRead.{fields_after, Becomes};
ghost use Rattle.trace_diag.specs.Lines.{frame_line, trace_line};

use crate::noted::Noted;
use fsoe_base::{End, FrameBuf};
use schedule_file::{LineCause, bytes_field, cut, no_field};

/// What a line of a trace says after the header.
#[derive(Drop)]
pub enum TraceLine {
    /// A frame.
    Sent(Noted),
    /// The end of the trace.
    Last,
}

/// Whether a word is this letter alone. Two slices would be compared by a call.
fn is_letter(word: &[u8], letter: u8) -> bool
    ensures { result ≡ bytes_eq word.now (letter ∷ []) }
{
    word.len() == 1 && word[0] == letter
}

/// `<hex>`: a frame of 1 to 255 bytes from this end, written over `said`. It stays in its place where `said` has one.
fn read_frame(from: End, fields: Option<&[u8]>, said: &mut TraceLine) -> Result<(), LineCause>
    ensures { Becomes result said.new (frame_line from (fields_after fields.entry)) }
{
    match said {
        TraceLine::Sent(noted) => {
            bytes_field(fields, &mut noted.frame)?;
            noted.from = from;
            Ok(())
        }
        TraceLine::Last => read_first(from, fields, said),
    }
}

/// `<hex>`: a frame of 1 to 255 bytes from this end, where the line before had none.
#[inline(never)]
fn read_first(from: End, fields: Option<&[u8]>, said: &mut TraceLine) -> Result<(), LineCause>
    ensures { Becomes result said.new (frame_line from (fields_after fields.entry)) }
{
    let mut frame = FrameBuf::new();
    bytes_field(fields, &mut frame)?;
    *said = TraceLine::Sent(Noted { from, frame });
    Ok(())
}

/// Parses a line after the header, and writes its meaning over `said`: `m <hex>` or `s <hex>`, a frame of 1 to 255
/// bytes of the master or the slave, or `end`. An error is the first of these causes that applies: `Word`, `Fields`,
/// `Hex`.
pub(crate) fn read_trace_line(line: &[u8], said: &mut TraceLine) -> Result<(), LineCause>
    ensures { Becomes result said.new (trace_line line.now) }
{
    let (word, fields) = cut(line);
    if is_letter(word, b'm') {
        read_frame(End::Master, fields, said)
    } else if is_letter(word, b's') {
        read_frame(End::Slave, fields, said)
    } else if word == b"end".as_slice() {
        no_field(fields)?;
        *said = TraceLine::Last;
        Ok(())
    } else {
        Err(LineCause::Word)
    }
}
