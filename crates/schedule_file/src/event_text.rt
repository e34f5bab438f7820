//! Events written as lines.
ghost use Rattle.std.specs.Prelude.{◌≡◌, ◌+◌, ◌*◌, ◌≤◌, ◌∷◌, ◌++◌, length, decimal};
ghost use Rattle.hex.specs.Hex.{encode_lower};
ghost use Rattle.schedule_file.specs.Event.{IsWritable};
ghost use Rattle.schedule_file.specs.EventText.{reference_text, event_text};
ghost use Rattle.schedule_file.specs.PairEvent.{end_letter};

use crate::event::Event;
use crate::line_buf::{LineBuf, MAX_LINE};
use fsoe_base::End;

/// The letter that stands for an end, `m` or `s`, in a word of a schedule and in a report of both ends.
pub fn end_letter(end: End) -> &'static [u8]
    ensures value { result.now ≡ end_letter end }
    ensures one { length result.now ≡ 1 }
{
    match end {
        End::Master => b"m",
        End::Slave => b"s",
    }
}

/// Begins a line with the word of an event at this end.
fn write_word(first: u8, end: End, out: &mut LineBuf)
    ensures text { out.new ≡ first ∷ end_letter end }
    ensures two { length out.new ≡ 2 }
{
    out.clear();
    out.push(first);
    out.push_all(end_letter(end));
}

fn push_reference(back: u8, out: &mut LineBuf)
    requires { length out.old ≤ 100 }
    ensures text { out.new ≡ out.old ++ (32 ∷ reference_text back) }
    ensures most { length out.new ≤ length out.old + 22 }
{
    out.push_all(b" -");
    out.push_decimal(u32::from(back));
}

fn push_number(n: u32, out: &mut LineBuf)
    requires { length out.old ≤ 100 }
    ensures text { out.new ≡ out.old ++ (32 ∷ decimal n) }
    ensures most { length out.new ≤ length out.old + 21 }
{
    out.push(b' ');
    out.push_decimal(n);
}

fn push_hex(bytes: &[u8], out: &mut LineBuf)
    requires { length out.old + 1 + 2 * length bytes.now ≤ MAX_LINE }
    ensures { out.new ≡ out.old ++ (32 ∷ encode_lower bytes.now) }
{
    out.push(b' ');
    out.push_hex(bytes);
}

/// Writes the line of an event in a schedule of both ends, without its newline, to `out`, whose old contents are lost.
/// A reference is from 1 to 64, a frame has from 1 to 255 bytes and a put from 1 to 126. `read_event` reads the line as
/// the same event under all lengths and profiles that the event fits.
pub fn write_event(event: &Event, out: &mut LineBuf)
    requires { IsWritable event.now }
    ensures { out.new ≡ event_text event.now }
{
    match event {
        Event::Deliver { to, back } => {
            write_word(b'd', *to, out);
            push_reference(*back, out);
        }
        Event::Altered {
            to,
            back,
            pos,
            mask,
        } => {
            write_word(b'a', *to, out);
            push_reference(*back, out);
            push_number(u32::from(*pos), out);
            push_hex(&[*mask], out);
        }
        Event::Raw { to, frame } => {
            write_word(b'r', *to, out);
            push_hex(frame.bytes(), out);
        }
        Event::Tick { at } => write_word(b't', *at, out),
        Event::Put { at, load } => {
            write_word(b'p', *at, out);
            push_hex(load.bytes(), out);
        }
        Event::Hold { at, failsafe } => {
            write_word(b'h', *at, out);
            out.push(b' ');
            out.push(b'0' + u8::from(*failsafe));
        }
        Event::Nonce { at, id } => {
            write_word(b'n', *at, out);
            push_number(*id, out);
        }
        Event::Local { at } => write_word(b'z', *at, out),
    }
}
