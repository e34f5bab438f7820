//! The steps of a journal as lines.
ghost use Rattle.std.specs.Prelude.{◌≡◌, ◌+◌, ◌*◌, ◌≤◌, ◌∷◌, ◌++◌, codes, decimal, length};
ghost use Rattle.schedule_file.specs.EventText.{switch_text};
ghost use Rattle.schedule_file.specs.PairEvent.{end_letter};
ghost use Rattle.plant_file.specs.JournalText.{bytes_text, end_word, event_text, step_line, step_text};

use fsoe_base::End;
use fsoe_io::LineText;
use plant_run::{JournalStep, PlantEvent};
use schedule_file::end_letter;

/// Begins a line with a word and the number of a connection.
fn write_link(word: &str, link: u16, text: &mut LineText)
    requires { length word.now ≤ 20 }
    ensures text { text.new ≡ word.now ++ (32 ∷ decimal link) }
    ensures most { length text.new ≤ 41 }
{
    text.clear();
    text.push_str(word);
    text.push_str(" ");
    text.push_small(link);
}

/// Appends bytes as a field, if there are any.
fn push_bytes(bytes: &[u8], text: &mut LineText)
    requires { length text.old + 1 + 2 * length bytes.now ≤ 1024 }
    ensures text { text.new ≡ text.old ++ bytes_text bytes.now }
    ensures most { length text.new ≤ length text.old + 1 + 2 * length bytes.now }
{
    if bytes.is_empty() {
        return;
    }
    text.push_str(" ");
    text.push_hex(bytes);
}

/// Appends off or on as a field.
fn push_switch(on: bool, text: &mut LineText)
    requires { length text.old ≤ 100 }
    ensures text { text.new ≡ text.old ++ (32 ∷ switch_text on) }
    ensures most { length text.new ≤ length text.old + 2 }
{
    text.push_str(if on { " 1" } else { " 0" });
}

/// The name of an end.
fn end_word(end: End) -> &'static str
    ensures value { result.now ≡ end_word end }
    ensures most { length result.now ≤ 6 }
{
    match end {
        End::Master => "master",
        End::Slave => "slave",
    }
}

/// Writes the session id of an end.
fn write_nonce(link: u16, end: End, id: u16, text: &mut LineText)
    ensures text { text.new ≡ codes "n" ++ (32 ∷ (decimal link ++ (32 ∷ (end_letter end ++ (32 ∷ decimal id))))) }
    ensures most { length text.new ≤ 100 }
{
    write_link("n", link, text);
    text.push(b" ");
    text.push(end_letter(end));
    text.push(b" ");
    text.push_small(id);
}

/// Writes an event as a script has it, without a newline.
fn write_event(event: &PlantEvent, text: &mut LineText)
    ensures text { text.new ≡ event_text event.now }
    ensures most { length text.new ≤ 600 }
{
    match event {
        PlantEvent::Tick => {
            text.clear();
            text.push(b"t");
        }
        PlantEvent::Put { link, load } => {
            write_link("p", *link, text);
            text.push(b" ");
            text.push_hex(load.bytes());
        }
        PlantEvent::Hold { link, failsafe } => {
            write_link("h", *link, text);
            push_switch(*failsafe, text);
        }
        PlantEvent::Local { link } => write_link("z", *link, text),
        PlantEvent::Nonce { link, end, id } => write_nonce(*link, *end, *id, text),
        PlantEvent::Cut { link, cut } => {
            write_link("cut", *link, text);
            push_switch(*cut, text);
        }
    }
}

/// Writes a step, without a newline.
fn write_step(step: &JournalStep, text: &mut LineText)
    ensures text { text.new ≡ step_text step.now }
    ensures most { length text.new ≤ 600 }
{
    match step {
        JournalStep::Script(event) => write_event(event, text),
        JournalStep::App => {
            text.clear();
            text.push(b"app");
        }
        JournalStep::Offer { link, load } => {
            write_link("offer", *link, text);
            push_bytes(load.bytes(), text);
        }
        JournalStep::Pulled(parcel) => {
            text.clear();
            text.push(b"pulled ");
            text.push_str(end_word(parcel.to.end));
            text.push(b" ");
            text.push_small(parcel.to.link);
            push_bytes(parcel.frame.bytes(), text);
        }
    }
}

/// Writes the line of a step.
pub(crate) fn write_line(step: &JournalStep, text: &mut LineText)
    ensures { text.new ≡ step_line step.now }
{
    write_step(step, text);
    text.push(b"\n");
}
