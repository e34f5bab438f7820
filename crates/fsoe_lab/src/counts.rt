//! The counts of the changes of data by the bits that they turn, as text.
ghost use Rattle.std.specs.Prelude.{◌≡◌, ◌≤◌, ◌<◌, ◌+◌, ◌*◌, ◌++◌, codes, decimal, length};
ghost use Rattle.file_run.specs.Ending.{Writes};
ghost use Rattle.file_run.specs.Outside as outside;
ghost use Rattle.fsoe_io.specs.declared.status.Status.TheVariants.{Ok};
ghost use Rattle.fsoe_lab.specs.Counts.{count_lines, counts_text};

use file_run::write_report;
use fsoe_crc::changes_by_bits;
use fsoe_io::{Ended, LineText, Sink, Status};

/// Appends the line of a number of bits, and of how many changes turn so many.
fn push_count(word: &[u8], bits: u16, changes: u16, text: &mut LineText)
    requires word { length word.now ≤ 3 }
    requires bits { bits < 100 }
    requires room { length text.old ≤ 900 }
    ensures text { text.new ≡ text.old ++ (word.now ++ codes " " ++ decimal bits ++ codes " " ++ decimal changes ++ codes "\n") }
    ensures most { length text.new ≤ length text.old + 13 }
{
    text.push(word);
    text.push(b" ");
    text.push_decimal(u64::from(bits));
    text.push(b" ");
    text.push_decimal(u64::from(changes));
    text.push(b"\n");
}

/// Appends the lines of the changes of data from 1 to `most`, up to the greatest number of bits.
fn push_counts(word: &[u8], most: u16, top: u16, text: &mut LineText)
    requires word { length word.now ≤ 3 }
    requires top { top ≤ 32 }
    requires room { length text.old ≤ 450 }
    ensures text { text.new ≡ text.old ++ count_lines word.now most top }
    ensures most { length text.new ≤ length text.old + 13 * top }
{
    let counts = changes_by_bits(most);
    for before in 0..top {
        let bits = before + 1;
        push_count(word, bits, counts[bits as usize], text);
    }
}

/// Writes how many changes of two data bytes turn how many bits, with the CRC, and how many changes of one.
pub(crate) fn write_counts<K: Sink>(sink: &mut K) -> Ended
    ensures writes { Writes 0 counts_text (record { status = Ok; place = 0 }) result (outside.told K.written K.faults sink.old sink.new) }
    ensures later { K.faults sink.old ≤ K.faults sink.new }
{
    let mut text = LineText::new();
    push_counts(b"two", 65535, 32, &mut text);
    push_counts(b"one", 255, 24, &mut text);
    let ended = Ended {
        status: Status::Ok,
        place: 0,
    };
    write_report(sink, text.bytes(), ended)
}
