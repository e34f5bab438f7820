//! What is written of a sample and of a tick: a line for each slot that it concerns.
ghost use Rattle.std.specs.Prelude.{◌≡◌, ◌≤◌, ◌<◌, ◌+◌, ◌++◌, [], length};
ghost use Rattle.end_core.specs.Standing.{Shows};
ghost use Rattle.process_image.specs.SlotLines.{AddsLine, entry_told, told_line};
ghost use Rattle.process_image.specs.Standing.{HasSlot};
ghost use Rattle.process_image.specs.Telling.{DoesEvent};
ghost use Rattle.image_file.specs.declared.event.ImageEvent.TheVariants as event;

use crate::images::Images;
use end_core::Core;
use entry_text::push_entry;
use file_run::{MOST_TEXT, Waiting};
use fsoe_base::{Did, MOST_FRAME, Memory};
use fsoe_io::LineText;
use image_file::MOST_SLOTS;
use std::alloc::Global;
use std::array;

/// What a run keeps to report its slots, so that nothing of it is made anew.
#[derive(Drop)]
pub(crate) struct Telling {
    /// What the end of a slot did that an event named.
    pub(crate) did: Did,
    /// What is told of each slot at a sample.
    sampled: [Option<Did>; MOST_SLOTS],
    /// What the end of each slot did at a tick.
    ticked: [Did; MOST_SLOTS],
    /// A line on its way to the pending ones.
    pub(crate) line: LineText,
    /// The lines of an event except its first one, which is written where it is handed out.
    pub(crate) waiting: Waiting,
}

impl Telling {
    /// Nothing is told yet.
    pub(crate) fn new(alloc: Global) -> Result<Telling, Memory> {
        Ok(Telling {
            did: Did::nothing(),
            sampled: array::from_fn(|_| None),
            ticked: array::from_fn(|_| Did::nothing()),
            line: LineText::new(),
            waiting: Waiting::new(alloc)?,
        })
    }
}

/// Writes over `text` what the end of this slot did at the event of this number, with its state and its outputs after
/// it, and the frame that it sent.
pub(crate) fn write_line(
    core: &Core,
    slot: u16,
    number: u64,
    did: &Did,
    sent: &[u8],
    text: &mut LineText,
)
    requires { length sent.now ≤ MOST_FRAME }
    ensures line { Shows core.now text.new (entry_told number slot did.now sent.now) }
    ensures some { 0 < length text.new }
    ensures most { length text.new ≤ 1024 }
{
    text.clear();
    text.push_decimal(number);
    text.push(b" ");
    text.push_small(slot);
    text.push(b" ");
    push_entry(did, core.state(), core.outputs(), sent, text);
    text.push(b"\n");
}

/// Reports what was done at this slot: its line is the text if that is the first one, and else pending behind it.
fn tell(
    images: &Images,
    slot: u16,
    number: u64,
    did: &Did,
    line: &mut LineText,
    waiting: &mut Waiting,
    text: &mut LineText,
)
    requires slot { HasSlot images.now slot }
    requires first { text.old ≡ [] → waiting.old.text ≡ [] }
    requires room { length waiting.old.text + 1024 ≤ MOST_TEXT }
    ensures line { AddsLine images.now slot (told_line number slot did.now) (text.old ++ waiting.old.text) (text.new ++ waiting.new.text) }
    ensures some { 0 < length text.new }
    ensures room { length waiting.new.text ≤ length waiting.old.text + 1024 }
{
    if text.bytes().is_empty() {
        images.write_line(slot, number, did, text);
        return;
    }
    images.write_line(slot, number, did, line);
    waiting.push(line.bytes());
}

/// Samples images at the event of this number, and reports each slot to which something is delivered.
#[tactic(auto, using(crate::proofs::ToldLines::sample_tells))]
pub(crate) fn sample(images: &mut Images, number: u64, telling: &mut Telling, text: &mut LineText)
    requires empty { text.old ≡ [] }
    requires fresh { telling.old.waiting.text ≡ [] }
    ensures { DoesEvent images.old event.Sample number images.new (text.new ++ telling.new.waiting.text) }
{
    let Telling {
        sampled,
        line,
        waiting,
        ..
    } = telling;
    let dids = &mut sampled[..images.count()];
    images.sample(dids);
    for i in 0..dids.len() {
        if let Some(did) = &dids[i] {
            tell(images, i as u16 + 1, number, did, line, waiting, text);
        }
    }
}

/// Counts a tick at images at the event of this number, and reports each slot.
#[tactic(auto, using(crate::proofs::ToldLines::tick_tells))]
pub(crate) fn tick(images: &mut Images, number: u64, telling: &mut Telling, text: &mut LineText)
    requires empty { text.old ≡ [] }
    requires fresh { telling.old.waiting.text ≡ [] }
    ensures { DoesEvent images.old event.Tick number images.new (text.new ++ telling.new.waiting.text) }
{
    let Telling {
        ticked,
        line,
        waiting,
        ..
    } = telling;
    let dids = &mut ticked[..images.count()];
    images.tick(dids);
    for i in 0..dids.len() {
        tell(images, i as u16 + 1, number, &dids[i], line, waiting, text);
    }
}
