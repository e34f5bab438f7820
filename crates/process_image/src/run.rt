//! The run of images over an input.
ghost use Rattle.std.specs.Prelude.{◌≡◌, ◌≤◌, ◌+◌, ◌*◌, ◌++◌, [], codes, length};
ghost use Rattle.hex.specs.Hex.{encode_lower};
ghost use Rattle.process_image.specs.Ran.{RanImage};
ghost use Rattle.process_image.specs.Telling.{DoesEvent, FitsImages};
ghost use Rattle.image_file.specs.declared.header.TheConstants.{MOST_SIZE};
ghost use Rattle.file_run.specs.declared.waiting.TheConstants.{MOST_TEXT};
ghost use Rattle.file_run.specs.Outside.{told};

use crate::event_run;
use crate::images::Images;
use crate::told_lines::{self, Telling};
use file_run::{Machine, Stopped, Waiting, run_over, write_events};
use fsoe_base::Memory;
use fsoe_io::{Ended, LineText, Sink, Source, Status};
use image_file::{ImageEvent, ImageFormat, ImageHeader, MOST_EVENTS, SlotFault};
use std::alloc::Global;
use std::marker::Model;

/// The most bytes of an image whose digits are made in one piece.
const PIECE: usize = 512;

/// Images that run over the events of an input, and their report. All memory is allocated before the first event.
#[derive(Drop)]
pub(crate) struct ImageRun {
    images: Images,
    telling: Telling,
}

impl Model for ImageRun {
    ghost use Rattle.std.specs.Prelude.{◌≤◌, length};
    ghost use Rattle.process_image.specs.Telling.{RunView};
    ghost use Rattle.image_file.specs.declared.header.TheConstants.{MOST_SIZE};

    ghost Value = { RunView };

    ghost view = { λ r. record { images = r.images; waiting = r.telling.waiting } };

    ghost invariant = { λ r. length r.images.output ≤ MOST_SIZE };
}

/// Appends an image as hexadecimal digits to the pending text.
fn push_image(image: &[u8], line: &mut LineText, waiting: &mut Waiting)
    requires { length waiting.old.text + 2 * length image.now ≤ MOST_TEXT }
    ensures { waiting.new ≡ record { text = waiting.old.text ++ encode_lower image.now; given = waiting.old.given } }
{
    let mut at = 0;
    while at < image.len() {
        let end = (at + PIECE).min(image.len());
        line.clear();
        line.push_hex(&image[at..end]);
        waiting.push(line.bytes());
        at = end;
    }
}

/// The last line, the output image.
fn push_last(image: &[u8], line: &mut LineText, waiting: &mut Waiting)
    requires size { length image.now ≤ MOST_SIZE }
    requires fresh { waiting.old.text ≡ [] }
    ensures { waiting.new.text ≡ codes "out " ++ encode_lower image.now ++ codes "\n" }
{
    waiting.push(b"out ");
    push_image(image, line, waiting);
    waiting.push(b"\n");
}

impl ImageRun {
    /// Does the event of this number, from 1. Its text is then `text` and the pending text behind it.
    #[tactic(auto, using(crate::proofs::Events::alone))]
    fn take(&mut self, event: &ImageEvent, number: u64, text: &mut LineText)
        requires fits { FitsImages self.old.images event.now }
        requires empty { text.old ≡ [] }
        requires fresh { self.old.waiting.text ≡ [] }
        ensures { DoesEvent self.old.images event.now number self.new.images (text.new ++ self.new.waiting.text) }
    {
        let ImageRun { images, telling } = self;
        match event {
            ImageEvent::Write { at, bytes } => {
                event_run::write(images, *at, bytes.bytes(), number, text)
            }
            ImageEvent::Sample => told_lines::sample(images, number, telling, text),
            ImageEvent::Tick => told_lines::tick(images, number, telling, text),
            _ => event_run::named(images, event, number, &mut telling.did, text),
        }
    }
}

impl Machine for ImageRun {
    ghost use Rattle.file_run.specs.Machine.{EndsReport};
    ghost use Rattle.process_image.specs.Ran.{image_reporting};
    ghost use Rattle.process_image.specs.Telling.{RunStands};
    ghost use Rattle.file_run.specs.Waiting.{waits};

    type Format = ImageFormat;

    type Handed = Global;

    ghost reporting = { λ alloc. image_reporting };

    ghost stands = { λ first v now. RunStands v.images };

    ghost waits = { λ v now. waits v.waiting };

    ghost parts = { λ v now. length (waits v.waiting) };

    ghost closes = { λ first now. EndsReport image_reporting };

    fn laws() {}

    fn open(alloc: &Global) -> Result<ImageHeader, Memory> {
        ImageHeader::new(*alloc)
    }

    fn begin(header: &ImageHeader, alloc: &mut Global) -> Result<ImageRun, Memory> {
        let slots = header.slots(*alloc)?;
        let (size_in, size_out) = header.sizes();
        let images = match Images::new(size_in, size_out, slots) {
            Ok(images) => images,
            Err(SlotFault::Memory) => return Err(Memory),
            Err(SlotFault::TooMany | SlotFault::Bounds { .. } | SlotFault::Overlap { .. }) => {
                unreachable!()
            }
        };
        Ok(ImageRun {
            images,
            telling: Telling::new(*alloc)?,
        })
    }

    fn is_full(&self, _: &Global, events: u64) -> bool {
        events >= MOST_EVENTS as u64
    }

    fn report(
        &mut self,
        _: &mut Global,
        event: &ImageEvent,
        number: u64,
        text: &mut LineText,
    ) -> Result<(), Stopped> {
        text.clear();
        self.telling.waiting.clear();
        self.take(event, number, text);
        self.telling.waiting.start();
        Ok(())
    }

    fn close(&mut self, _: &Global, events: u64, text: &mut LineText) -> Ended {
        write_events(events, text);
        let Telling { line, waiting, .. } = &mut self.telling;
        waiting.clear();
        push_last(self.images.out(), line, waiting);
        waiting.start();
        Ended {
            status: Status::Ok,
            place: 0,
        }
    }

    fn more(&mut self, _: &Global, text: &mut LineText) {
        self.telling.waiting.give(text);
    }
}

/// Runs images over an input: reads their header, then an event from each line up to `end`, at most 2,000. For each
/// event it writes a line of each slot that it concerns, `<n> <k> <did> <state> <outputs>`, with ` > <frame>` if a
/// frame was sent. A sample concerns each slot whose contents changed, a tick every slot, a write none, each other
/// event the slot that it names. At the end it writes `events <n>` and `out <hex>`, the output image. If a line is
/// refused, it writes `refused <line> <cause>`. Buffered output is flushed before each read that may block, and at the
/// end of the run.
///
/// The status is `Ok` with place 0. `Line` has the number of the refused line. `Read` has the complete lines read, only
/// if the source failed; `Write` has the bytes written, only if the sink failed. `Memory` has place 0, if there was
/// none before the first event; then nothing was written.
pub fn run_image<S: Source, K: Sink>(mut alloc: Global, source: &mut S, sink: &mut K) -> Ended
    ensures { RanImage result (record { source = told S.left S.faults source.old source.new; sink = told K.written K.faults sink.old sink.new }) }
{
    run_over::<ImageRun, S, K>(&mut alloc, source, sink)
}
