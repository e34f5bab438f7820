//! One event at images that names a slot, or none, with its text.
ghost use Rattle.std.specs.Prelude.{◌≡◌, ◌≤◌, ◌+◌, [], length};
ghost use Rattle.process_image.specs.Standing.{Follows, Keeps};
ghost use Rattle.process_image.specs.Telling.{DoesEvent, FitsImages, IsDidOf, slot_in};
ghost use Rattle.image_file.specs.declared.event.ImageEvent.TheVariants as event;

use crate::images::Images;
use fsoe_base::Did;
use fsoe_io::LineText;
use image_file::ImageEvent;

/// Writes bytes into the input image. Nothing is reported.
#[tactic(auto, using(crate::proofs::Events::write_tells))]
pub(crate) fn write(images: &mut Images, at: u16, bytes: &[u8], number: u64, text: &LineText)
    requires inside { at + length bytes.now ≤ length images.old.input }
    requires empty { text.now ≡ [] }
    ensures { DoesEvent images.old (event.Write at bytes.now) number images.new text.now }
{
    images.write(at, bytes);
}

/// Does an event that names a slot at its end, and writes what the end did to `did`. Returns the slot.
fn call(images: &mut Images, event: &ImageEvent, did: &mut Did) -> u16
    requires named { 1 ≤ slot_in event.now }
    requires fits { FitsImages images.old event.now }
    ensures slot { result ≡ slot_in event.now }
    ensures did { IsDidOf images.old event.now did.new }
    ensures follows { Follows images.old event.now images.new }
    ensures keeps { Keeps images.old images.new }
{
    did.clear();
    match event {
        ImageEvent::Put { slot, load } => {
            images.put(*slot, load.bytes());
            *slot
        }
        ImageEvent::Hold { slot, failsafe } => {
            images.hold(*slot, *failsafe);
            *slot
        }
        ImageEvent::Nonce { slot, id } => {
            images.nonce(*slot, *id);
            *slot
        }
        ImageEvent::Reset { slot } => {
            *did = images.reset(*slot);
            *slot
        }
        ImageEvent::Write { .. } | ImageEvent::Sample | ImageEvent::Tick => unreachable!(),
    }
}

/// Does an event that names a slot, and writes over `text` what the slot's end did.
#[tactic(auto, using(crate::proofs::Events::named_tells))]
pub(crate) fn named(
    images: &mut Images,
    event: &ImageEvent,
    number: u64,
    did: &mut Did,
    text: &mut LineText,
)
    requires named { 1 ≤ slot_in event.now }
    requires fits { FitsImages images.old event.now }
    ensures { DoesEvent images.old event.now number images.new text.new }
{
    let slot = call(images, event, did);
    images.write_line(slot, number, did, text);
}
