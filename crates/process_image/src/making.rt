//! What images are made of.
ghost use Rattle.std.specs.Prelude.{◌≡◌, replicate, IfOk, IfErr};
ghost use Rattle.std.specs.List.{AllZip};
ghost use Rattle.process_image.specs.Sound.{IsNewSeat};
ghost use Rattle.image_file.specs.declared.fault.SlotFault.TheVariants as fault;

use crate::seat::Seat;
use image_file::{Slot, SlotFault};
use std::alloc::Global;

/// The seats of new slots, in their order.
pub(crate) fn seats_of(slots: Vec<Slot>) -> Result<Vec<Seat>, SlotFault>
    ensures made { IfOk result (λ seats. AllZip IsNewSeat slots.items seats.items) }
    ensures memory { IfErr result (λ found. found ≡ fault.Memory) }
{
    let mut seats = match Vec::with_capacity(*slots.allocator(), slots.len()) {
        Ok(seats) => seats,
        Err(_) => return Err(SlotFault::Memory),
    };
    for slot in slots {
        if seats.push(Seat::new(slot)).is_err() {
            return Err(SlotFault::Memory);
        }
    }
    Ok(seats)
}

/// An image of this size that holds zeros.
pub(crate) fn zeros(alloc: Global, size: u16) -> Result<Vec<u8>, SlotFault>
    ensures zeros { IfOk result (λ image. image.items ≡ replicate size 0) }
    ensures memory { IfErr result (λ found. found ≡ fault.Memory) }
{
    match vec![in alloc; 0; usize::from(size)] {
        Ok(image) => Ok(image),
        Err(_) => Err(SlotFault::Memory),
    }
}
