//! The bits of many images.
ghost use Rattle.std.specs.Prelude.{◌≡◌, map, length};
ghost use Rattle.failsafe_io.specs.Bits.{bit_at};
ghost use Rattle.fb_net.specs.Outputs.{with_on, zero_images};

use failsafe_io::{Bit, zeros};
use fsoe_base::Image;

/// The value of a bit, false where there is none.
pub(crate) fn bit_at(images: &[Image], bit: Bit) -> bool
    ensures { result ≡ bit_at images.now bit }
{
    if bit.link == 0 {
        return false;
    }
    let place = usize::from(bit.link) - 1;
    if place >= images.len() {
        return false;
    }
    let image = &images[place];
    usize::from(bit.bit) < 8 * image.len() && image.bit(bit.bit)
}

/// Sets a bit, where there is one.
pub(crate) fn set_bit(images: &mut [Image], bit: Bit)
    ensures { images.new ≡ with_on images.old bit.link bit.bit }
{
    if bit.link == 0 {
        return;
    }
    let place = usize::from(bit.link) - 1;
    if place >= images.len() {
        return;
    }
    let image = &mut images[place];
    if usize::from(bit.bit) < 8 * image.len() {
        image.set_bit(bit.bit, true);
    }
}

/// Makes each image zeros, as many as before.
pub(crate) fn clear(images: &mut [Image])
    ensures { images.new ≡ zero_images (map length images.old) }
{
    for i in 0..images.len() {
        let image = &mut images[i];
        image.set(zeros(image.len()));
    }
}
