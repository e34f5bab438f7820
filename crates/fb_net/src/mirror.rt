//! An application whose outputs are its inputs.
ghost use Rattle.std.specs.Prelude.{◌≡◌, [], map, length, get_or};
ghost use Rattle.fb_net.specs.Mirror.{mirrored, mirror_images};

use crate::guards::is_same_bit;
use failsafe_io::{Application, Bit, zeros};
use fsoe_base::Image;

/// Gives each connection its input bytes as its outputs where both exist, and 0 elsewhere. It guards each output bit by
/// the same input bit.
#[derive(Drop)]
pub struct Mirror;

/// Writes these bytes over an image as far as it goes, and zeros behind them.
fn write_over(bytes: &[u8], image: &mut Image)
    ensures { image.new ≡ mirrored bytes.now (length image.old) }
{
    let len = image.len();
    let most = len.min(bytes.len());
    image.set(&bytes[..most]);
    image.push_all(zeros(len - most));
}

/// The bytes of the image at this place, from 0, or none.
fn bytes_at(images: &[Image], place: usize) -> &[u8]
    ensures { result.now ≡ get_or images.now place [] }
{
    if place < images.len() {
        images[place].bytes()
    } else {
        &[]
    }
}

/// Makes each output image what its input is.
#[tactic(auto, using(crate::proofs::Mirroring::mirror_step))]
fn mirror_all(inputs: &[Image], outputs: &mut [Image])
    ensures { outputs.new ≡ mirror_images inputs.now (map length outputs.old) }
{
    for i in 0..outputs.len() {
        write_over(bytes_at(inputs, i), &mut outputs[i]);
    }
}

impl Application for Mirror {
    ghost use Rattle.fb_net.specs.Mirror.{mirror_images};
    ghost use Rattle.failsafe_io.specs.Bits.{is_same_bit};

    ghost holds = { λ _. [] };

    ghost rule = { λ _ _ _ inputs lens. record { outputs = mirror_images inputs lens; holds = [] } };

    ghost guards = { λ _. is_same_bit };

    #[tactic(auto, using(crate::proofs::Mirroring::lengths_mirrored, crate::proofs::Mirroring::mirror_guards))]
    fn cycle(&mut self, _ticked: bool, inputs: &[Image], outputs: &mut [Image]) {
        mirror_all(inputs, outputs);
    }

    fn guards(&self, out: Bit, inp: Bit) -> bool {
        is_same_bit(out, inp)
    }
}
