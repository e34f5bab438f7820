//! An application whose outputs are always zeros.
ghost use Rattle.std.specs.Prelude.{[], true};

use crate::images::clear;
use failsafe_io::{Application, Bit};
use fsoe_base::Image;

/// Answers zeros, and guards every output bit by every input bit.
#[derive(Drop)]
pub struct Zeros;

impl Application for Zeros {
    ghost use Rattle.fb_net.specs.Outputs.{zero_images};

    ghost holds = { λ _. [] };

    ghost rule = { λ _ _ _ _ lens. record { outputs = zero_images lens; holds = [] } };

    ghost guards = { λ _ _ _. true };

    #[tactic(auto, using(crate::proofs::Bits::length_zeros, crate::proofs::Bits::zero_bit))]
    fn cycle(&mut self, _ticked: bool, _inputs: &[Image], outputs: &mut [Image]) {
        clear(outputs);
    }

    fn guards(&self, _out: Bit, _inp: Bit) -> bool {
        true
    }
}
