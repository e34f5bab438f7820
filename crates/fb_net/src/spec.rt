//! What a net is made of.
ghost use Rattle.std.specs.Prelude.{◌≡◌};
ghost use Rattle.fb_net.specs.New.{IsNew};

use crate::wire::{Wire, Wires};
use failsafe_io::Bit;
use fb_lib::{Block, BlockKind};
use std::alloc::{Allocator, Global};
use std::marker::Model;

/// A block of a net, and the wires of its inputs.
#[derive(Drop)]
pub struct BlockSpec<M: Allocator = Global> {
    /// The block.
    pub block: Block,
    /// What its inputs read.
    pub ins: Wires<M>,
}

impl<M: Allocator> Model for BlockSpec<M> {
    ghost use Rattle.fb_net.specs.BlockSpec.{BlockSpec};

    ghost Value = { BlockSpec };

    ghost view = { λ spec. record { block = spec.block; ins = spec.ins } };
}

impl<M: Allocator> BlockSpec<M> {
    /// A block of this kind before its first cycle, with its number `n` of ticked cycles, which some kinds don't use.
    pub fn new(kind: BlockKind, n: u16, ins: Wires<M>) -> BlockSpec<M>
        ensures new { IsNew result }
        ensures kind { result.block.kind ≡ kind }
        ensures n { result.block.n ≡ n }
        ensures ins { result.ins ≡ ins }
    {
        let block = Block::new(kind, n);
        BlockSpec { block, ins }
    }
}

/// An output bit that a net sets in each cycle, and what it reads for it.
#[derive(Clone, Copy, PartialEq, Eq)]
pub struct Drive {
    /// The output bit.
    pub out: Bit,
    /// What it reads.
    pub from: Wire,
}
