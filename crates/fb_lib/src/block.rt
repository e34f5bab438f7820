//! A function block.
ghost use Rattle.std.specs.Prelude.{◌≡◌, ◌<◌, IsTrue, [], length};
ghost use Rattle.fb_lib.specs.Kind.{takes_inputs};
ghost use Rattle.fb_lib.specs.Standing.{BlockStands, BlockFollows, BlockGives, IsOffIfGuarded};
ghost use Rattle.fb_lib.specs.Steps.{next_block, block_gives};

use crate::held::Held;
use crate::kind::{BlockKind, MOST_INPUTS};
use std::marker::Model;

/// A function block. It keeps no cycles, only the few values that its output depends on, and doesn't allocate.
#[derive(Drop)]
pub struct Block {
    n: u16,
    held: Held,
}

impl Model for Block {
    ghost use Rattle.fb_lib.specs.Steps.{BlockView};
    ghost use Rattle.fb_lib.specs.Standing.{kind_of};

    ghost Value = { BlockView };

    ghost view = { λ b. record { kind = kind_of b.held; n = b.n; held = b.held } };
}

impl Block {
    /// A block before its first cycle. `n` is the number of ticked cycles of the kinds that have one; the others don't
    /// use it.
    pub fn new(kind: BlockKind, n: u16) -> Block
        ensures { BlockStands kind n result [] }
    {
        Block {
            n,
            held: Held::new(kind),
        }
    }

    /// What the block does with its inputs.
    pub fn kind(&self) -> BlockKind
        ensures { result ≡ self.now.kind }
    {
        self.held.kind()
    }

    /// Whether a block of this kind may have `n` inputs.
    pub fn takes(&self, n: usize) -> bool
        ensures { result ≡ takes_inputs self.now.kind n }
    {
        match self.kind() {
            BlockKind::Const0 | BlockKind::Const1 => n == 0,
            BlockKind::And | BlockKind::Or => (1..=MOST_INPUTS).contains(&n),
            BlockKind::Latch | BlockKind::Estop => n == 2,
            BlockKind::TwoHand | BlockKind::Feedback => n == 2,
            BlockKind::OnDelay | BlockKind::OffDelay => n == 1,
        }
    }

    /// Takes the next cycle, with as many inputs as a block of this kind may have, and returns the block's output in
    /// it. `ticked` says whether the cycle counts as one unit of time.
    #[tactic(auto, using(crate::proofs::Looking::follows_by, crate::proofs::Looking::gives_by))]
    pub fn step(&mut self, ticked: bool, ins: &[bool]) -> bool
        requires { IsTrue (takes_inputs self.old.kind (length ins.now)) }
        ensures next { self.new ≡ next_block self.old (record { ticked = ticked; ins = ins.now }) }
        ensures block_gives { result ≡ block_gives self.new.n self.new.held (record { ticked = ticked; ins = ins.now }) }
        ensures gives { BlockGives self.old (record { ticked = ticked; ins = ins.now }) result }
        ensures follows { BlockFollows self.old (record { ticked = ticked; ins = ins.now }) self.new }
        ensures kind { self.new.kind ≡ self.old.kind }
        ensures guarded { IsOffIfGuarded self.old.kind ins.now result }
    {
        self.advance(ticked, ins)
    }

    // The step of what the block keeps, from which looking back follows.
    #[tactic(auto, using(crate::proofs::Guarding::told_off))]
    fn advance(&mut self, ticked: bool, ins: &[bool]) -> bool
        requires { IsTrue (takes_inputs self.old.kind (length ins.now)) }
        ensures next { self.new ≡ next_block self.old (record { ticked = ticked; ins = ins.now }) }
        ensures guarded { IsOffIfGuarded self.old.kind ins.now result }
        ensures fits { self.old.n < 65536 }
        ensures block_gives { result ≡ block_gives self.new.n self.new.held (record { ticked = ticked; ins = ins.now }) }
    {
        self.held.step(self.n, ticked, ins)
    }
}
