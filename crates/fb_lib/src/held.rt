//! What a block keeps between cycles.
ghost use Rattle.std.specs.Prelude.{◌≡◌, ℕ, IsTrue, [], length};
ghost use Rattle.std.specs.List.{list_all, list_any};
ghost use Rattle.fb_lib.specs.declared.held.Held.TheVariants as held;
ghost use Rattle.fb_lib.specs.Kind.{takes_inputs};
ghost use Rattle.fb_lib.specs.Kept.{held_of};
ghost use Rattle.fb_lib.specs.Standing.{kind_of};
ghost use Rattle.fb_lib.specs.Steps.{next_held, block_gives};

use crate::delays::{OffDelay, OnDelay};
use crate::estop::Estop;
use crate::feedback::Feedback;
use crate::kind::BlockKind;
use crate::latch::Latch;
use crate::two_hand::TwoHand;

/// What a block of each kind keeps between cycles.
#[derive(Drop)]
pub(crate) enum Held {
    Const0,
    Const1,
    And,
    Or,
    Latch(Latch),
    Estop(Estop),
    TwoHand(TwoHand),
    OnDelay(OnDelay),
    OffDelay(OffDelay),
    Feedback(Feedback),
}

impl Held {
    /// What a new block of this kind keeps: its values are 0 and false.
    pub(crate) fn new(kind: BlockKind) -> Held
        ensures { (n : ℕ) → result ≡ held_of kind n [] }
    {
        match kind {
            BlockKind::Const0 => Held::Const0,
            BlockKind::Const1 => Held::Const1,
            BlockKind::And => Held::And,
            BlockKind::Or => Held::Or,
            BlockKind::Latch => Held::Latch(Latch::new()),
            BlockKind::Estop => Held::Estop(Estop::new()),
            BlockKind::TwoHand => Held::TwoHand(TwoHand::Spent),
            BlockKind::OnDelay => Held::OnDelay(OnDelay::new()),
            BlockKind::OffDelay => Held::OffDelay(OffDelay::new()),
            BlockKind::Feedback => Held::Feedback(Feedback::new()),
        }
    }

    pub(crate) fn kind(&self) -> BlockKind
        ensures { result ≡ kind_of self.now }
    {
        match self {
            Held::Const0 => BlockKind::Const0,
            Held::Const1 => BlockKind::Const1,
            Held::And => BlockKind::And,
            Held::Or => BlockKind::Or,
            Held::Latch(_) => BlockKind::Latch,
            Held::Estop(_) => BlockKind::Estop,
            Held::TwoHand(_) => BlockKind::TwoHand,
            Held::OnDelay(_) => BlockKind::OnDelay,
            Held::OffDelay(_) => BlockKind::OffDelay,
            Held::Feedback(_) => BlockKind::Feedback,
        }
    }

    /// Takes the next cycle of a block with number `n`, and tells its output.
    pub(crate) fn step(&mut self, n: u16, ticked: bool, ins: &[bool]) -> bool
        requires { IsTrue (takes_inputs (kind_of self.old) (length ins.now)) }
        ensures next { self.new ≡ next_held n self.old (record { ticked = ticked; ins = ins.now }) }
        ensures block_gives { result ≡ block_gives n self.new (record { ticked = ticked; ins = ins.now }) }
    {
        match self {
            Held::Const0 => false,
            Held::Const1 => true,
            Held::And => all_true(ins),
            Held::Or => any_true(ins),
            Held::Latch(latch) => latch.step(ins[0], ins[1]),
            Held::Estop(estop) => estop.step(ins[0], ins[1]),
            Held::TwoHand(hands) => {
                *hands = hands.next(n, ticked, ins[0], ins[1]);
                hands.is_on()
            }
            Held::OnDelay(delay) => delay.step(n, ticked, ins[0]),
            Held::OffDelay(delay) => delay.step(n, ticked, ins[0]),
            Held::Feedback(feedback) => feedback.step(n, ticked, ins[0], ins[1]),
        }
    }
}

fn all_true(ins: &[bool]) -> bool
    ensures { result ≡ list_all (λ b. b) ins.now }
{
    ins.iter().all(|&b| b)
}

fn any_true(ins: &[bool]) -> bool
    ensures { result ≡ list_any (λ b. b) ins.now }
{
    ins.iter().any(|&b| b)
}
