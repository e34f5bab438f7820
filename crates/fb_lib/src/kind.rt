//! The kinds of blocks.

/// The most inputs that a block may have.
pub const MOST_INPUTS: usize = 8;

/// What a block does with its inputs, which stand here in their order. `n` is the block's number.
#[derive(Clone, Copy, Debug, PartialEq, Eq)]
pub enum BlockKind {
    /// No inputs. False.
    Const0,
    /// No inputs. True.
    Const1,
    /// 1 to `MOST_INPUTS` inputs. True where all of them are.
    And,
    /// 1 to `MOST_INPUTS` inputs. True where at least one of them is.
    Or,
    /// Inputs `set` and `enable`. True from a cycle with `set` on, while `enable` is true.
    Latch,
    /// Inputs `input` and `ack`. True from a rise of `ack` on, while `input` is true.
    Estop,
    /// Inputs `a` and `b`, the buttons of a two-hand control. True while both are pressed, if neither was before, and
    /// then exactly one was for at most `n` ticked cycles.
    TwoHand,
    /// Input `x`. True where `x` has been true for at least `n` ticked cycles.
    OnDelay,
    /// Input `x`. True where `x` is, and until the `n`-th ticked cycle after.
    OffDelay,
    /// Inputs `cmd` and `fb`, the feedback of a contactor, true while it is released. True if `cmd` is, unless the
    /// contactor didn't follow the output for more than `n` ticked cycles and hasn't been released without `cmd` since.
    Feedback,
}
