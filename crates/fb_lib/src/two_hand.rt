//! A two-hand control.
ghost use Rattle.std.specs.Prelude.{◌≡◌};
ghost use Rattle.fb_lib.specs.declared.two_hand.TwoHand.TheVariants as hands;
ghost use Rattle.fb_lib.specs.Steps.{risen, next_hands, is_on};

use crate::delays::risen;

/// What the two buttons did up to now.
#[derive(Clone, Copy)]
pub(crate) enum TwoHand {
    /// Both must be released first.
    Spent,
    /// Both were released, and exactly one has been pressed since they last were, for `gap` ticked cycles.
    Ready { gap: u16 },
    /// Both were pressed in time, and are still.
    On,
}

impl TwoHand {
    /// The buttons after a cycle in which `a` and `b` tell which are pressed.
    pub(crate) fn next(self, n: u16, ticked: bool, a: bool, b: bool) -> TwoHand
        ensures { result ≡ next_hands n self ticked a b }
    {
        match (self, a, b) {
            (_, false, false) => TwoHand::Ready { gap: 0 },
            (TwoHand::Ready { gap }, true, true) => {
                if gap <= n {
                    TwoHand::On
                } else {
                    TwoHand::Spent
                }
            }
            (TwoHand::Ready { gap }, _, _) => TwoHand::Ready {
                gap: risen(gap, ticked),
            },
            (TwoHand::On, true, true) => TwoHand::On,
            _ => TwoHand::Spent,
        }
    }

    pub(crate) fn is_on(self) -> bool
        ensures { result ≡ is_on self }
    {
        matches!(self, TwoHand::On)
    }
}
