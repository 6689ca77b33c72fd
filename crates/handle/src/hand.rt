// A side of two: left or before is 0, right or after is 1. A clause sees a Hand as that number, which is at most 1.
// What stands on either side of a node or of an entry is so one piece of code: LEFT + d.number is a field, PREV + d.number another.
ghost use Rattle.std.specs.Prelude.{◌≡◌, ◌≤◌, ◌-◌, ℕ};

use std::marker::Model;

#[derive(Clone, Copy, Debug, PartialEq, Eq)]
pub struct Hand {
    pub number: u64,
}

impl Model for Hand {
    ghost Value = { ℕ };

    ghost view = { λ h. h.number };

    ghost inverse = { λ n. record { number = n } };

    ghost invariant = { λ h. h.number ≤ 1 };
}

impl Hand {
    pub const LEFT: Hand = Hand { number: 0 };

    pub const RIGHT: Hand = Hand { number: 1 };

    // The side across.
    pub fn other(self) -> Hand
        ensures { result ≡ 1 - self }
    {
        Hand {
            number: 1 - self.number,
        }
    }
}
