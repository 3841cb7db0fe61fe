// The one word that the lanes share, and the rule that each step on it keeps.
use atomic_table::{Join, Play, Seat, Shared, Split, Table, TableRule};
use std::alloc::Global;
use std::collections::LinkedList;

/// What a seat at the table knows. Its first list has the numbers that its own lane drew, and the others are those of seats that
/// were joined into it. The parts of all seats together are 8. No value of this type is made.
pub struct View {
    pub lists: LinkedList<LinkedList<u64>>,
    pub parts: u64,
}

/// The word is how many numbers were drawn, and each number below it was drawn once.
pub struct OnceEach;

impl TableRule<(), View, ()> for OnceEach {
    ghost use Rattle.std.specs.Prelude.{[], ◌∷◌};
    ghost use Rattle.lane_pool.specs.Seats.{view, RuleHolds};

    ghost holds = { λ _. RuleHolds };

    ghost first = { λ _. view ([] ∷ []) 8 };
}

/// A seat draws the number that the word had.
pub struct Draw;

impl Play<(), View> for Draw {
    ghost use Rattle.lane_pool.specs.Seats.{DrawsNumber};

    ghost then = { λ _. DrawsNumber };
}

/// A seat gives half of its parts to a new one, and later takes a seat back, with its lists and parts.
pub struct Halves;

impl Split<View> for Halves {
    ghost use Rattle.lane_pool.specs.Seats.{kept_half, new_half};

    ghost left = { kept_half };

    ghost right = { new_half };
}

impl Join<View> for Halves {
    ghost use Rattle.lane_pool.specs.Seats.{joined, spent};

    ghost both = { joined };

    ghost spent = { spent };
}

pub type Counter = Table<(), View, (), OnceEach, Global>;

pub type SharedCounter = Shared<(), View, (), OnceEach>;

pub type LaneSeat = Seat<(), View>;
