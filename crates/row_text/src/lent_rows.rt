// Some of the rows of packed rows, lent.
ghost use Rattle.std.specs.Prelude.{◌≡◌, ◌<◌, length, slice_index_or, []};
ghost use Rattle.row_text.specs.Packed.{AreEnds, cut_at};

use crate::lent::LentRow;
use crate::packed::{PackedRows, bounds};
use std::marker::Model;

/// Rows that lie beside each other in packed rows.
#[derive(Drop)]
pub struct LentRows<'a> {
    rows: &'a PackedRows,
    start: usize,
    end: usize,
}

impl<'a> Model for LentRows<'a> {
    ghost use Rattle.std.specs.Prelude.{◌-◌, ◌≤◌, List, ℕ, drop, length, take};

    ghost Value = { List (List (List ℕ)) };

    ghost view = { λ r. take (r.end - r.start) (drop r.start r.rows.now) };

    ghost invariant = { λ r. (r.start ≤ r.end) × (r.end ≤ length r.rows.now) };
}

impl<'a> LentRows<'a> {
    /// The part of a number, of the rows cut at these ends.
    pub fn part(rows: &'a PackedRows, ends: &Vec<usize>, number: usize) -> LentRows<'a>
        requires ends { AreEnds 0 ends.now.items (length rows.now) }
        requires number { number < length ends.now.items }
        ensures { result ≡ slice_index_or (cut_at 0 ends.now.items rows.now) number [] }
    {
        let (start, end) = bounds(ends, number);
        LentRows { rows, start, end }
    }

    /// How many rows there are.
    pub fn len(&self) -> usize
        ensures { result ≡ length self.now }
    {
        self.end - self.start
    }

    /// The row of a number, lent.
    pub fn at(&self, number: usize) -> LentRow<'a>
        requires { number < length self.now }
        ensures { result ≡ slice_index_or self.now number [] }
    {
        prove!(number < self.end - self.start);
        self.rows.at(self.start + number)
    }
}
