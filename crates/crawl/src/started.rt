// Texts and rows in order: most are told apart by the bytes that they begin with, and so without a look at them.
ghost use Rattle.std.specs.Prelude.{◌≡◌, Some, nat_eq, refl};
ghost use Rattle.std.specs.Cmp.{partial_equiv_from_equiv, po};
ghost use Rattle.std.specs.Cmp.Lexicographic.{lists_equiv, lists_ties, lists_total, nat_list_cmp_total, nat_list_eq_equiv};
ghost use Rattle.std.specs.Cmp.Lexicographic.{pointwise, slice_cmp, texts_po, texts_ties};
ghost use Rattle.std.specs.Ordering.{nat_cmp};
ghost use Rattle.row_text.specs.RowText.{row_cmp, row_eq};
ghost use Rattle.row_text.specs.Starts.{first_of};

use lists::{Row, Text};
use row_text::start_of;
use std::cmp::Ordering;
use std::marker::Model;

/// A text with the number that its first bytes make. Contracts see the text.
#[derive(Drop)]
pub struct StartedText {
    start: u64,
    text: Text,
}

impl Model for StartedText {
    ghost use Rattle.std.specs.Prelude.{List, ℕ};
    ghost use Rattle.row_text.specs.Starts.{IsStart};

    ghost Value = { List ℕ };

    ghost view = { λ t. t.text };

    ghost invariant = { λ t. IsStart t.start t.text };
}

impl StartedText {
    /// The text with its number. Takes no memory.
    pub fn new(text: Text) -> StartedText
        ensures { result ≡ text }
    {
        let start = start_of(text.as_bytes());
        StartedText { start, text }
    }

    /// The text, lent.
    pub fn text(&self) -> &Text
        ensures { result.now ≡ self.now }
    {
        &self.text
    }
}

/// A row with the number that the first bytes of its first value make. Contracts see the row.
#[derive(Drop)]
pub struct StartedRow {
    start: u64,
    row: Row,
}

impl Model for StartedRow {
    ghost use Rattle.std.specs.Prelude.{List, ℕ};
    ghost use Rattle.row_text.specs.Starts.{IsStart, first_of};

    ghost Value = { List (List ℕ) };

    ghost view = { λ r. r.row };

    ghost invariant = { λ r. IsStart r.start (first_of r.row) };
}

impl StartedRow {
    /// The row with the number of its first value. Takes no memory.
    pub fn new(row: Row) -> StartedRow
        ensures { result ≡ row }
    {
        let start = start_of(first_value(&row));
        StartedRow { start, row }
    }

    /// The row.
    pub fn into_row(self) -> Row
        ensures { result ≡ self }
    {
        self.row
    }
}

// The bytes of the first value, if any.
fn first_value(row: &Row) -> &[u8]
    ensures { result.now ≡ first_of row.now }
{
    match row.get(0) {
        Some(value) => value.as_bytes(),
        None => &[],
    }
}

impl PartialEq for StartedText {
    ghost eq = { pointwise nat_eq };

    ghost laws = { partial_equiv_from_equiv nat_list_eq_equiv };

    fn eq(&self, other: &StartedText) -> bool {
        self.start == other.start && self.text == other.text
    }
}

impl Eq for StartedText {
    ghost laws = { nat_list_eq_equiv };
}

impl PartialOrd for StartedText {
    ghost partial_cmp = { λ x y. Some (slice_cmp nat_cmp x y) };

    ghost laws = { texts_po };

    fn partial_cmp(&self, other: &StartedText) -> Option<Ordering> {
        Some(self.cmp(other))
    }
}

impl Ord for StartedText {
    ghost cmp = { slice_cmp nat_cmp };

    ghost total = { nat_list_cmp_total };

    ghost matches_partial_cmp = { λ x y. refl };

    ghost matches_eq = { texts_ties };

    fn cmp(&self, other: &StartedText) -> Ordering {
        match self.start.cmp(&other.start) {
            Ordering::Equal => self.text.cmp(&other.text),
            unequal => unequal,
        }
    }
}

impl PartialEq for StartedRow {
    ghost eq = { row_eq };

    ghost laws = { partial_equiv_from_equiv (lists_equiv nat_list_eq_equiv) };

    fn eq(&self, other: &StartedRow) -> bool {
        self.start == other.start && self.row == other.row
    }
}

impl Eq for StartedRow {
    ghost laws = { lists_equiv nat_list_eq_equiv };
}

impl PartialOrd for StartedRow {
    ghost partial_cmp = { λ x y. Some (row_cmp x y) };

    ghost laws = { po (lists_total nat_list_cmp_total) (lists_ties (slice_cmp nat_cmp) texts_ties) };

    fn partial_cmp(&self, other: &StartedRow) -> Option<Ordering> {
        Some(self.cmp(other))
    }
}

impl Ord for StartedRow {
    ghost cmp = { row_cmp };

    ghost total = { lists_total nat_list_cmp_total };

    ghost matches_partial_cmp = { λ x y. refl };

    ghost matches_eq = { lists_ties (slice_cmp nat_cmp) texts_ties };

    fn cmp(&self, other: &StartedRow) -> Ordering {
        match self.start.cmp(&other.start) {
            Ordering::Equal => self.row.cmp(&other.row),
            unequal => unequal,
        }
    }
}
