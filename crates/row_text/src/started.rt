// Rows in order: most are told apart by the bytes that they begin with, and so without a look at them.
ghost use Rattle.std.specs.Prelude.{◌≡◌, Some, refl, slice_index};
ghost use Rattle.std.specs.Cmp.{on_equiv, on_total, partial_equiv_from_equiv, po};
ghost use Rattle.std.specs.Cmp.Lexicographic.{lists_equiv, lists_ties, lists_total, nat_list_cmp_total, nat_list_eq_equiv, slice_cmp, texts_ties};
ghost use Rattle.std.specs.Ordering.{nat_cmp};
ghost use Rattle.row_text.specs.RowText.{row_cmp, row_eq};
ghost use Rattle.row_text.specs.Starts.{IsStart, first_of};

use crate::lent::LentRow;
use std::cmp::Ordering;

/// A lent row with the number that the first bytes of its first value make.
#[derive(Drop)]
pub(crate) struct Started<'a> {
    start: u64,
    pub(crate) row: LentRow<'a>,
    ghost starts: { IsStart start (first_of row) },
}

impl<'a> Started<'a> {
    pub(crate) fn new(row: LentRow<'a>) -> Started<'a>
        ensures { result.row ≡ row.entry }
    {
        let start = start_of(first_value(&row));
        Started { start, row }
    }
}

// The bytes of the first value, if any.
fn first_value<'a>(row: &LentRow<'a>) -> &'a [u8]
    ensures { result.now ≡ first_of row.now }
{
    match row.value(0) {
        Some(value) => value.as_bytes(),
        None => &[],
    }
}

/// The number of the first eight bytes, of which the first counts most; behind a shorter text stand zeros.
pub fn start_of(bytes: &[u8]) -> u64
    ensures { IsStart result bytes.now }
{
    u64::from_be_bytes([
        byte_at(bytes, 0),
        byte_at(bytes, 1),
        byte_at(bytes, 2),
        byte_at(bytes, 3),
        byte_at(bytes, 4),
        byte_at(bytes, 5),
        byte_at(bytes, 6),
        byte_at(bytes, 7),
    ])
}

fn byte_at(bytes: &[u8], place: usize) -> u8
    ensures { result ≡ slice_index bytes.now place }
{
    match bytes.get(place) {
        Some(byte) => *byte,
        None => 0,
    }
}

impl<'a> PartialEq for Started<'a> {
    ghost eq = { λ x y. row_eq x.row y.row };

    ghost laws = { partial_equiv_from_equiv (on_equiv (λ x. x.row) (lists_equiv nat_list_eq_equiv)) };

    fn eq(&self, other: &Started<'a>) -> bool {
        self.start == other.start && self.row == other.row
    }
}

impl<'a> Eq for Started<'a> {
    ghost laws = { on_equiv (λ x. x.row) (lists_equiv nat_list_eq_equiv) };
}

impl<'a> PartialOrd for Started<'a> {
    ghost partial_cmp = { λ x y. Some (row_cmp x.row y.row) };

    ghost laws = { po (on_total (λ x. x.row) (lists_total nat_list_cmp_total)) (λ x y. lists_ties (slice_cmp nat_cmp) texts_ties x.row y.row) };

    fn partial_cmp(&self, other: &Started<'a>) -> Option<Ordering> {
        Some(self.cmp(other))
    }
}

impl<'a> Ord for Started<'a> {
    ghost cmp = { λ x y. row_cmp x.row y.row };

    ghost total = { on_total (λ x. x.row) (lists_total nat_list_cmp_total) };

    ghost matches_partial_cmp = { λ x y. refl };

    ghost matches_eq = { λ x y. lists_ties (slice_cmp nat_cmp) texts_ties x.row y.row };

    fn cmp(&self, other: &Started<'a>) -> Ordering {
        match self.start.cmp(&other.start) {
            Ordering::Equal => self.row.cmp(&other.row),
            unequal => unequal,
        }
    }
}
