// Bad numbers in the rows of a relation.
ghost use Rattle.std.specs.Prelude.{◌≡◌, ◌≤◌, ◌<◌, ◌∷◌, false, [], IsTrue, length, slice_get, slice_index_or};
ghost use Rattle.access_schema.specs.Meaning.{meaning_of};
ghost use Rattle.bad_numbers.specs.Numbers.{FindsBad};
ghost use Rattle.bad_numbers.specs.Rows.{sorts_in, AreIntegersAt, HasOtherAt, FindsOther};

use access_schema::{MOST_COLUMNS, Schema};
use meaning::is_integer;
use meaning::types::{Relation, Sort};
use row_text::{LentRow, LentRows, PackedRows};

/// The least integer column at which one of the rows of the relation has another value; none exactly where each row has integers there.
/// The rows of a relation that has no integer column, or that the schema does not have, are not looked at. Takes no memory.
pub fn bad_in(schema: &Schema, rel: u32, rows: &LentRows<'_>) -> Option<u32>
    ensures { FindsBad (meaning_of schema.now) rel rows.now result }
{
    first_other(sorts_of(schema, rel), rows)
}

/// The same of packed rows.
pub fn bad_in_packed(schema: &Schema, rel: u32, rows: &PackedRows) -> Option<u32>
    ensures { FindsBad (meaning_of schema.now) rel rows.now result }
{
    first_other(sorts_of(schema, rel), rows)
}

/// Rows by their numbers.
trait Listed {
    ghost use Rattle.std.specs.Prelude.{List};
    ghost use Rattle.meaning.specs.Values.{Row};

    ghost listed: { Self → List Row };

    fn count(&self) -> usize
        ensures { result ≡ length (listed self.now) };

    fn row(&self, number: usize) -> LentRow<'_>
        requires { number < length (listed self.now) }
        ensures { result ≡ slice_index_or (listed self.now) number [] };
}

impl<'a> Listed for LentRows<'a> {
    ghost listed = { λ rows. rows };

    fn count(&self) -> usize {
        self.len()
    }

    fn row(&self, number: usize) -> LentRow<'_> {
        self.at(number)
    }
}

impl Listed for PackedRows {
    ghost listed = { λ rows. rows };

    fn count(&self) -> usize {
        self.len()
    }

    fn row(&self, number: usize) -> LentRow<'_> {
        self.at(number)
    }
}

// The sorts of the columns of a relation.
fn sorts_of(schema: &Schema, rel: u32) -> &[Sort]
    ensures are { result.now ≡ sorts_in (slice_get schema.now.relations rel) }
    ensures few { length result.now ≤ MOST_COLUMNS }
{
    match schema.relations.as_slice().get(rel as usize) {
        Some(relation) => relation.sorts.as_slice(),
        None => &[],
    }
}

// The first integer column at which one of the rows has another value.
fn first_other<L: Listed>(sorts: &[Sort], rows: &L) -> Option<u32>
    requires { length sorts.now ≤ MOST_COLUMNS }
    ensures { FindsOther sorts.now (L.listed rows.now) result }
{
    for column in 0..sorts.len() {
        if sorts[column] == Sort::Int && has_other(rows, column) {
            return Some(column as u32);
        }
    }
    None
}

// Whether one of the rows has another value than an integer in the column.
fn has_other<L: Listed>(rows: &L, column: usize) -> bool
    ensures other { IsTrue result → HasOtherAt (L.listed rows.now) column }
    ensures none { result ≡ false → AreIntegersAt (L.listed rows.now) column }
{
    for number in 0..rows.count() {
        if is_other(&rows.row(number), column) {
            return true;
        }
    }
    false
}

// Whether the row has another value than an integer in the column.
fn is_other(row: &LentRow<'_>, column: usize) -> bool
    ensures other { IsTrue result → HasOtherAt (row.now ∷ []) column }
    ensures none { result ≡ false → AreIntegersAt (row.now ∷ []) column }
{
    match row.value(column) {
        Some(value) => !is_integer(value.as_bytes()),
        None => false,
    }
}
