// Distinct rows in ascending order.
ghost use Rattle.std.specs.Prelude.{◌≡◌, ◌<◌, ◌≤◌, ◌-◌, ◌↔◌, Contains, IfOk, IsTrue, List, ℕ, length, slice_index_or, []};
ghost use Rattle.std.specs.List.Sorted.{IsStrictlySortedBy};
ghost use Rattle.std.specs.declared.cmp.Ordering.TheVariants.{Less};
ghost use Rattle.row_text.specs.RowText.{row_cmp};

use row_text::{PackedRows, ascending_distinct};
use std::alloc::{AllocError, Global};

/// The rows in ascending order, and each once. Rows that are so already, as most partial rows are, are neither sorted nor copied.
pub fn distinct_rows(alloc: Global, rows: PackedRows) -> Result<PackedRows, AllocError>
    ensures ascends { IfOk result (λ distinct. IsStrictlySortedBy row_cmp distinct) }
    ensures same { IfOk result (λ distinct. (row : List (List ℕ)) → Contains distinct row ↔ Contains rows row) }
{
    if are_ascending(&rows) {
        return Ok(rows);
    }
    let distinct = ascending_distinct(alloc, &rows)?;
    Ok(distinct)
}

// Whether each row is below the next one.
fn are_ascending(rows: &PackedRows) -> bool
    ensures { IsTrue result → IsStrictlySortedBy row_cmp rows.now }
{
    for number in 1..rows.len() {
        if !is_above_last(rows, number) {
            return false;
        }
    }
    true
}

// Whether the row of a number is above the one before it.
fn is_above_last(rows: &PackedRows, number: usize) -> bool
    requires some { 1 ≤ number }
    requires within { number < length rows.now }
    ensures { IsTrue result → row_cmp (slice_index_or rows.now (number - 1) []) (slice_index_or rows.now number []) ≡ Less }
{
    rows.at(number - 1).cmp(&rows.at(number)).is_lt()
}
