// The rows that have values at positions.
ghost use Rattle.std.specs.Prelude.{◌≡◌, ◌++◌, ◌∷◌, [], IfOk};
ghost use Rattle.std.specs.List.{filter};
ghost use Rattle.source_trait.specs.Asking.{agrees};

use lists::Text;
use row_text::{LentRow, PackedRows};
use std::alloc::AllocError;

/// Whether the row has the values at the positions.
fn row_agrees(row: &LentRow<'_>, positions: &[u32], values: &[Text]) -> bool
    ensures { result ≡ agrees positions.now values.now row.now }
{
    let mut places = positions;
    let mut wanted = values;
    while let [place, places_left @ ..] = places {
        let [value, values_left @ ..] = wanted else {
            return false;
        };
        match row.value(*place as usize) {
            Some(found) => {
                if found != value.as_str() {
                    return false;
                }
            }
            None => return false,
        }
        places = places_left;
        wanted = values_left;
    }
    true
}

/// The found rows, and a copy of this row behind them, if it has the values at the positions.
pub(crate) fn with_matching(
    found: PackedRows,
    row: &LentRow<'_>,
    positions: &[u32],
    values: &[Text],
) -> Result<PackedRows, AllocError>
    ensures { IfOk result (λ more. more ≡ found ++ filter (agrees positions.now values.now) (row.now ∷ [])) }
{
    if row_agrees(row, positions, values) {
        found.with_lent(row)
    } else {
        Ok(found)
    }
}
