// Distinct rows in ascending order.
ghost use Rattle.std.specs.Prelude.{◌≡◌, ◌↔◌, [], Contains, IfOk, List, ℕ, map};
ghost use Rattle.std.specs.List.Sorted.{IsStrictlySortedBy};
ghost use Rattle.row_text.specs.RowText.{row_cmp};

use crate::packed::PackedRows;
use crate::started::Started;
use lists::NoMemory;
use std::alloc::Global;

/// The rows sorted column by column, each column by its bytes, and each once.
pub fn ascending_distinct(alloc: Global, rows: &PackedRows) -> Result<PackedRows, NoMemory>
    ensures ascends { IfOk result (λ distinct. IsStrictlySortedBy row_cmp distinct) }
    ensures same { IfOk result (λ distinct. (row : List (List ℕ)) → Contains distinct row ↔ Contains rows.now row) }
{
    let members = ascending_members(alloc, rows)?;
    let room = rows.room_alike(alloc)?;
    let distinct = rows_of(members.as_slice(), room)?;
    Ok(distinct)
}

/// The distinct rows, ascending, lent. Rows that ascend already, as those of an execution do, are sorted in linear time.
pub(crate) fn ascending_members(
    alloc: Global,
    rows: &PackedRows,
) -> Result<Vec<Started<'_>>, NoMemory>
    ensures ascends { IfOk result (λ members. IsStrictlySortedBy row_cmp (map (λ m. m.row) members.items)) }
    ensures same { IfOk result (λ members. (row : List (List ℕ)) → Contains (map (λ m. m.row) members.items) row ↔ Contains rows.now row) }
{
    let mut members = started(alloc, rows)?;
    members.sort_unstable();
    members.dedup();
    Ok(members)
}

fn started(alloc: Global, rows: &PackedRows) -> Result<Vec<Started<'_>>, NoMemory>
    ensures { IfOk result (λ members. map (λ m. m.row) members.items ≡ rows.now) }
{
    let mut members = Vec::with_capacity(alloc, rows.len())?;
    for number in 0..rows.len() {
        members.push(Started::new(rows.at(number)))?;
    }
    Ok(members)
}

// The rows of the members, in the room that there is for them.
fn rows_of(members: &[Started<'_>], room: PackedRows) -> Result<PackedRows, NoMemory>
    requires { room ≡ [] }
    ensures { IfOk result (λ rows. rows ≡ map (λ m. m.row) members.now) }
{
    let mut rows = room;
    for member in members {
        rows = rows.with_lent(&member.row)?;
    }
    Ok(rows)
}
