// Partial rows in the order of what they ask for.
ghost use Rattle.std.specs.Prelude.{◌≡◌, ◌↔◌, ◌∷◌, [], Contains, IfOk, IsTrue, List, ℕ, map, slice_get};
ghost use Rattle.middleware.specs.Branches.{HasAdded};
ghost use Rattle.middleware.specs.Naming.{AddsAsked, AreAsked};

use crate::ascending::distinct_rows;
use crate::partial_rows::text_at;
use meaning::types::Place;
use row_text::{LentRow, PackedRows};
use std::alloc::{AllocError, Global};
use std::cmp::Ordering;

/// The rows, each once, in the order of the values that they ask for, so that the request of each is that of the row before it or the
/// next one. Rows that stand in this order, each once, are neither sorted nor copied.
pub fn rows_by_request(
    alloc: Global,
    places: &[Place],
    inputs: &[u32],
    rows: PackedRows,
) -> Result<PackedRows, AllocError>
    ensures { IfOk result (λ sorted. (row : List (List ℕ)) → Contains sorted row ↔ Contains rows row) }
{
    let columns = input_columns(alloc, places, inputs)?;
    let [first, ..] = columns.as_slice() else {
        return distinct_rows(alloc, rows);
    };
    if ascend_by(columns.as_slice(), &rows) {
        return Ok(rows);
    }
    sorted_by(alloc, *first, columns.as_slice(), &rows)
}

/// The columns whose values are asked for.
pub fn input_columns(
    alloc: Global,
    places: &[Place],
    inputs: &[u32],
) -> Result<Vec<u32>, AllocError>
    ensures { IfOk result (λ columns. AreAsked columns.items places.now inputs.now) }
{
    let mut columns = Vec::new(alloc);
    for input in inputs {
        columns = with_asked(columns, places, *input)?;
    }
    Ok(columns)
}

// The columns, and that of the place at an input, if it names one.
fn with_asked(columns: Vec<u32>, places: &[Place], input: u32) -> Result<Vec<u32>, AllocError>
    ensures { IfOk result (λ more. AddsAsked (slice_get places.now input) columns.items more.items) }
{
    match places.get(input as usize) {
        Some(Place::Col(column)) => {
            let mut more = columns;
            more.push(*column)?;
            Ok(more)
        }
        Some(Place::Const(_)) => Ok(columns),
        Some(Place::New) => Ok(columns),
        None => Ok(columns),
    }
}

// Whether each row comes before the next one.
fn ascend_by(columns: &[u32], rows: &PackedRows) -> bool {
    for number in 1..rows.len() {
        if !compare_by(columns, &rows.at(number - 1), &rows.at(number)).is_lt() {
            return false;
        }
    }
    true
}

// Compares rows by their values at the columns, and then by all of their values.
fn compare_by<'a>(columns: &[u32], left: &LentRow<'a>, right: &LentRow<'a>) -> Ordering {
    for column in columns {
        match text_at(left, *column).cmp(text_at(right, *column)) {
            Ordering::Equal => {}
            unequal => return unequal,
        }
    }
    left.cmp(right)
}

// A row beside the number that the first bytes of the first value that it asks for make, by which most rows are told apart.
#[derive(Drop)]
struct Asking<'a> {
    start: u64,
    row: LentRow<'a>,
}

// The rows sorted by their values at the columns, of which this is the first, and each once.
fn sorted_by(
    alloc: Global,
    first: u32,
    columns: &[u32],
    rows: &PackedRows,
) -> Result<PackedRows, AllocError>
    ensures { IfOk result (λ sorted. (row : List (List ℕ)) → Contains sorted row ↔ Contains rows.now row) }
{
    let mut members = asking_rows(alloc, first, rows)?;
    members.sort_unstable_by(|left, right| compare_asking(columns, left, right));
    let room = rows.room_alike(alloc)?;
    let sorted = rows_once(members.as_slice(), room)?;
    Ok(sorted)
}

fn asking_rows(alloc: Global, first: u32, rows: &PackedRows) -> Result<Vec<Asking<'_>>, AllocError>
    ensures { IfOk result (λ members. map (λ m. m.row) members.items ≡ rows.now) }
{
    let mut members = Vec::with_capacity(alloc, rows.len())?;
    for number in 0..rows.len() {
        members.push(asking_row(first, rows.at(number)))?;
    }
    Ok(members)
}

fn asking_row<'a>(first: u32, row: LentRow<'a>) -> Asking<'a>
    ensures { result.row ≡ row.entry }
{
    let start = start_of(text_at(&row, first));
    Asking { start, row }
}

// The number of the first eight bytes, of which the first counts most, with zeros behind a shorter text.
fn start_of(text: &str) -> u64 {
    let bytes = text.as_bytes();
    let mut start: u64 = 0;
    for place in 0..8 {
        let byte = match bytes.get(place) {
            Some(byte) => *byte,
            None => 0,
        };
        start = (start << 8) | byte as u64;
    }
    start
}

fn compare_asking<'a>(columns: &[u32], left: &Asking<'a>, right: &Asking<'a>) -> Ordering {
    match left.start.cmp(&right.start) {
        Ordering::Equal => compare_by(columns, &left.row, &right.row),
        unequal => unequal,
    }
}

// The rows of the members, but for one that the member before it has, too, in the room that there is for them.
fn rows_once(members: &[Asking<'_>], room: PackedRows) -> Result<PackedRows, AllocError>
    requires { room ≡ [] }
    ensures { IfOk result (λ list. HasAdded [] (map (λ m. m.row) members.now) list) }
{
    let mut list = room;
    for member in members {
        list = add_row(&member.row, list)?;
    }
    Ok(list)
}

// Adds the row, where it is no double of the last one.
fn add_row(row: &LentRow<'_>, into: PackedRows) -> Result<PackedRows, AllocError>
    ensures { IfOk result (λ more. HasAdded into (row.now ∷ []) more) }
{
    if ends_with(&into, row) {
        return Ok(into);
    }
    into.with_lent(row)
}

// Whether the last of the rows is this one.
fn ends_with(rows: &PackedRows, row: &LentRow<'_>) -> bool
    ensures { IsTrue result → Contains rows.now row.now }
{
    let count = rows.len();
    if count == 0 {
        return false;
    }
    are_same(&rows.at(count - 1), row)
}

fn are_same<'a>(row: &LentRow<'a>, other: &LentRow<'a>) -> bool
    ensures { IsTrue result → row.now ≡ other.now }
{
    *row == *other
}
