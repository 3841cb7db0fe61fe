// A round's answers joined with the partial rows.
ghost use Rattle.std.specs.Prelude.{◌≡◌, ◌≤◌, ◌<◌, ◌++◌, ◌∷◌, [], List, ℕ, Contains, IfOk, IsErr, IsTrue, MatchOption, OnOk, Some, None, if◌then◌else◌, length, map, flat_map, slice_get, slice_index_or};
ghost use Rattle.std.specs.List.Sorted.{IsStrictlySortedBy};
ghost use Rattle.std.specs.declared.cmp.Ordering.TheVariants.{Less, Greater};
ghost use Rattle.source_trait.specs.Asking.{RowList};
ghost use Rattle.row_text.specs.RowText.{row_cmp};
ghost use Rattle.middleware.specs.Joining.{OthersAreEmpty, joined, grown, is_at, input_row_of, input_value_or, text_or};
ghost use Rattle.middleware.specs.Branches.{HasAdded};
ghost use Rattle.middleware.specs.Parts.{part_of};

use crate::answers::Answers;
use crate::ascending::distinct_rows;
use crate::parts::{key_rows, known_places, parts_by_key};
use crate::whole_answer::grows_to_answer;
use meaning::types::Place;
use row_text::{LentRow, LentRows, PackedRows};
use std::alloc::{AllocError, Global};
use std::cmp::Ordering;

/// The partial rows after a step: each partial row grown by the rows of the answer to its request.
///
/// The answers stand in the order of the requests, and each partial row's request is among them. An answer that is itself what
/// the partial rows grow to is taken as it is.
pub fn join(
    alloc: Global,
    places: &[Place],
    inputs: &[u32],
    requests: &PackedRows,
    answers: Answers,
    rows: &PackedRows,
) -> Result<PackedRows, AllocError>
    requires ascends { IsStrictlySortedBy row_cmp requests.now }
    requires asked { (row : List (List ℕ)) → Contains rows.now row → Contains requests.now (input_row_of places.now inputs.now row) }
    ensures { (answer : List (List ℕ) → RowList) → answers ≡ map answer requests.now
        → IfOk result (λ next. next ≡ flat_map (λ row. grown places.now (answer (input_row_of places.now inputs.now row)) row) rows.now) }
{
    if grows_to_answer(places, &answers, rows) {
        return Ok(answers.into_rows());
    }
    if rows.len() > 1
        && let Some(only) = answers.lone()
    {
        let joined = join_only(alloc, places, only, rows)?;
        return Ok(joined);
    }
    let next = join_each(alloc, places, inputs, requests, &answers, rows)?;
    Ok(next)
}

/// Each partial row joined with the only answer: with those of its rows alone that have its values at the known places.
pub fn join_only(
    alloc: Global,
    places: &[Place],
    answer: &PackedRows,
    rows: &PackedRows,
) -> Result<PackedRows, AllocError>
    ensures { IfOk result (λ next. next ≡ flat_map (grown places.now answer.now) rows.now) }
{
    let known = known_places(alloc, places, rows)?;
    let positions = known.as_slice();
    let keys = keys_of(alloc, places, positions, answer, rows)?;
    let parts = parts_by_key(alloc, positions, &keys, answer)?;
    let next = join_each(alloc, places, positions, &keys, &parts, rows)?;
    Ok(next)
}

// The keys to part the answer by, ascending. A partial row whose input row is none of them has no part of the answer.
fn keys_of(
    alloc: Global,
    places: &[Place],
    positions: &[u32],
    answer: &PackedRows,
    rows: &PackedRows,
) -> Result<PackedRows, AllocError>
    ensures ascends { IfOk result (λ keys. IsStrictlySortedBy row_cmp keys) }
    ensures others { IfOk result (λ keys. OthersAreEmpty places.now positions.now keys rows.now (part_of positions.now answer.now)) }
{
    let list = key_list(alloc, places, positions, answer, rows)?;
    let keys = distinct_rows(alloc, list)?;
    Ok(keys)
}

// The values at the positions of the rows of the answer, or of the partial rows where these are not more.
fn key_list(
    alloc: Global,
    places: &[Place],
    positions: &[u32],
    answer: &PackedRows,
    rows: &PackedRows,
) -> Result<PackedRows, AllocError>
    ensures { IfOk result (λ list. OthersAreEmpty places.now positions.now list rows.now (part_of positions.now answer.now)) }
{
    if answer.len() < rows.len() {
        let of_answer = key_rows(alloc, positions, answer)?;
        return Ok(of_answer);
    }
    let of_rows = input_rows(alloc, places, positions, rows)?;
    Ok(of_rows)
}

// Each partial row joined with the answer to its request, where this is among the requests.
fn join_each(
    alloc: Global,
    places: &[Place],
    inputs: &[u32],
    requests: &PackedRows,
    answers: &Answers,
    rows: &PackedRows,
) -> Result<PackedRows, AllocError>
    requires ascends { IsStrictlySortedBy row_cmp requests.now }
    ensures { (answer : List (List ℕ) → RowList) → answers.now ≡ map answer requests.now → OthersAreEmpty places.now inputs.now requests.now rows.now answer
        → IfOk result (λ next. next ≡ flat_map (λ row. grown places.now (answer (input_row_of places.now inputs.now row)) row) rows.now) }
{
    let mut values = Vec::new(alloc);
    let mut texts = Vec::new(alloc);
    let mut next = answers.room_beside(alloc, rows)?;
    let mut near = 0;
    for number in 0..rows.len() {
        let row = rows.at(number);
        input_texts(places, inputs, &row, &mut values)?;
        match answer_for(requests, answers, values.as_slice(), &mut near) {
            Some(answer) => {
                next = join_answer(places, &answer, &row, &mut values, &mut texts, next)?;
            }
            None => {}
        }
    }
    Ok(next)
}

/// The input row of each partial row, but for one that the partial row before it has, too.
pub fn input_rows(
    alloc: Global,
    places: &[Place],
    inputs: &[u32],
    rows: &PackedRows,
) -> Result<PackedRows, AllocError>
    ensures { IfOk result (λ list. HasAdded [] (map (input_row_of places.now inputs.now) rows.now) list) }
{
    let mut texts = Vec::new(alloc);
    let mut list = rows.room_alike(alloc)?;
    for number in 0..rows.len() {
        input_texts(places, inputs, &rows.at(number), &mut texts)?;
        list = add_unless_last(texts.as_slice(), list)?;
    }
    Ok(list)
}

// Adds the row of these texts, where it is no double of the last one.
fn add_unless_last(texts: &[&str], into: PackedRows) -> Result<PackedRows, AllocError>
    ensures { IfOk result (λ more. HasAdded into (map (λ s. s.now) texts.now ∷ []) more) }
{
    let last = into.len().saturating_sub(1);
    if is_at_place(&into, last, texts) {
        return Ok(into);
    }
    into.with_texts(texts)
}

/// The texts that the partial row has at the input positions, in place of those that were there.
pub fn input_texts<'a>(
    places: &'a [Place],
    inputs: &[u32],
    row: &LentRow<'a>,
    texts: &mut Vec<&'a str>,
) -> Result<(), AllocError>
    ensures { OnOk result (map (λ s. s.now) texts.new.items ≡ input_row_of places.now inputs.now row.now) }
{
    texts.clear();
    for input in inputs {
        texts.push(input_text(places, *input, row))?;
    }
    Ok(())
}

fn input_text<'a>(places: &'a [Place], input: u32, row: &LentRow<'a>) -> &'a str
    ensures { result.now ≡ input_value_or row.now (slice_get places.now input) }
{
    match places.get(input as usize) {
        Some(Place::Const(text)) => text.as_str(),
        Some(Place::Col(column)) => text_at(row, *column),
        Some(Place::New) => "",
        None => "",
    }
}

/// The row's value at the column, or the empty text.
pub fn text_at<'a>(row: &LentRow<'a>, column: u32) -> &'a str
    ensures { result.now ≡ text_or (slice_get row.now column) }
{
    match row.value(column as usize) {
        Some(text) => text,
        None => "",
    }
}

// The answer to the request with these values, found by its place among the ascending requests, if it is there. `near` is where to look
// first, which may be any number, and becomes this place, or the one where the request would stand.
fn answer_for<'a>(
    requests: &PackedRows,
    answers: &'a Answers,
    values: &[&str],
    near: &mut usize,
) -> Option<LentRows<'a>>
    requires ascends { IsStrictlySortedBy row_cmp requests.now }
    ensures { (answer : List (List ℕ) → RowList) → answers.now ≡ map answer requests.now
        → MatchOption result (Contains requests.now (map (λ s. s.now) values.now) → ⊥) (λ found. found ≡ answer (map (λ s. s.now) values.now)) }
{
    match place_near(requests, values, *near) {
        Ok(number) => {
            *near = number;
            answers.get(number)
        }
        Err(number) => {
            *near = number;
            None
        }
    }
}

// The place among ascending rows of the one with these values, or else where it would stand. The place `near`, the next one and
// what lies before `near` are looked at before the others: requests mostly rise with the partial rows, one by one.
fn place_near(rows: &PackedRows, values: &[&str], near: usize) -> Result<usize, usize>
    requires ascends { IsStrictlySortedBy row_cmp rows.now }
    ensures there { IfOk result (λ number. slice_get rows.now number ≡ Some (map (λ s. s.now) values.now)) }
    ensures absent { IsErr result → Contains rows.now (map (λ s. s.now) values.now) → ⊥ }
{
    if is_at_place(rows, near, values) {
        return Ok(near);
    }
    let next = near.saturating_add(1);
    if is_at_place(rows, next, values) {
        return Ok(next);
    }
    if is_gap(rows, near, values) {
        return Err(near);
    }
    place_of(rows, values)
}

// Whether the row at a place has these values.
fn is_at_place(rows: &PackedRows, place: usize, values: &[&str]) -> bool
    ensures { IsTrue result → slice_get rows.now place ≡ Some (map (λ s. s.now) values.now) }
{
    place < rows.len() && rows.at(place).is(values)
}

// Whether a row with these values would stand between the row before a place and the row at it.
fn is_gap(rows: &PackedRows, place: usize, values: &[&str]) -> bool
    requires ascends { IsStrictlySortedBy row_cmp rows.now }
    ensures { IsTrue result → Contains rows.now (map (λ s. s.now) values.now) → ⊥ }
{
    if rows.len() < place {
        return false;
    }
    if !are_above(rows, place, values) {
        return false;
    }
    are_below(rows, place, values)
}

// Whether the rows before a place are below these values.
fn are_below(rows: &PackedRows, place: usize, values: &[&str]) -> bool
    requires ascends { IsStrictlySortedBy row_cmp rows.now }
    requires within { place ≤ length rows.now }
    ensures { IsTrue result → (k : ℕ) → k < place → row_cmp (slice_index_or rows.now k []) (map (λ s. s.now) values.now) ≡ Less }
{
    if place == 0 {
        return true;
    }
    compare(&rows.at(place - 1), values).is_lt()
}

// Whether the rows from a place on are above these values.
fn are_above(rows: &PackedRows, place: usize, values: &[&str]) -> bool
    requires ascends { IsStrictlySortedBy row_cmp rows.now }
    requires within { place ≤ length rows.now }
    ensures { IsTrue result → (k : ℕ) → place ≤ k → k < length rows.now → row_cmp (slice_index_or rows.now k []) (map (λ s. s.now) values.now) ≡ Greater }
{
    if place == rows.len() {
        return true;
    }
    compare(&rows.at(place), values).is_gt()
}

/// The place among ascending rows of the one with these values, or else where it would stand.
pub fn place_of(rows: &PackedRows, values: &[&str]) -> Result<usize, usize>
    requires ascends { IsStrictlySortedBy row_cmp rows.now }
    ensures there { IfOk result (λ number. slice_get rows.now number ≡ Some (map (λ s. s.now) values.now)) }
    ensures absent { IsErr result → Contains rows.now (map (λ s. s.now) values.now) → ⊥ }
{
    let mut low = 0;
    let mut high = rows.len();
    while low < high {
        let middle = low + (high - low) / 2;
        match compare(&rows.at(middle), values) {
            Ordering::Less => low = middle + 1,
            Ordering::Equal => return Ok(middle),
            Ordering::Greater => high = middle,
        }
    }
    Err(low)
}

// Compares a row with the row of these texts, column by column.
fn compare(row: &LentRow<'_>, texts: &[&str]) -> Ordering
    ensures { result ≡ row_cmp row.now (map (λ s. s.now) texts.now) }
{
    let count = row.len();
    let mut column = 0;
    while let (Some(value), Some(text)) = (row.value(column), texts.get(column)) {
        match value.cmp(*text) {
            Ordering::Equal => {}
            unequal => return unequal,
        }
        column += 1;
    }
    count.cmp(&texts.len())
}

// Adds the rows to which the partial row grows by the rows of an answer. `values` and `texts` are room for texts: what stood
// in them is dropped.
fn join_answer<'a>(
    places: &[Place],
    answer: &LentRows<'a>,
    row: &LentRow<'a>,
    values: &mut Vec<&'a str>,
    texts: &mut Vec<&'a str>,
    into: PackedRows,
) -> Result<PackedRows, AllocError>
    ensures { IfOk result (λ more. more ≡ into ++ grown places.now answer.now row.now) }
{
    let mut more = into;
    for number in 0..answer.len() {
        values.clear();
        answer.at(number).add_to(values)?;
        texts.clear();
        row.add_to(texts)?;
        if join_row(places, values.as_slice(), texts)? {
            more = more.with_texts(texts.as_slice())?;
        }
    }
    Ok(more)
}

/// Adds the values at the new places to the texts of a partial row, and says whether the other values agree with their places.
pub fn join_row<'a>(
    places: &[Place],
    values: &[&'a str],
    texts: &mut Vec<&'a str>,
) -> Result<bool, AllocError>
    ensures { IfOk result (λ fits. joined places.now (map (λ s. s.now) values.now) (map (λ s. s.now) texts.old.items) ≡ if fits then Some (map (λ s. s.now) texts.new.items) else None) }
{
    let mut left = places;
    for value in values {
        let [place, others @ ..] = left else {
            return Ok(false);
        };
        match place {
            Place::Const(text) => {
                if *value != text.as_str() {
                    return Ok(false);
                }
            }
            Place::Col(column) => {
                if !has_at(texts.as_slice(), *column, value) {
                    return Ok(false);
                }
            }
            Place::New => texts.push(*value)?,
        }
        left = others;
    }
    Ok(left.is_empty())
}

fn has_at(texts: &[&str], column: u32, value: &str) -> bool
    ensures { result ≡ is_at (slice_get (map (λ s. s.now) texts.now) column) value.now }
{
    match texts.get(column as usize) {
        Some(found) => *found == value,
        None => false,
    }
}
