// An answer parted by the values at the places whose values are known, so that no partial row is compared with each of its rows.
ghost use Rattle.std.specs.Prelude.{◌≡◌, ◌≤◌, ◌++◌, List, ℕ, Contains, IfOk, IsTrue, OnOk, length, map, slice_get};
ghost use Rattle.std.specs.List.Sorted.{IsStrictlySortedBy};
ghost use Rattle.row_text.specs.RowText.{row_cmp};
ghost use Rattle.middleware.specs.Branches.{IsInput};
ghost use Rattle.middleware.specs.Parts.{HaveChains, IsChain, key_of, part_of};

use crate::answers::Answers;
use crate::partial_rows::{place_of, text_at};
use crate::whole_answer::have_arity;
use meaning::types::Place;
use row_text::{LentRow, PackedRows};
use std::alloc::{AllocError, Global};

/// The positions of constants, and of columns that each of the rows has.
pub fn known_places(
    alloc: Global,
    places: &[Place],
    rows: &PackedRows,
) -> Result<Vec<u32>, AllocError>
    ensures { IfOk result (λ known. (row : List (List ℕ)) (p : ℕ) → Contains rows.now row → Contains known.items p → IsInput (length row) (slice_get places.now p)) }
{
    let columns = columns_of(rows);
    let mut known = Vec::new(alloc);
    let count = places.len().min(u32::MAX as usize) as u32;
    for position in 0..count {
        if is_known(places, position, columns) {
            known.push(position)?;
        }
    }
    Ok(known)
}

// How many columns each of the rows has; 0 where that differs.
fn columns_of(rows: &PackedRows) -> usize
    ensures { (row : List (List ℕ)) → Contains rows.now row → result ≤ length row }
{
    if rows.len() == 0 {
        return 0;
    }
    let columns = rows.at(0).len();
    if have_arity(rows, columns) {
        columns
    } else {
        0
    }
}

fn is_known(places: &[Place], position: u32, columns: usize) -> bool
    ensures { IsTrue result → IsInput columns (slice_get places.now position) }
{
    match places.get(position as usize) {
        Some(Place::Const(_)) => true,
        Some(Place::Col(column)) => (*column as usize) < columns,
        Some(Place::New) => false,
        None => false,
    }
}

/// For each of the keys, which ascend, the rows of the answer that have its values at the positions.
pub fn parts_by_key(
    alloc: Global,
    positions: &[u32],
    keys: &PackedRows,
    answer: &PackedRows,
) -> Result<Answers, AllocError>
    requires ascends { IsStrictlySortedBy row_cmp keys.now }
    ensures { IfOk result (λ parts. parts ≡ map (part_of positions.now answer.now) keys.now) }
{
    let Chains { heads, next } = chains_by_key(alloc, positions, keys, answer)?;
    let mut rows = answer.room_alike(alloc)?;
    let mut ends = Vec::with_capacity(alloc, keys.len())?;
    for number in 0..keys.len() {
        rows = with_chain(rows, answer, next.as_slice(), heads[number])?;
        ends.push(rows.len())?;
    }
    Ok(Answers::cut(rows, ends))
}

// The rows of an answer in chains, one for each of some keys.
#[derive(Drop)]
struct Chains {
    // the number of the first row of each chain, or the number of rows
    heads: Vec<usize>,
    // the number of the row behind each row in its chain, or the number of rows
    next: Vec<usize>,
}

// For each of the keys, which ascend, the chain of the rows of the answer that have its values at the positions.
fn chains_by_key(
    alloc: Global,
    positions: &[u32],
    keys: &PackedRows,
    answer: &PackedRows,
) -> Result<Chains, AllocError>
    requires ascends { IsStrictlySortedBy row_cmp keys.now }
    ensures { IfOk result (λ chains. HaveChains positions.now answer.now keys.now 0 chains.heads.items chains.next.items) }
{
    let mut number = answer.len();
    let mut heads = vec![in alloc; number; keys.len()]?;
    let mut next = vec![in alloc; number; number]?;
    let mut values = Vec::new(alloc);
    while number > 0 {
        number -= 1;
        key_texts(positions, &answer.at(number), &mut values)?;
        let Ok(place) = place_of(keys, values.as_slice()) else {
            continue;
        };
        next[number] = heads[place];
        heads[place] = number;
    }
    Ok(Chains { heads, next })
}

// The rows, and behind them those of the answer that stand in a chain.
fn with_chain(
    rows: PackedRows,
    answer: &PackedRows,
    next: &[usize],
    head: usize,
) -> Result<PackedRows, AllocError>
    requires long { length next.now ≡ length answer.now }
    requires chain { (part : List (List (List ℕ))) × IsChain answer.now next.now 0 head part }
    ensures { (part : List (List (List ℕ))) → IsChain answer.now next.now 0 head part → IfOk result (λ more. more ≡ rows ++ part) }
{
    let mut more = rows;
    let mut number = head;
    while number < answer.len() {
        more = more.with_lent(&answer.at(number))?;
        number = next[number];
    }
    Ok(more)
}

/// The values of each row at the positions.
pub fn key_rows(
    alloc: Global,
    positions: &[u32],
    rows: &PackedRows,
) -> Result<PackedRows, AllocError>
    ensures { IfOk result (λ list. list ≡ map (key_of positions.now) rows.now) }
{
    let mut texts = Vec::new(alloc);
    let mut list = rows.room_alike(alloc)?;
    for number in 0..rows.len() {
        key_texts(positions, &rows.at(number), &mut texts)?;
        list = list.with_texts(texts.as_slice())?;
    }
    Ok(list)
}

// The texts at the positions, in place of those that were there.
fn key_texts<'a>(
    positions: &[u32],
    row: &LentRow<'a>,
    texts: &mut Vec<&'a str>,
) -> Result<(), AllocError>
    ensures { OnOk result (map (λ s. s.now) texts.new.items ≡ key_of positions.now row.now) }
{
    texts.clear();
    for position in positions {
        texts.push(text_at(row, *position))?;
    }
    Ok(())
}
