// Columns that no later place names: their values are dropped, so that rows that differ in them alone become doubles.
ghost use Rattle.std.specs.Prelude.{◌≡◌, ◌∷◌, ◌++◌, ◌↔◌, [], Contains, IfOk, List, ℕ};
ghost use Rattle.middleware.specs.Blocks.{IsCut};
ghost use Rattle.middleware.specs.Live.{is_live, is_named, is_shown};
ghost use Rattle.middleware.specs.Cutting.{AddsKept, KeepsLive, KeepsOne};

use crate::ascending::distinct_rows;
use crate::blocks::Block;
use crate::naming::fitting;
use crate::parts::key_rows;
use lists::{Places, Seq};
use meaning::types::{Out, Place, Step};
use row_text::{LentRow, PackedRows};
use std::alloc::{AllocError, Global};

// The most bytes of a value that is kept although no place names it, since to drop it would cost more.
const SHORT: usize = 16;

/// The block without the columns that no place of the steps and of the output names.
///
/// It stays as it is where there is no memory for that, and where the columns before the first of these tell its rows apart and no
/// value from there on is long.
pub fn live_block(alloc: Global, steps: &[Step], outs: &[Out], block: Block) -> Block
    ensures { IsCut (is_live steps.now outs.now) block result }
{
    if block.rows.len() < 2 || stay_apart(steps, outs, &block) {
        return block;
    }
    match cut_block(alloc, steps, outs, &block) {
        Ok(cut) => cut,
        Err(_) => block,
    }
}

fn cut_block(
    alloc: Global,
    steps: &[Step],
    outs: &[Out],
    block: &Block,
) -> Result<Block, AllocError>
    ensures { IfOk result (λ cut. IsCut (is_live steps.now outs.now) block.now cut) }
{
    let kept = live_columns(alloc, steps, outs, block.columns.as_slice())?;
    let list = key_rows(alloc, kept.places.as_slice(), &block.rows)?;
    let rows = once_if_bare(alloc, kept.columns.is_empty(), list)?;
    Ok(Block {
        columns: kept.columns,
        rows,
    })
}

// Each row once where they have no column, and the rows as they are where they have.
fn once_if_bare(alloc: Global, bare: bool, rows: PackedRows) -> Result<PackedRows, AllocError>
    ensures { IfOk result (λ same. (row : List (List ℕ)) → Contains same row ↔ Contains rows row) }
{
    if bare {
        return distinct_rows(alloc, rows);
    }
    Ok(rows)
}

// Whether nothing is gained without the columns that are not live: there are none, or those before the first of them tell the rows
// apart, and the values from there on are short.
fn stay_apart(steps: &[Step], outs: &[Out], block: &Block) -> bool {
    let columns = block.columns.as_slice();
    let live = live_front(steps, outs, columns);
    live == columns.len()
        || (fronts_ascend(&block.rows, live) && backs_are_short(&block.rows, live))
}

// How many of the columns come before one that is not live.
fn live_front(steps: &[Step], outs: &[Out], columns: &[u32]) -> usize {
    for number in 0..columns.len() {
        if !is_live_column(steps, outs, columns[number] as usize) {
            return number;
        }
    }
    columns.len()
}

// Whether the first columns of each row are below those of the next one, so that no other column tells them apart.
fn fronts_ascend(rows: &PackedRows, columns: usize) -> bool {
    for number in 1..rows.len() {
        if !is_front_below(&rows.at(number - 1), &rows.at(number), columns) {
            return false;
        }
    }
    true
}

// Whether the row's first columns are below those of the other one.
fn is_front_below(row: &LentRow<'_>, other: &LentRow<'_>, columns: usize) -> bool {
    for column in 0..columns {
        let (Some(value), Some(above)) = (row.value(column), other.value(column)) else {
            return false;
        };
        if value != above {
            return value < above;
        }
    }
    false
}

// Whether each value behind the first columns is short.
fn backs_are_short(rows: &PackedRows, columns: usize) -> bool {
    for number in 0..rows.len() {
        if !is_back_short(&rows.at(number), columns) {
            return false;
        }
    }
    true
}

// Whether each value of the row behind the first columns is short.
fn is_back_short(row: &LentRow<'_>, columns: usize) -> bool {
    for column in columns..row.len() {
        match row.value(column) {
            Some(value) if value.len() > SHORT => return false,
            _ => {}
        }
    }
    true
}

/// The live ones of some columns, and which of these each is.
#[derive(Drop)]
pub struct Kept {
    pub columns: Places,
    pub places: Vec<u32>,
}

fn live_columns(
    alloc: Global,
    steps: &[Step],
    outs: &[Out],
    columns: &[u32],
) -> Result<Kept, AllocError>
    ensures { IfOk result (λ kept. KeepsLive (is_live steps.now outs.now) columns.now columns.now kept) }
{
    let mut kept = Kept {
        columns: Seq::new(alloc),
        places: Vec::new(alloc),
    };
    for number in 0..columns.len() {
        kept = with_live(steps, outs, kept, columns[number], number)?;
    }
    Ok(kept)
}

// Keeps the column of a number, if it is live.
fn with_live(
    steps: &[Step],
    outs: &[Out],
    kept: Kept,
    column: u32,
    number: usize,
) -> Result<Kept, AllocError>
    ensures { IfOk result (λ more. KeepsOne (is_live steps.now outs.now) column number kept more) }
{
    if is_live_column(steps, outs, column as usize) {
        return with_kept(kept, column, number);
    }
    Ok(kept)
}

fn with_kept(kept: Kept, column: u32, number: usize) -> Result<Kept, AllocError>
    ensures { IfOk result (λ more. AddsKept column number kept more) }
{
    let mut more = kept;
    more.columns.push(column)?;
    more.places.push(fitting(number)?)?;
    Ok(more)
}

fn is_live_column(steps: &[Step], outs: &[Out], column: usize) -> bool
    ensures { result ≡ is_live steps.now outs.now column }
{
    let mut left = steps;
    while let [step, rest @ ..] = left {
        if is_named_column(step.places.as_slice(), column) {
            return true;
        }
        left = rest;
    }
    is_shown_column(outs, column)
}

fn is_named_column(places: &[Place], column: usize) -> bool
    ensures { result ≡ is_named places.now column }
{
    let mut left = places;
    while let [place, rest @ ..] = left {
        match place {
            Place::Col(named) => {
                if *named as usize == column {
                    return true;
                }
            }
            Place::Const(_) => {}
            Place::New => {}
        }
        left = rest;
    }
    false
}

fn is_shown_column(outs: &[Out], column: usize) -> bool
    ensures { result ≡ is_shown outs.now column }
{
    let mut left = outs;
    while let [out, rest @ ..] = left {
        match out {
            Out::Col(named) => {
                if *named as usize == column {
                    return true;
                }
            }
            Out::Const(_) => {}
        }
        left = rest;
    }
    false
}
