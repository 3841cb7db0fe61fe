// Partial rows in blocks: tables that share no column, whose choices of one row of each are the partial rows.
ghost use Rattle.std.specs.Prelude.{◌≡◌, ◌∷◌, [], Contains, IfOk, IsTrue, List, ℕ, false};
ghost use Rattle.middleware.specs.Blocks.{AreTables, Gathers, IsApart, IsBelow};

use crate::crossing::join_blocks;
use crate::naming::number_of;
use lists::{Places, Seq};
use row_text::PackedRows;
use std::alloc::{AllocError, Global};

/// Rows over some columns of the partial rows.
#[derive(Drop)]
pub struct Block {
    pub columns: Places,
    pub rows: PackedRows,
}

/// A table that blocks were joined with, and the other blocks.
#[derive(Drop)]
pub struct Gathered {
    pub table: Block,
    pub rest: Vec<Block>,
}

/// The block of the one row without columns.
pub fn no_columns(alloc: Global) -> Result<Block, AllocError>
    ensures columns { IfOk result (λ block. block.columns ≡ []) }
    ensures rows { IfOk result (λ block. block.rows ≡ [] ∷ []) }
{
    let rows = PackedRows::new(alloc).with_texts(&[])?;
    Ok(Block {
        columns: Seq::new(alloc),
        rows,
    })
}

/// Joins a table with each block that has one of the columns or no row.
///
/// A block that is left has a row, so it adds nothing to what the table asks for; one without rows leaves nothing to ask for.
pub fn gather(
    alloc: Global,
    count: u32,
    columns: &[u32],
    table: Block,
    blocks: Vec<Block>,
) -> Result<Gathered, AllocError>
    requires table { IsBelow count table }
    requires blocks { AreTables count blocks.items }
    ensures { IfOk result (λ g. Gathers count columns.now table blocks.items g.table [] g.rest.items) }
{
    let mut left = blocks;
    let mut both = table;
    let mut rest = Vec::new(alloc);
    while let Some(block) = left.pop() {
        if stays(columns, &block) {
            rest.push(block)?;
        } else {
            both = join_blocks(alloc, count, both, block)?;
        }
    }
    Ok(Gathered { table: both, rest })
}

// Whether a block has a row, and none of the columns. One without columns is joined, as it then goes.
fn stays(columns: &[u32], block: &Block) -> bool
    ensures some { IsTrue result → (row : List (List ℕ)) × Contains block.now.rows row }
    ensures lacks { IsTrue result → IsApart block.now.columns columns.now }
{
    if block.rows.len() == 0 {
        return false;
    }
    if block.columns.is_empty() {
        return false;
    }
    are_apart(block.columns.as_slice(), columns)
}

// Whether no column is one of both.
fn are_apart(columns: &[u32], others: &[u32]) -> bool
    ensures { IsTrue result → IsApart columns.now others.now }
{
    for column in columns {
        match number_of(others, *column) {
            Some(_) => return false,
            None => {}
        }
    }
    true
}
