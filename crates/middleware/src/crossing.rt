// A block joined with a table.
ghost use Rattle.std.specs.Prelude.{◌≡◌, ◌∷◌, [], IfOk, IsTrue};
ghost use Rattle.middleware.specs.Blocks.{IsBelow, IsJoin};

use crate::ascending::distinct_rows;
use crate::blocks::Block;
use crate::naming::{column_places, named_places};
use crate::partial_rows::join_only;
use crate::whole_answer::is_first;
use std::alloc::{AllocError, Global};

/// The rows of a table joined with those of a block that have the same values in the columns that both have. Where they share none,
/// each row is joined with each.
///
/// The one row without columns is joined without a copy.
pub fn join_blocks(
    alloc: Global,
    count: u32,
    table: Block,
    block: Block,
) -> Result<Block, AllocError>
    requires table { IsBelow count table }
    requires block { IsBelow count block }
    ensures { IfOk result (λ both. IsJoin table block both) }
{
    if is_single(&table) {
        return Ok(block);
    }
    if is_single(&block) {
        return Ok(table);
    }
    join_rows(alloc, count, table, block)
}

// Whether the block is the one row without columns.
fn is_single(block: &Block) -> bool
    ensures columns { IsTrue result → block.now.columns ≡ [] }
    ensures rows { IsTrue result → block.now.rows ≡ [] ∷ [] }
{
    if !block.columns.is_empty() {
        return false;
    }
    is_first(&block.rows)
}

fn join_rows(alloc: Global, count: u32, table: Block, block: Block) -> Result<Block, AllocError>
    requires table { IsBelow count table }
    requires block { IsBelow count block }
    ensures { IfOk result (λ both. IsJoin table block both) }
{
    let names = column_places(alloc, block.columns.as_slice())?;
    let Block { columns, rows } = table;
    let first = distinct_rows(alloc, rows)?;
    let second = distinct_rows(alloc, block.rows)?;
    let named = named_places(alloc, columns, count, names.as_slice())?;
    let rows = join_only(alloc, named.places.as_slice(), &second, &first)?;
    Ok(Block {
        columns: named.columns,
        rows,
    })
}
