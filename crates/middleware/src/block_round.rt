// What a step asks of partial rows in blocks, and the blocks behind it.
ghost use Rattle.std.specs.Prelude.{IfOk};
ghost use Rattle.middleware.specs.Blocks.{AreTables, IsBelow, IsCut};
ghost use Rattle.middleware.specs.BlockRounds.{Asks, Checks};
ghost use Rattle.middleware.specs.Live.{is_live};

use crate::blocks::{Block, Gathered, gather, no_columns};
use crate::by_request::input_columns;
use crate::live::live_block;
use crate::naming::named_places;
use access_schema::Method;
use lists::{Copies, Places};
use meaning::types::{Out, Step};
use row_text::PackedRows;
use std::alloc::{AllocError, Global};

/// What a step asks: the table that holds its inputs, and the blocks beside it.
#[derive(Drop)]
pub struct Asking {
    pub step: Step,
    pub rows: PackedRows,
    pub columns: Places,
    pub count: u32,
    pub rest: Vec<Block>,
}

/// Joins the blocks that a step asks by, and names its places by the columns of the join.
pub fn asking_of(
    alloc: Global,
    step: &Step,
    method: &Method,
    count: u32,
    blocks: Vec<Block>,
) -> Result<Asking, AllocError>
    requires { AreTables count blocks.items }
    ensures { IfOk result (λ asking. Asks step.now method.now.inputs count blocks.items asking) }
{
    let places = step.places.as_slice();
    let asked = input_columns(alloc, places, method.inputs.as_slice())?;
    let first = no_columns(alloc)?;
    let Gathered { table, rest } = gather(alloc, count, asked.as_slice(), first, blocks)?;
    let Block { columns, rows } = table;
    let named = named_places(alloc, columns, count, places)?;
    let local = Step {
        method: step.method.copy(alloc)?,
        places: named.places,
    };
    Ok(Asking {
        step: local,
        rows,
        columns: named.columns,
        count: named.count,
        rest,
    })
}

/// Joins what a step gave with the other blocks that it names, and drops the columns that are named no more.
pub fn checked_blocks(
    alloc: Global,
    steps: &[Step],
    outs: &[Out],
    count: u32,
    grown: Block,
    others: Vec<Block>,
) -> Result<Vec<Block>, AllocError>
    requires grown { IsBelow count grown }
    requires others { AreTables count others.items }
    ensures { IfOk result (λ blocks. Checks (is_live steps.now outs.now) count grown others.items blocks.items) }
{
    let columns = grown.columns.copy(alloc)?;
    let Gathered { table, rest } = gather(alloc, count, columns.as_slice(), grown, others)?;
    let last = steps.is_empty() && rest.len() == 0;
    let mut blocks = rest;
    blocks.push(cut_unless(alloc, last, steps, outs, table))?;
    Ok(blocks)
}

// The block without the columns that are named no more, unless it is not to be copied.
fn cut_unless(alloc: Global, stays: bool, steps: &[Step], outs: &[Out], block: Block) -> Block
    ensures { IsCut (is_live steps.now outs.now) block result }
{
    if stays {
        return block;
    }
    live_block(alloc, steps, outs, block)
}
