// The outputs of a branch.
ghost use Rattle.std.specs.Prelude.{◌≡◌, ◌∷◌, [], List, ℕ, Contains, IfOk, OnOk, map, true};
ghost use Rattle.meaning.specs.declared.types.Out.{Out};
ghost use Rattle.meaning.specs.declared.types.Out.TheVariants.{Col as Made};
ghost use Rattle.middleware.specs.Blocks.{AreTables, HaveLive};
ghost use Rattle.middleware.specs.BlockRounds.{AddsOutputs, out_of};
ghost use Rattle.middleware.specs.Branches.{IsReadyOut, out_value, output_of, HasAdded};
ghost use Rattle.middleware.specs.Live.{is_shown};

use crate::blocks::{Block, Gathered, gather, no_columns};
use crate::naming::{fitting, number_of};
use crate::partial_rows::text_at;
use lists::{Copies, Seq};
use meaning::types::{Out, Outs};
use row_text::{LentRow, PackedRows, Recent};
use std::alloc::{AllocError, Global};

/// Adds the outputs of the partial rows in blocks, but for most doubles. A block that the output does not name has a row, and adds nothing.
pub fn add_outputs(
    alloc: Global,
    outs: &[Out],
    count: u32,
    blocks: Vec<Block>,
    into: PackedRows,
) -> Result<PackedRows, AllocError>
    requires tables { AreTables count blocks.items }
    requires live { HaveLive (is_shown outs.now) count blocks.items }
    requires ready { (out : Out) → Contains outs.now out → IsReadyOut count out }
    ensures { IfOk result (λ more. AddsOutputs outs.now count blocks.items into more) }
{
    let shown = shown_columns(alloc, outs)?;
    let first = no_columns(alloc)?;
    let Gathered { table, rest } = gather(alloc, count, shown.as_slice(), first, blocks)?;
    drop(rest);
    let local = local_outs(alloc, table.columns.as_slice(), outs)?;
    add_rows(alloc, local.as_slice(), &table.rows, into)
}

// The columns of the output.
fn shown_columns(alloc: Global, outs: &[Out]) -> Result<Vec<u32>, AllocError>
    ensures { IfOk result (λ columns. (k : ℕ) → is_shown outs.now k ≡ true → Contains columns.items k) }
{
    let mut columns = Vec::new(alloc);
    let mut left = outs;
    while let [out, rest @ ..] = left {
        if let Out::Col(column) = out {
            columns.push(*column)?;
        }
        left = rest;
    }
    Ok(columns)
}

// The output places of a table with these columns.
fn local_outs(alloc: Global, columns: &[u32], outs: &[Out]) -> Result<Outs, AllocError>
    requires { (k : ℕ) → Contains outs.now (Made k) → Contains columns.now k }
    ensures { IfOk result (λ locals. (texts : ℕ → List ℕ) → output_of locals (map texts columns.now) ≡ map (out_of texts) outs.now) }
{
    let mut locals = Seq::new(alloc);
    for out in outs {
        locals.push(local_out(alloc, columns, out)?)?;
    }
    Ok(locals)
}

fn local_out(alloc: Global, columns: &[u32], out: &Out) -> Result<Out, AllocError>
    requires { (k : ℕ) → out.now ≡ Made k → Contains columns.now k }
    ensures { IfOk result (λ local. (texts : ℕ → List ℕ) → out_value (map texts columns.now) local ≡ out_of texts out.now) }
{
    match out {
        Out::Const(text) => Ok(Out::Const(text.copy(alloc)?)),
        Out::Col(column) => match number_of(columns, *column) {
            Some(number) => Ok(Out::Col(fitting(number)?)),
            None => unreachable!(),
        },
    }
}

// Adds the outputs of the rows, but for most doubles.
fn add_rows(
    alloc: Global,
    outs: &[Out],
    rows: &PackedRows,
    into: PackedRows,
) -> Result<PackedRows, AllocError>
    ensures { IfOk result (λ more. HasAdded into (map (output_of outs.now) rows.now) more) }
{
    let mut recent = Recent::new(alloc, rows.len())?;
    let mut texts = Vec::new(alloc);
    let mut more = into;
    for number in 0..rows.len() {
        output_texts(outs, &rows.at(number), &mut texts)?;
        more = add_row(texts.as_slice(), &mut recent, more)?;
    }
    Ok(more)
}

// Adds the row of these texts, where it is no double of one that came lately.
fn add_row(texts: &[&str], recent: &mut Recent, into: PackedRows) -> Result<PackedRows, AllocError>
    ensures { IfOk result (λ more. HasAdded into (map (λ s. s.now) texts.now ∷ []) more) }
{
    if recent.has(&into, texts) {
        return Ok(into);
    }
    into.with_texts(texts)
}

// The texts of the output places, in place of those that were there.
fn output_texts<'a>(
    outs: &'a [Out],
    row: &LentRow<'a>,
    texts: &mut Vec<&'a str>,
) -> Result<(), AllocError>
    ensures { OnOk result (map (λ s. s.now) texts.new.items ≡ output_of outs.now row.now) }
{
    texts.clear();
    for out in outs {
        texts.push(out_text(out, row))?;
    }
    Ok(())
}

fn out_text<'a>(out: &'a Out, row: &LentRow<'a>) -> &'a str
    ensures { result.now ≡ out_value row.now out.now }
{
    match out {
        Out::Const(text) => text.as_str(),
        Out::Col(column) => text_at(row, *column),
    }
}
