// The text of rows.
ghost use Rattle.std.specs.Prelude.{◌≡◌, ◌++◌, IfOk, OnOk, Contains, flat_map, map};
ghost use Rattle.csv.specs.Writing.{default_writer, row_text, writer_pending, writer_under};
ghost use Rattle.row_text.specs.RowText.{IsRowText};
ghost use Rattle.row_text.specs.Writer.{IsReady};

use crate::order::ascending_members;
use crate::packed::PackedRows;
use crate::started::Started;
use csv::{Writer, WriterBuilder};
use lists::{Bytes, NoMemory, Texts};
use std::alloc::Global;

/// The text of the names, and then of the distinct rows, ascending.
pub fn csv_text(alloc: Global, names: &Texts, rows: &PackedRows) -> Result<Bytes, NoMemory>
    ensures { IfOk result (IsRowText names.now (Contains rows.now)) }
{
    let members = ascending_members(alloc, rows)?;
    let text = written(alloc, names, members.as_slice())?;
    Ok(Bytes::from_vec(text))
}

// The lines of the names and of the rows, in this order, through one writer.
fn written(alloc: Global, names: &Texts, members: &[Started<'_>]) -> Result<Vec<u8>, NoMemory>
    ensures { IfOk result (λ text. text.items ≡ row_text default_writer names.now ++ flat_map (row_text default_writer) (map (λ m. m.row) members.now)) }
{
    let mut writer = WriterBuilder::new()
        .flexible(true)
        .from_writer(Vec::new(alloc));
    write_names(alloc, &mut writer, names)?;
    let mut texts = Vec::new(alloc);
    let mut fields = Vec::new(alloc);
    for member in members {
        texts.clear();
        member.row.add_to(&mut texts)?;
        write_row(&mut writer, &mut fields, texts.as_slice())?;
    }
    match writer.into_inner() {
        Ok(text) => Ok(text),
        Err(_) => Err(NoMemory),
    }
}

// Writes the line of the names.
fn write_names(alloc: Global, writer: &mut Writer<Vec<u8>>, names: &Texts) -> Result<(), NoMemory>
    requires { IsReady writer.old }
    ensures ready { OnOk result (IsReady writer.new) }
    ensures grown { OnOk result ((writer_under writer.new).items ++ writer_pending writer.new ≡ ((writer_under writer.old).items ++ writer_pending writer.old) ++ row_text default_writer names.now) }
{
    let mut texts = Vec::with_capacity(alloc, names.len())?;
    for name in names.as_slice() {
        texts.push(name.as_str())?;
    }
    write_row(writer, &mut Vec::new(alloc), texts.as_slice())
}

// Writes the line of one row. What stood in `fields` is dropped; its memory is used again.
fn write_row<'a>(
    writer: &mut Writer<Vec<u8>>,
    fields: &mut Vec<&'a [u8]>,
    row: &[&'a str],
) -> Result<(), NoMemory>
    requires { IsReady writer.old }
    ensures ready { OnOk result (IsReady writer.new) }
    ensures grown { OnOk result ((writer_under writer.new).items ++ writer_pending writer.new ≡ ((writer_under writer.old).items ++ writer_pending writer.old) ++ row_text default_writer (map (λ s. s.now) row.now)) }
{
    fields.clear();
    for text in row {
        fields.push(text.as_bytes())?;
    }
    match writer.write_fields(fields.as_slice()) {
        Ok(()) => Ok(()),
        Err(_) => Err(NoMemory),
    }
}
