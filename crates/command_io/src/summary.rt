// The line that sums up an execution.
ghost use Rattle.std.specs.Prelude.{◌≡◌, ◌++◌, IfOk, OnOk, codes};
ghost use Rattle.std.specs.Fmt.{decimal};
ghost use Rattle.command_io.specs.Reports.{last_line as line_of_last, summary as line_of};

use lists::{Bytes, NoMemory};
use middleware::Run;
use pq_text::print_number;
use row_text::{PackedRows, csv_text};
use std::alloc::Global;

/// The line for the world of a size: how many requests were made, how many rows they gave, and the last row.
pub fn summary(alloc: Global, size: u32, run: &Run) -> Result<Bytes, NoMemory>
    ensures { IfOk result (λ line. line ≡ line_of size run.now.made run.now.rows) }
{
    let last = last_line(alloc, &run.rows)?;
    let mut line = Vec::new(alloc);
    push_counts(&mut line, size, run.made, run.rows.len())?;
    line.extend_from_slice(last.as_slice())?;
    Ok(Bytes::from_vec(line))
}

// The line up to the last row.
fn push_counts(line: &mut Vec<u8>, size: u32, made: u32, rows: usize) -> Result<(), NoMemory>
    ensures { OnOk result (line.new.items ≡ line.old.items ++ codes "world " ++ decimal size ++ codes ": " ++ decimal made ++ codes " requests, " ++ decimal rows ++ codes " rows, last ") }
{
    line.extend_from_slice(b"world ")?;
    print_number(line, size as u64)?;
    line.extend_from_slice(b": ")?;
    print_number(line, made as u64)?;
    line.extend_from_slice(b" requests, ")?;
    print_number(line, rows as u64)?;
    line.extend_from_slice(b" rows, last ")
}

// The text of the last row, with its line feed; a line feed where there is no row.
fn last_line(alloc: Global, rows: &PackedRows) -> Result<Bytes, NoMemory>
    ensures { IfOk result (λ line. line ≡ line_of_last rows.now) }
{
    if rows.len() == 0 {
        return Ok(Bytes::from_vec(Vec::from_slice(alloc, b"\n")?));
    }
    let last = rows.at(rows.len() - 1).copy(alloc)?;
    csv_text(alloc, &last, &PackedRows::new(alloc))
}
