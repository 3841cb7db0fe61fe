// Requests noted in a book.
use lists::{NoMemory, Places, Seq, Text};
use row_text::PackedRows;
use shared_rounds::Book;
use std::alloc::Global;
use std::test::Fail;

fn rows(alloc: Global, values: &[&str]) -> Result<PackedRows, NoMemory> {
    let mut rows = PackedRows::new(alloc);
    for value in values {
        rows = rows.with_texts(&[*value])?;
    }
    Ok(rows)
}

/// The numbers of two requests of a relation, with the second values at its first column, behind those with the first values; and how
/// many requests there are then.
fn noted(
    alloc: Global,
    first: &PackedRows,
    second: &PackedRows,
) -> Result<(usize, usize, usize), NoMemory> {
    let kind = Text::from_str(alloc, "csv")?;
    let mut positions: Places = Seq::new(alloc);
    positions.push(0)?;
    let mut book = Book::new(alloc);
    drop(book.note_all(alloc, &kind, 2, &positions, first)?);
    let numbers = book.note_all(alloc, &kind, 2, &positions, second)?;
    let (one, other) = match numbers.as_slice() {
        [one, other] => (*one, *other),
        _ => (0, 0),
    };
    Ok((one, other, book.asked.len()))
}

// The second request is there from the first time, and the third one is new.
#[test]
fn a_request_keeps_its_number(rt: HostRuntime) -> Result<(), Fail> {
    let alloc = rt.alloc();
    let first = rows(alloc, &["1", "3"])?;
    let second = rows(alloc, &["3", "4"])?;
    assert_eq!(rt; noted(alloc, &first, &second)?, (1, 2, 3));
    Ok(())
}
