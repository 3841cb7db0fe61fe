// Rows in one buffer, copied and put together, worked out by hand.
use lists::NoMemory;
use row_text::{PackedRows, Recent};
use std::alloc::Global;
use std::test::Fail;

fn rows(alloc: Global, list: &[&[&str]]) -> Result<PackedRows, NoMemory> {
    let mut rows = PackedRows::new(alloc);
    for texts in list {
        rows = rows.with_texts(texts)?;
    }
    Ok(rows)
}

// Whether the rows are these, in this order.
fn are(rows: &PackedRows, list: &[&[&str]]) -> bool {
    if rows.len() != list.len() {
        return false;
    }
    for number in 0..list.len() {
        if number >= rows.len() || !rows.at(number).is(list[number]) {
            return false;
        }
    }
    true
}

/// The rows without those that came lately.
fn without_doubles(alloc: Global, list: &[&[&str]]) -> Result<PackedRows, NoMemory> {
    let mut recent = Recent::new(alloc, 1000)?;
    let mut kept = PackedRows::new(alloc);
    for texts in list {
        if !recent.has(&kept, texts) {
            kept = kept.with_texts(texts)?;
        }
    }
    Ok(kept)
}

#[test]
fn a_double_of_a_row_that_came_lately_is_told(rt: HostRuntime) -> Result<(), Fail> {
    let list: [&[&str]; 5] = [
        &["a", "1"],
        &["b", "1"],
        &["a", "1"],
        &["a1", ""],
        &["b", "1"],
    ];
    let kept = without_doubles(rt.alloc(), &list)?;
    assert!(rt; are(&kept, &[&["a", "1"], &["b", "1"], &["a1", ""]]));
    Ok(())
}

/// The rows copied, taken apart, packed again, and the first of them once more.
fn again(alloc: Global, list: &[&[&str]]) -> Result<PackedRows, NoMemory> {
    let packed = rows(alloc, list)?.copy(alloc)?;
    let copies = packed.rows(alloc)?;
    let again = PackedRows::from_rows(alloc, copies.as_slice())?;
    if packed.len() < 1 {
        return Ok(again);
    }
    again.with_lent(&packed.at(0))
}

#[test]
fn copies_of_packed_rows_are_the_same_rows(rt: HostRuntime) -> Result<(), Fail> {
    let made = again(rt.alloc(), &[&["x", "y"], &["z"]])?;
    assert!(rt; are(&made, &[&["x", "y"], &["z"], &["x", "y"]]));
    Ok(())
}

/// The rows of one list behind those of another.
fn behind(alloc: Global, list: &[&[&str]], more: &[&[&str]]) -> Result<PackedRows, NoMemory> {
    rows(alloc, list)?.with_all(rows(alloc, more)?)
}

#[test]
fn rows_are_put_behind_others_and_behind_none(rt: HostRuntime) -> Result<(), Fail> {
    let both = behind(rt.alloc(), &[&["x"]], &[&["y", "z"], &["x"]])?;
    assert!(rt; are(&both, &[&["x"], &["y", "z"], &["x"]]));
    let taken = behind(rt.alloc(), &[], &[&["y", "z"]])?;
    assert!(rt; are(&taken, &[&["y", "z"]]));
    Ok(())
}
