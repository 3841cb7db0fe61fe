// Each call that takes memory answers with ample memory, and the order of texts and rows is that of bytes.
use lists::{Copies, Exact, NoMemory, Places, Row, Seq, Text};
use std::alloc::Global;
use std::cmp::Ordering;
use std::test::Fail;

/// How two texts compare, and whether they are the same and equal.
fn compared(alloc: Global, left: &str, right: &str) -> Result<(Ordering, bool, bool), NoMemory> {
    let first = Text::from_str(alloc, left)?;
    let second = Text::from_str(alloc, right)?;
    Ok((first.cmp(&second), first.same(&second), first == second))
}

#[test]
fn texts_are_compared_by_their_bytes(rt: HostRuntime) -> Result<(), Fail> {
    for (left, right, order) in [
        ("1", "01", Ordering::Greater),
        ("1", "1", Ordering::Equal),
        ("10", "9", Ordering::Less),
        ("a", "ab", Ordering::Less),
        ("Z", "a", Ordering::Less),
        ("z", "é", Ordering::Less),
        ("", "a", Ordering::Less),
    ] {
        let is_equal = order == Ordering::Equal;
        let wanted = (order, is_equal, is_equal);
        assert_eq!(rt;
            compared(rt.alloc(), left, right)?,
            wanted,
            "{left} and {right}"
        );
    }
    Ok(())
}

fn row_of(alloc: Global, values: &[&str]) -> Result<Row, NoMemory> {
    let mut row = Seq::new(alloc);
    for value in values {
        row.push(Text::from_str(alloc, value)?)?;
    }
    Ok(row)
}

/// How two rows compare, and whether they are the same.
fn rows_compared(
    alloc: Global,
    left: &[&str],
    right: &[&str],
) -> Result<(Ordering, bool), NoMemory> {
    let first = row_of(alloc, left)?;
    let second = row_of(alloc, right)?;
    Ok((first.cmp(&second), first.same(&second)))
}

#[test]
fn rows_are_compared_column_by_column(rt: HostRuntime) -> Result<(), Fail> {
    let cases: [(&[&str], &[&str], (Ordering, bool)); 3] = [
        (&["1", "z"], &["10", "a"], (Ordering::Less, false)),
        (&["1"], &["1", "z"], (Ordering::Less, false)),
        (&["1", "z"], &["1", "z"], (Ordering::Equal, true)),
    ];
    for (left, right, wanted) in cases {
        assert_eq!(rt; rows_compared(rt.alloc(), left, right)?, wanted);
    }
    Ok(())
}

fn places(alloc: Global, listed: &[u32]) -> Result<Places, NoMemory> {
    let mut places: Places = Seq::new(alloc);
    for place in listed {
        places.push(*place)?;
    }
    Ok(places)
}

/// The length and the second member of a list, and the members of a copy that is cut to two.
fn cut(alloc: Global, listed: &[u32]) -> Result<(usize, Option<u32>, Vec<u32>), NoMemory> {
    let list = places(alloc, listed)?;
    let mut copy = list.copy(alloc)?;
    copy.truncate(2);
    Ok((list.len(), list.get(1).copied(), copy.into_vec()))
}

#[test]
fn a_list_keeps_what_is_pushed_and_not_cut(rt: HostRuntime) -> Result<(), Fail> {
    let (length, second, kept) = cut(rt.alloc(), &[3, 1, 2])?;
    assert!(rt; length == 3 && second == Some(1) && kept.as_slice() == [3, 1].as_slice());
    Ok(())
}

/// The characters of a copy of a text, whose first owner is gone.
fn text_again(alloc: Global, text: &str) -> Result<String, NoMemory> {
    let first = Text::from_string(String::from_str(alloc, text)?)?;
    let copy = first.copy(alloc)?;
    drop(first);
    String::from_str(alloc, copy.as_str())
}

#[test]
fn a_copy_of_a_text_outlives_it(rt: HostRuntime) -> Result<(), Fail> {
    assert_eq!(rt; text_again(rt.alloc(), "smith")?.as_str(), "smith");
    Ok(())
}

/// Whether a copy is the same value.
fn is_copied<T: Copies + Exact + Drop>(alloc: Global, value: &T) -> Result<bool, NoMemory> {
    Ok(value.copy(alloc)?.same(value))
}

#[test]
fn numbers_and_options_are_copied(rt: HostRuntime) -> Result<(), Fail> {
    let alloc = rt.alloc();
    let byte: u8 = 7;
    let number: u64 = 1_000_000_007;
    assert!(rt; is_copied(alloc, &byte)?);
    assert!(rt; is_copied(alloc, &number)?);
    assert!(rt; Some(5u32).copy(alloc)? == Some(5));
    assert!(rt; None::<u32>.copy(alloc)? == None);
    Ok(())
}
