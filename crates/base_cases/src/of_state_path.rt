// Paths of states that go on and back.
use lists::NoMemory;
use state_path::StatePath;
use std::alloc::Global;
use std::test::Fail;

/// The states that add these numbers, one after another.
fn path_of(alloc: Global, numbers: &[u32]) -> Result<StatePath<u32>, NoMemory> {
    let mut path = StatePath::new(alloc);
    for number in numbers {
        path.push(*number)?;
    }
    Ok(path)
}

/// Whether the states add just these numbers.
fn adds(path: &StatePath<u32>, numbers: &[u32]) -> bool {
    let mut same = path.len() == numbers.len();
    for (at, number) in numbers.iter().enumerate() {
        same = same && path.get(at) == Some(number);
    }
    same
}

#[test]
fn a_path_goes_back_and_on_another_way(rt: HostRuntime) -> Result<(), Fail> {
    let mut path = path_of(rt.alloc(), &[5, 6, 7])?;
    assert!(rt; adds(&path, &[5, 6, 7]));
    path.truncate(1);
    assert!(rt; adds(&path, &[5]));
    path.push(8)?;
    path.push(9)?;
    path.push(10)?;
    assert!(rt; adds(&path, &[5, 8, 9, 10]));
    path.pop();
    assert!(rt; adds(&path, &[5, 8, 9]));
    assert!(rt; path.get(3).is_none());
    Ok(())
}

#[test]
fn a_path_goes_back_to_where_it_began_and_no_further(rt: HostRuntime) -> Result<(), Fail> {
    let mut path = path_of(rt.alloc(), &[5, 6])?;
    path.truncate(7);
    assert!(rt; adds(&path, &[5, 6]));
    path.truncate(0);
    assert!(rt; adds(&path, &[]));
    path.pop();
    assert!(rt; adds(&path, &[]));
    Ok(())
}
