// The log of the requests of a source.
use lists::{NoMemory, Places, Row, Seq, Text};
use source_trait::{Request, RequestLog};
use std::alloc::Global;
use std::test::Fail;

/// Requests by relation, positions and values: two that differ in their value alone, one at another position, one without positions, and one
/// at two.
const ASKED: [(u32, &[u32], &[&str]); 5] = [
    (1, &[0], &["a"]),
    (1, &[0], &["bc"]),
    (1, &[1], &[""]),
    (2, &[], &[]),
    (2, &[0, 1], &["d", "e"]),
];

fn places(alloc: Global, positions: &[u32]) -> Result<Places, NoMemory> {
    let mut made = Seq::new(alloc);
    for position in positions {
        made.push(*position)?;
    }
    Ok(made)
}

fn row(alloc: Global, values: &[&str]) -> Result<Row, NoMemory> {
    let mut made = Seq::new(alloc);
    for value in values {
        made.push(Text::from_str(alloc, value)?)?;
    }
    Ok(made)
}

/// Notes a request of these values.
fn note(
    alloc: Global,
    log: &mut RequestLog,
    rel: u32,
    positions: &[u32],
    values: &[&str],
) -> Result<(), NoMemory> {
    let positions = places(alloc, positions)?;
    let values = row(alloc, values)?;
    log.push(alloc, rel, &positions, &values)
}

/// The log of the requests, in their order.
fn noted(alloc: Global) -> Result<RequestLog, NoMemory> {
    let mut log = RequestLog::new(alloc);
    for (rel, positions, values) in &ASKED {
        note(alloc, &mut log, *rel, positions, values)?;
    }
    Ok(log)
}

fn are_texts(texts: &[Text], values: &[&str]) -> bool {
    if texts.len() != values.len() {
        return false;
    }
    for number in 0..values.len() {
        if texts[number].as_str() != values[number] {
            return false;
        }
    }
    true
}

fn is_request(request: Option<&Request>, rel: u32, positions: &[u32], values: &[&str]) -> bool {
    match request {
        Some(request) => {
            request.rel == rel
                && request.positions.as_slice() == positions
                && are_texts(request.values.as_slice(), values)
        }
        None => false,
    }
}

/// Whether the log gives back just the requests.
fn gives_back(alloc: Global, log: &RequestLog) -> Result<bool, NoMemory> {
    let requests = log.requests(alloc)?;
    let mut same = requests.len() == ASKED.len();
    for (number, (rel, positions, values)) in ASKED.iter().enumerate() {
        same = same && is_request(requests.get(number), *rel, positions, values);
    }
    Ok(same)
}

#[test]
fn requests_are_given_back_in_their_order(rt: HostRuntime) -> Result<(), Fail> {
    let log = noted(rt.alloc())?;
    assert!(rt; log.len() == ASKED.len());
    assert!(rt; gives_back(rt.alloc(), &log)?);
    Ok(())
}
