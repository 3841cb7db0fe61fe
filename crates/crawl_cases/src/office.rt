// An office in memory: profiles of employees behind a look-up by a number, and a directory that is listed.
use lists::{NoMemory, Numbers, Row, Seq, Text};
use source_trait::{Kind, Lane, MemorySource, Source, Table, Tables, locators_differ};
use std::alloc::Global;
use std::test::Fail;

/// The schema of the office, one by which the names of profiles would be numbers, and one of its relations without methods and without
/// source lines.
pub(crate) const STAFF: &str = "relation profinfo(eid, onum, lname)
relation udirect(eid, lname)
method prof_by_eid on profinfo(eid) cost 2
method all_direct on udirect() cost 5
rule profinfo(e, o, l) -> udirect(e, l)
source profinfo csv 'profinfo.csv'
source udirect csv 'udirect.csv'
";

pub(crate) const NAMES_AS_NUMBERS: &str = "schema 2
relation profinfo(eid int, onum int, lname int)
relation udirect(eid int, lname)
method prof_by_eid on profinfo(eid) cost 2
method all_direct on udirect() cost 5
source profinfo csv 'profinfo.csv'
source udirect csv 'udirect.csv'
";

pub(crate) const WITHOUT_METHODS: &str = "relation profinfo(eid, onum, lname)
relation udirect(eid, lname)
";

/// Two profiles of the name smith.
pub(crate) const PROFILES: [&[&str]; 2] = [&["1", "101", "smith"], &["3", "103", "smith"]];

/// A directory of three people.
pub(crate) const PEOPLE: [&[&str]; 3] = [&["1", "smith"], &["2", "jones"], &["3", "smith"]];

/// Whether the row has just these values.
pub(crate) fn is_row(row: &[Text], values: &[&str]) -> bool {
    if row.len() != values.len() {
        return false;
    }
    for number in 0..values.len() {
        if row[number].as_str() != values[number] {
            return false;
        }
    }
    true
}

fn row(alloc: Global, values: &[&str]) -> Result<Row, NoMemory> {
    let mut row = Seq::new(alloc);
    for value in values {
        row.push(Text::from_str(alloc, value)?)?;
    }
    Ok(row)
}

fn table(alloc: Global, locator: &str, list: &[&[&str]]) -> Result<Table, Fail> {
    let locator = Text::from_str(alloc, locator)?;
    let mut rows = Seq::new(alloc);
    for values in list {
        rows.push(row(alloc, values)?)?;
    }
    if rows.len() > 100 {
        return Err(Fail::from("a table has more than 100 rows"));
    }
    Ok(Table { locator, rows })
}

fn tables(alloc: Global) -> Result<Tables, Fail> {
    let mut tables = Seq::new(alloc);
    tables.push(table(alloc, "profinfo.csv", &PROFILES)?)?;
    tables.push(table(alloc, "udirect.csv", &PEOPLE)?)?;
    Ok(tables)
}

/// The list of the number, and the empty list of 0.
fn listed(alloc: Global, number: u64) -> Result<Numbers, NoMemory> {
    let mut numbers = Seq::new(alloc);
    if number > 0 {
        numbers.push(number)?;
    }
    Ok(numbers)
}

/// The attach and the call that fail, by their numbers from 1, and 0 where none does.
#[derive(Clone, Copy)]
pub(crate) struct Faults {
    pub(crate) attach: u64,
    pub(crate) call: u64,
}

fn source(alloc: Global, faults: Faults) -> Result<MemorySource, Fail> {
    let tables = tables(alloc)?;
    if !locators_differ(&tables) {
        return Err(Fail::from("two tables have one locator"));
    }
    let attaches = listed(alloc, faults.attach)?;
    let calls = listed(alloc, faults.call)?;
    Ok(MemorySource::new(alloc, tables, attaches, calls))
}

/// A lane of the office.
fn lane(alloc: Global, faults: Faults) -> Result<Lane<MemorySource>, Fail> {
    let object = source(alloc, faults)?;
    let name = Text::from_str(alloc, "csv")?;
    let mut kinds = Vec::new(alloc);
    kinds.push(Kind { name, object })?;
    Ok(Lane::new(kinds))
}

/// So many lanes of the office.
pub(crate) fn lanes(
    alloc: Global,
    count: usize,
    faults: Faults,
) -> Result<Vec<Lane<MemorySource>>, Fail> {
    let mut lanes = Vec::new(alloc);
    for _ in 0..count {
        lanes.push(lane(alloc, faults)?)?;
    }
    Ok(lanes)
}

/// How many requests the sources of a lane were asked.
fn asked_of<S: Source>(lane: &Lane<S>) -> usize {
    let mut count: usize = 0;
    for kind in &lane.kinds {
        if let Some(log) = kind.object.told() {
            count = count.saturating_add(log.len());
        }
    }
    count
}

/// How many requests the lanes were asked together.
pub(crate) fn asked<S: Source>(lanes: &[Lane<S>]) -> usize {
    let mut count: usize = 0;
    for lane in lanes {
        count = count.saturating_add(asked_of(lane));
    }
    count
}
