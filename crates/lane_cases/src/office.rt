// An office in memory: profiles of employees behind a look-up, a directory that is listed, and what runs over them read and write.
use command_io::{Outputs, Outside};
use lists::{Bytes, Numbers, Row, Seq, Text};
use pdq_core::run_words;
use source_trait::{
    Files, Kind, Lane, MemoryFiles, MemorySink, MemorySource, NamedFile, Sink, Source, Table,
    Tables, locators_differ, names_differ,
};
use std::alloc::{AllocError, Global};
use std::test::Fail;
use std::thread::Threads;

/// The relations, the methods and the rule. The sources of `s.pdq` are of one kind, and those of `two.pdq` of two.
const RELATIONS: &str = "relation profinfo(eid, onum, lname)
relation udirect(eid, lname)
method prof_by_eid on profinfo(eid) cost 2
method all_direct on udirect() cost 5
rule profinfo(e, o, l) -> udirect(e, l)
";

const SOURCES: &str = "source profinfo csv 'profinfo.csv'
source udirect csv 'udirect.csv'
";

const SOURCES_OF_TWO_KINDS: &str = "source profinfo profiles 'profinfo.csv'
source udirect csv 'udirect.csv'
";

/// The query of `q.sql`, and that of `none.sql`, which has no answer.
const QUERY: &str = "SELECT DISTINCT eid, onum FROM profinfo WHERE lname = 'smith'";

const NO_ANSWER: &str = "SELECT DISTINCT eid, onum FROM profinfo WHERE lname = 'nobody'";

/// The second query of `both.sql`, whose first one is that of `q.sql`.
const NAMES: &str = "; SELECT DISTINCT lname FROM udirect";

/// The queries of `apart.sql`, each of which looks up one profile.
const FIRST: &str = "SELECT DISTINCT onum FROM profinfo WHERE eid = '1'";

const THIRD: &str = "; SELECT DISTINCT onum FROM profinfo WHERE eid = '3'";

/// What a run of the query writes to standard error, 125 bytes.
pub(crate) const PLAN: &str = "# select 1 cost 7 least
plan 2
branch
access all_direct(new, 'smith')
access prof_by_eid($0, new, 'smith')
output $0, $1
end
";

/// What a run of the query writes to standard output, 21 bytes.
pub(crate) const ROWS: &str = "eid,onum
1,101
3,103
";

/// The words of a run of the query.
pub(crate) const RUN: [&str; 3] = ["run", "s.pdq", "q.sql"];

/// The relation `profinfo` of the schema.
pub(crate) const PROFILES: u32 = 0;

/// Two profiles of the name smith.
const PROFILE_ROWS: [&[&str]; 2] = [&["1", "101", "smith"], &["3", "103", "smith"]];

/// A directory of three people.
const PEOPLE_ROWS: [&[&str]; 3] = [&["1", "smith"], &["2", "jones"], &["3", "smith"]];

/// The calls that fail, by their numbers from 1, and 0 where none does: reads of files, writes to standard error, attaches, calls, and
/// writes to standard output.
#[derive(Clone, Copy)]
pub(crate) struct Faults {
    pub(crate) read: u64,
    pub(crate) err: u64,
    pub(crate) attach: u64,
    pub(crate) call: u64,
    pub(crate) out: u64,
}

pub(crate) const NO_FAULTS: Faults = Faults {
    read: 0,
    err: 0,
    attach: 0,
    call: 0,
    out: 0,
};

/// The list of the number, and the empty list of 0.
fn listed(alloc: Global, number: u64) -> Result<Numbers, AllocError> {
    let mut numbers = Seq::new(alloc);
    if number > 0 {
        numbers.push(number)?;
    }
    Ok(numbers)
}

fn row(alloc: Global, words: &[&str]) -> Result<Row, AllocError> {
    let mut row = Seq::new(alloc);
    for word in words {
        row.push(Text::from_str(alloc, word)?)?;
    }
    Ok(row)
}

fn table(alloc: Global, locator: &str, list: &[&[&str]]) -> Result<Table, Fail> {
    let locator = Text::from_str(alloc, locator)?;
    let mut rows = Seq::new(alloc);
    for words in list {
        rows.push(row(alloc, words)?)?;
    }
    if rows.len() > 100 {
        return Err(Fail::from("a table has more than 100 rows"));
    }
    Ok(Table { locator, rows })
}

/// The profiles and the directory.
pub(crate) fn tables(alloc: Global) -> Result<Tables, Fail> {
    let mut tables = Seq::new(alloc);
    tables.push(table(alloc, "profinfo.csv", &PROFILE_ROWS)?)?;
    tables.push(table(alloc, "udirect.csv", &PEOPLE_ROWS)?)?;
    Ok(tables)
}

/// The profiles without the directory.
pub(crate) fn profiles_alone(alloc: Global) -> Result<Tables, Fail> {
    let mut tables = Seq::new(alloc);
    tables.push(table(alloc, "profinfo.csv", &PROFILE_ROWS)?)?;
    Ok(tables)
}

/// A source of the tables.
pub(crate) fn source(alloc: Global, tables: Tables, faults: Faults) -> Result<MemorySource, Fail> {
    if !locators_differ(&tables) {
        return Err(Fail::from("two tables have one locator"));
    }
    let attaches = listed(alloc, faults.attach)?;
    let calls = listed(alloc, faults.call)?;
    Ok(MemorySource::new(alloc, tables, attaches, calls))
}

/// A source of the profiles and the directory.
pub(crate) fn office(alloc: Global, faults: Faults) -> Result<MemorySource, Fail> {
    let tables = tables(alloc)?;
    source(alloc, tables, faults)
}

pub(crate) fn kind<S: Drop>(alloc: Global, name: &str, object: S) -> Result<Kind<S>, AllocError> {
    let name = Text::from_str(alloc, name)?;
    Ok(Kind { name, object })
}

/// A lane of one source, of the kind `csv`.
pub(crate) fn lane<S: Drop>(alloc: Global, object: S) -> Result<Lane<S>, AllocError> {
    let mut kinds = Vec::new(alloc);
    kinds.push(kind(alloc, "csv", object)?)?;
    Ok(Lane::new(kinds))
}

/// One lane of one source, of the kind `csv`.
pub(crate) fn one_lane<S: Drop>(alloc: Global, object: S) -> Result<Vec<Lane<S>>, AllocError> {
    let mut lanes = Vec::new(alloc);
    lanes.push(lane(alloc, object)?)?;
    Ok(lanes)
}

/// A file of two texts, one behind the other.
fn file(alloc: Global, name: &str, text: &str, more: &str) -> Result<NamedFile, AllocError> {
    let name = Text::from_str(alloc, name)?;
    let mut bytes = text.as_bytes().to_vec(alloc)?;
    bytes.extend_from_slice(more.as_bytes())?;
    Ok(NamedFile {
        name,
        bytes: Bytes::from_vec(bytes),
    })
}

/// The files of both schemas, of both queries and of both batches.
fn files(alloc: Global, faults: Faults) -> Result<MemoryFiles, Fail> {
    let mut files = Seq::new(alloc);
    files.push(file(alloc, "s.pdq", RELATIONS, SOURCES)?)?;
    files.push(file(alloc, "two.pdq", RELATIONS, SOURCES_OF_TWO_KINDS)?)?;
    files.push(file(alloc, "q.sql", QUERY, "")?)?;
    files.push(file(alloc, "none.sql", NO_ANSWER, "")?)?;
    files.push(file(alloc, "both.sql", QUERY, NAMES)?)?;
    files.push(file(alloc, "apart.sql", FIRST, THIRD)?)?;
    if !names_differ(&files) {
        return Err(Fail::from("two files have one name"));
    }
    let reads = listed(alloc, faults.read)?;
    Ok(MemoryFiles::new(alloc, files, reads))
}

/// The files, and two sinks that take one byte a write.
pub(crate) fn outside(
    alloc: Global,
    faults: Faults,
) -> Result<Outside<MemoryFiles, MemorySink, MemorySink>, Fail> {
    let files = files(alloc, faults)?;
    let out = listed(alloc, faults.out)?;
    let err = listed(alloc, faults.err)?;
    Ok(Outside {
        files,
        outputs: Outputs {
            out: MemorySink::new(alloc, 1, out),
            err: MemorySink::new(alloc, 1, err),
        },
    })
}

fn texts(alloc: Global, words: &[&str]) -> Result<Vec<Text>, AllocError> {
    let mut texts = Vec::new(alloc);
    for word in words {
        texts.push(Text::from_str(alloc, word)?)?;
    }
    Ok(texts)
}

/// The exit code of the command that the words are.
pub(crate) fn ran<R: Threads + Sync, F: Files, S: Source + Send + Drop, O: Sink, E: Sink>(
    rt: &R,
    alloc: Global,
    words: &[&str],
    outside: &mut Outside<F, O, E>,
    lanes: &mut Vec<Lane<S>>,
) -> Result<u8, AllocError> {
    let words = texts(alloc, words)?;
    Ok(run_words(rt, alloc, words.as_slice(), outside, lanes).code())
}

/// How many requests a source was asked, where it tells them.
pub(crate) fn asked<S: Source>(kind: &Kind<S>) -> usize {
    match kind.object.told() {
        Some(log) => log.len(),
        None => 0,
    }
}

/// Whether the bytes are the first `count` of the text, and the line behind them.
pub(crate) fn are_first_then(bytes: &[u8], text: &str, count: usize, line: &str) -> bool {
    if bytes.len() < count || text.len() < count {
        return false;
    }
    let (first, behind) = bytes.split_at(count);
    let (wanted, _) = text.as_bytes().split_at(count);
    first == wanted && behind == line.as_bytes()
}
