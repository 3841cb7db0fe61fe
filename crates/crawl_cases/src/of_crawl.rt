// Crawls of an office. The first round lists the directory. The second one asks for a profile by each of the values 1, 2, 3, jones and
// smith, and the third one by 101 and 103, which the profiles of 1 and 3 bring. No profile has such a number, so there is no fourth.
use crate::office::{
    Faults, NAMES_AS_NUMBERS, PEOPLE, PROFILES, STAFF, WITHOUT_METHODS, asked, is_row, lanes,
};
use crawl::crawl;
use meaning::types::{Fact, Instance};
use middleware::RunFault;
use source_trait::{Lane, Source};
use std::alloc::Global;
use std::test::Fail;
use std::thread::Threads;
use tgd_reader::read_schema;

const NO_FAULTS: Faults = Faults { attach: 0, call: 0 };

/// A crawl of the lanes by the schema of the text.
fn crawled<R: Threads + Sync, S: Source + Send + Drop>(
    rt: &R,
    alloc: Global,
    text: &str,
    lanes: &mut [Lane<S>],
    cap: u32,
) -> Result<Result<Instance, RunFault>, Fail> {
    if text.len() > 1000 || lanes.len() > 8 || cap > 1_000_000 {
        return Err(Fail::from("too long a text, too many lanes or too many calls"));
    }
    let schema = read_schema(alloc, text.as_bytes())?;
    Ok(crawl(rt, alloc, &schema, lanes, cap))
}

fn has(facts: &[Fact], rel: u32, values: &[&str]) -> bool {
    for fact in facts {
        if fact.rel == rel && is_row(fact.row.as_slice(), values) {
            return true;
        }
    }
    false
}

/// How many of the rows the facts have as those of the relation.
fn had(facts: &[Fact], rel: u32, rows: &[&[&str]]) -> usize {
    let mut count: usize = 0;
    for values in rows {
        if has(facts, rel, values) {
            count = count.saturating_add(1);
        }
    }
    count
}

/// How many facts a crawl of so many lanes gives, how many profiles and entries of the office are among them, and how many requests
/// were asked.
fn given<R: Threads + Sync>(
    rt: &R,
    alloc: Global,
    text: &str,
    count: usize,
    faults: Faults,
    cap: u32,
) -> Result<(usize, usize, usize, usize), Fail> {
    let mut lanes = lanes(alloc, count, faults)?;
    match crawled(rt, alloc, text, &mut lanes, cap)? {
        Ok(facts) => {
            let profiles = had(facts.as_slice(), 0, &PROFILES);
            let entries = had(facts.as_slice(), 1, &PEOPLE);
            Ok((facts.len(), profiles, entries, asked(&lanes)))
        }
        Err(_) => Err(Fail::from("the crawl stopped")),
    }
}

/// Why a crawl of so many lanes stops, and how many requests were asked.
fn stopped<R: Threads + Sync>(
    rt: &R,
    alloc: Global,
    text: &str,
    count: usize,
    faults: Faults,
    cap: u32,
) -> Result<(RunFault, usize), Fail> {
    let mut lanes = lanes(alloc, count, faults)?;
    match crawled(rt, alloc, text, &mut lanes, cap)? {
        Ok(_) => Err(Fail::from("the crawl did not stop")),
        Err(fault) => Ok((fault, asked(&lanes))),
    }
}

#[test]
fn a_crawl_gives_each_fact_once(rt: HostRuntime) -> Result<(), Fail> {
    for count in [1, 2] {
        let given = given(&rt, rt.alloc(), STAFF, count, NO_FAULTS, 8)?;
        assert_eq!(rt; given, (5, 2, 3, 8), "{count} lanes");
    }
    Ok(())
}

#[test]
fn a_round_that_would_pass_the_cap_is_not_asked(rt: HostRuntime) -> Result<(), Fail> {
    for (cap, made, wanted) in [(7, 6, 2), (5, 1, 5)] {
        let (fault, asked) = stopped(&rt, rt.alloc(), STAFF, 2, NO_FAULTS, cap)?;
        assert_eq!(rt; fault, RunFault::OverCalls { made, wanted, cap });
        assert_eq!(rt; asked, made as usize);
    }
    Ok(())
}

// The second call is the first one of the second round.
#[test]
fn a_failed_call_is_told_by_its_round(rt: HostRuntime) -> Result<(), Fail> {
    let faults = Faults { attach: 0, call: 2 };
    let (fault, asked) = stopped(&rt, rt.alloc(), STAFF, 1, faults, 8)?;
    assert_eq!(rt; fault, RunFault::CallFailed { branch: 0, step: 1 });
    assert_eq!(rt; asked, 2);
    Ok(())
}

// The second round receives the profiles, whose third column has a name.
#[test]
fn a_bad_number_is_told_behind_its_round(rt: HostRuntime) -> Result<(), Fail> {
    for count in [1, 2] {
        let (fault, asked) = stopped(&rt, rt.alloc(), NAMES_AS_NUMBERS, count, NO_FAULTS, 8)?;
        assert_eq!(rt;
            fault,
            RunFault::BadNumber { rel: 0, column: 2 },
            "{count} lanes"
        );
        assert_eq!(rt; asked, 6, "{count} lanes");
    }
    Ok(())
}

// The sixth call is the last one of the second round. The profiles came before it.
#[test]
fn a_failed_call_goes_before_a_bad_number(rt: HostRuntime) -> Result<(), Fail> {
    let faults = Faults { attach: 0, call: 6 };
    let (fault, asked) = stopped(&rt, rt.alloc(), NAMES_AS_NUMBERS, 1, faults, 8)?;
    assert_eq!(rt; fault, RunFault::CallFailed { branch: 0, step: 1 });
    assert_eq!(rt; asked, 6);
    Ok(())
}

// An attach would fail.
#[test]
fn without_methods_nothing_is_touched(rt: HostRuntime) -> Result<(), Fail> {
    let faults = Faults { attach: 1, call: 1 };
    for count in [0, 1] {
        let given = given(&rt, rt.alloc(), WITHOUT_METHODS, count, faults, 0)?;
        assert_eq!(rt; given, (0, 0, 0, 0), "{count} lanes");
    }
    Ok(())
}
