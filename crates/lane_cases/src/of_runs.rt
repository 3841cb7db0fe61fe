// Runs of the program's top call on two lanes, whose look-ups wait for one another.
use crate::office::{
    Faults, NO_FAULTS, PLAN, PROFILES, ROWS, are_first_then, asked, kind, lane, office, outside,
    ran,
};
use lists::{Places, Row, Text, Texts};
use row_text::PackedRows;
use source_trait::{AttachFault, CallFault, Lane, MemorySource, RequestLog, Source};
use std::alloc::Global;
use std::sync::atomic::{AtomicU64, Ordering};
use std::test::Fail;
use std::thread::Threads;

// A source in memory whose look-ups of profiles wait for those of another lane: each raises a shared count, looks at it until it is at
// least 2, and where it was so raises a second one.
#[derive(Drop)]
struct Meeting<'a> {
    own: MemorySource,
    called: &'a AtomicU64,
    met: &'a AtomicU64,
}

impl<'a> Meeting<'a> {
    fn meets(&self) {
        self.called.fetch_add(1, Ordering::SeqCst);
        for _ in 0..200_000_000u64 {
            if self.called.load(Ordering::SeqCst) >= 2 {
                self.met.fetch_add(1, Ordering::SeqCst);
                return;
            }
        }
    }
}

impl<'a> Source for Meeting<'a> {
    ghost seen = { λ m. ⟦<MemorySource as Source>⟧.seen m.own };

    fn attach(
        &mut self,
        alloc: Global,
        rel: u32,
        columns: &Texts,
        locator: &Text,
    ) -> Result<(), AttachFault> {
        self.own.attach(alloc, rel, columns, locator)
    }

    fn call(
        &mut self,
        alloc: Global,
        rel: u32,
        positions: &Places,
        values: &Row,
    ) -> Result<PackedRows, CallFault> {
        if rel == PROFILES {
            self.meets();
        }
        self.own.call(alloc, rel, positions, values)
    }

    fn told(&self) -> Option<&RequestLog> {
        self.own.told()
    }
}

/// The facts that the methods reach: all that is in the office.
const FACTS: &str = "profinfo('1', '101', 'smith')
profinfo('3', '103', 'smith')
udirect('1', 'smith')
udirect('2', 'jones')
udirect('3', 'smith')
";

/// What a batch of the query and of all names writes to standard output and to standard error.
const BOTH: (&str, &str) = (
    "-- query 1
eid,onum
1,101
3,103
-- query 2
lname
jones
smith
",
    "# query 1
# select 1 cost 7 least
plan 2
branch
access all_direct(new, 'smith')
access prof_by_eid($0, new, 'smith')
output $0, $1
end
# query 2
# select 1 cost 5 least
plan 1
branch
access all_direct(new, new)
output $1
end
",
);

/// What a batch of two look-ups writes.
const APART: (&str, &str) = (
    "-- query 1
onum
101
-- query 2
onum
103
",
    "# query 1
# select 1 cost 2 least
plan 1
branch
access prof_by_eid('1', new, new)
output $0
end
# query 2
# select 1 cost 2 least
plan 1
branch
access prof_by_eid('3', new, new)
output $0
end
",
);

// Whether these words end well over two lanes whose look-ups raise these counts, and write just these texts to standard output and
// standard error.
fn writes_by_two<R: Threads + Sync>(
    rt: &R,
    alloc: Global,
    words: &[&str],
    wanted: (&str, &str),
    called: &AtomicU64,
    met: &AtomicU64,
) -> Result<bool, Fail> {
    let mut lanes = Vec::new(alloc);
    for _ in 0..2 {
        let own = office(alloc, NO_FAULTS)?;
        lanes.push(lane(alloc, Meeting { own, called, met })?)?;
    }
    let mut outside = outside(alloc, NO_FAULTS)?;
    let code = ran(rt, alloc, words, &mut outside, &mut lanes)?;
    let (out, err) = wanted;
    let wrote = &outside.outputs;
    Ok(code == 0 && wrote.out.bytes() == out.as_bytes() && wrote.err.bytes() == err.as_bytes())
}

// Each of the two look-ups waits until the other one is asked too: on one lane the first would wait in vain.
#[test]
fn two_workers_ask_at_once(rt: HostRuntime) -> Result<(), Fail> {
    let called = AtomicU64::new(0);
    let met = AtomicU64::new(0);
    let words = ["run", "s.pdq", "q.sql", "--workers", "2"];
    assert!(rt; writes_by_two(&rt, rt.alloc(), &words, (ROWS, PLAN), &called, &met)?);
    assert_eq!(rt; met.load(Ordering::SeqCst), 2);
    assert_eq!(rt; called.load(Ordering::SeqCst), 2);
    Ok(())
}

// A crawl looks up five values in its second round and two in its third: the first look-up waits until another one is asked too.
#[test]
fn two_workers_crawl_at_once(rt: HostRuntime) -> Result<(), Fail> {
    let called = AtomicU64::new(0);
    let met = AtomicU64::new(0);
    let words = ["crawl", "s.pdq", "--workers", "2"];
    assert!(rt; writes_by_two(&rt, rt.alloc(), &words, (FACTS, ""), &called, &met)?);
    assert_eq!(rt; met.load(Ordering::SeqCst), 7);
    assert_eq!(rt; called.load(Ordering::SeqCst), 7);
    Ok(())
}

// The directory is listed once for both queries, and then the two look-ups of the first one wait for one another.
#[test]
fn two_workers_share_a_batch(rt: HostRuntime) -> Result<(), Fail> {
    let called = AtomicU64::new(0);
    let met = AtomicU64::new(0);
    let words = [
        "batch",
        "s.pdq",
        "both.sql",
        "--workers",
        "2",
        "--calls",
        "3",
    ];
    assert!(rt; writes_by_two(&rt, rt.alloc(), &words, BOTH, &called, &met)?);
    assert_eq!(rt; met.load(Ordering::SeqCst), 2);
    assert_eq!(rt; called.load(Ordering::SeqCst), 2);
    Ok(())
}

// Each query looks up one profile, in the same round: asked one query after another, the first look-up would wait in vain.
#[test]
fn two_queries_are_asked_at_once(rt: HostRuntime) -> Result<(), Fail> {
    let called = AtomicU64::new(0);
    let met = AtomicU64::new(0);
    let words = ["batch", "s.pdq", "apart.sql", "--workers", "2"];
    assert!(rt; writes_by_two(&rt, rt.alloc(), &words, APART, &called, &met)?);
    assert_eq!(rt; met.load(Ordering::SeqCst), 2);
    assert_eq!(rt; called.load(Ordering::SeqCst), 2);
    Ok(())
}

// A lane whose profiles are a source of their own, with these faults, and raise the counts.
fn lane_of_two_kinds<'a>(
    alloc: Global,
    faults: Faults,
    called: &'a AtomicU64,
    met: &'a AtomicU64,
) -> Result<Lane<Meeting<'a>>, Fail> {
    let mut kinds = Vec::new(alloc);
    let own = office(alloc, faults)?;
    kinds.push(kind(alloc, "profiles", Meeting { own, called, met })?)?;
    let own = office(alloc, NO_FAULTS)?;
    kinds.push(kind(alloc, "csv", Meeting { own, called, met })?)?;
    Ok(Lane::new(kinds))
}

/// The employee whose profile the only request of the lane's first source asked for.
fn looked_up<S: Source>(alloc: Global, lane: &Lane<S>) -> Result<Text, Fail> {
    let [profiles, _] = lane.kinds.as_slice() else {
        return Err(Fail::from("a lane has not two sources"));
    };
    let Some(log) = profiles.object.told() else {
        return Err(Fail::from("a source does not tell its requests"));
    };
    only_value(alloc, log)
}

/// The only value of the only request of a log.
fn only_value(alloc: Global, log: &RequestLog) -> Result<Text, Fail> {
    let requests = log.requests(alloc)?;
    let [request] = requests.as_slice() else {
        return Err(Fail::from("a log has not one request"));
    };
    let [value] = request.values.as_slice() else {
        return Err(Fail::from("a request has not one value"));
    };
    Ok(Text::from_str(alloc, value.as_str())?)
}

/// How many requests the second sources of both lanes were asked together.
fn listed_times<S: Source>(failed: &Lane<S>, other: &Lane<S>) -> usize {
    match (failed.kinds.as_slice(), other.kinds.as_slice()) {
        ([_, one], [_, two]) => asked(one).saturating_add(asked(two)),
        _ => 0,
    }
}

/// Whether the first lane is stopped and the second is not, each was asked for one of the two profiles, and the directory was listed once.
fn first_alone_stopped<S: Source>(alloc: Global, lanes: &[Lane<S>]) -> Result<bool, Fail> {
    let [failed, other] = lanes else {
        return Err(Fail::from("there are not two lanes"));
    };
    let one = looked_up(alloc, failed)?;
    let two = looked_up(alloc, other)?;
    let both = one.as_str() == "1" && two.as_str() == "3"
        || one.as_str() == "3" && two.as_str() == "1";
    Ok(both && listed_times(failed, other) == 1 && failed.stopped && !other.stopped)
}

/// Whether a run of two workers reports the failed look-up of the first lane, and the second lane has done its own.
fn fails_on_the_first<R: Threads + Sync>(
    rt: &R,
    alloc: Global,
    called: &AtomicU64,
    met: &AtomicU64,
) -> Result<bool, Fail> {
    let faults = Faults {
        call: 1,
        ..NO_FAULTS
    };
    let mut lanes = Vec::new(alloc);
    lanes.push(lane_of_two_kinds(alloc, faults, called, met)?)?;
    lanes.push(lane_of_two_kinds(alloc, NO_FAULTS, called, met)?)?;
    let mut outside = outside(alloc, NO_FAULTS)?;
    let words = ["run", "two.pdq", "q.sql", "--workers", "2"];
    let code = ran(rt, alloc, &words, &mut outside, &mut lanes)?;
    let wrote = &outside.outputs;
    let line = "call failed in branch 1 step 2\n";
    let reported = are_first_then(wrote.err.bytes(), PLAN, PLAN.len(), line);
    Ok(
        code == 5
            && reported
            && wrote.out.bytes().is_empty()
            && first_alone_stopped(alloc, lanes.as_slice())?,
    )
}

// The look-ups of both lanes are under way when one of them fails.
#[test]
fn a_failed_call_leaves_that_of_the_other_lane(rt: HostRuntime) -> Result<(), Fail> {
    let called = AtomicU64::new(0);
    let met = AtomicU64::new(0);
    assert!(rt; fails_on_the_first(&rt, rt.alloc(), &called, &met)?);
    assert_eq!(rt; met.load(Ordering::SeqCst), 2);
    Ok(())
}
