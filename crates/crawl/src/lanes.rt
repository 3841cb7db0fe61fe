// Lanes crawled: the reachable relations attached, and rounds asked until there is nothing left to ask.
ghost use Rattle.std.specs.Prelude.{◌≡◌, ◌↔◌, ◌<◌, ◌≤◌, [], ℕ, Contains, IfOk, IfErr, IsSome, length, map, slice_get};
ghost use Rattle.std.specs.List.Sorted.{IsStrictlyIncreasing};
ghost use Rattle.meaning.specs.declared.types.Fact.{Fact};
ghost use Rattle.meaning.specs.declared.types.Method.{Method};
ghost use Rattle.meaning.specs.Instances.{IsInstance};
ghost use Rattle.meaning.specs.Matching.{itself};
ghost use Rattle.meaning.specs.Search.{AreDistinct};
ghost use Rattle.meaning.specs.Sorts.{AreSorted};
ghost use Rattle.access_schema.specs.Meaning.{meaning_of};
ghost use Rattle.source_trait.specs.Lanes.{LanesStay};
ghost use Rattle.middleware.specs.LaneBranches.{OnEach};
ghost use Rattle.middleware.specs.LaneRunning.{IsAttachedTo};
ghost use Rattle.crawl_rounds.specs.Lent.{lent_class};
ghost use Rattle.crawl_rounds.specs.Rounds.{AreClasses};
ghost use Rattle.crawl.specs.Crawling.{IsReachable, HasCrawled, CrawlHalts, Crawls};
ghost use Rattle.crawl.specs.Progress.{fact_of, facts_of};
ghost use Rattle.crawl.specs.Reaching.{HasReached};
ghost use Rattle.crawl.specs.Rounding.{IsLast};

use crate::progress::Progress;
use crate::round::next_round;
use crate::spare_asks::Asks;
use crate::started::StartedRow;
use access_schema::Schema;
use crawl_rounds::classes;
use lists::{NoMemory, Places, Seq};
use meaning::types::{Fact, Instance, Method};
use middleware::{RunFault, attach_needed};
use source_trait::{Lane, Source};
use std::alloc::Global;
use std::thread::Threads;

/// The facts that the methods of the schema reach from its constants, by at most `cap` requests on all of the lanes, of which there
/// are at most 8.
///
/// First the relations that have a method are attached in ascending order, lane by lane. Then each round asks what the values so far
/// allow and no round asked, each request once by one of the lanes at once, until nothing is left to ask. Without a method no lane is
/// needed, and the lanes are as they were.
///
/// Stops at the first relation without a source line, or else without a source of its kind on some lane, and then touches no source; at a
/// refused attach; before a round that would pass the cap; behind a round with a failed call; and behind a round whose rows have a bad
/// number, which is any other value than an integer at an integer column. Of a round's bad numbers it tells the least relation and its
/// least such column, and a failed call of the round goes first.
pub fn crawl<R: Threads + Sync, S: Source + Send + Drop>(
    rt: &R,
    alloc: Global,
    schema: &Schema,
    lanes: &mut [Lane<S>],
    cap: u32,
) -> Result<Instance, RunFault>
    requires lanes { length lanes.old ≤ 8 }
    requires cap { cap ≤ 1_000_000 }
    ensures crawls { Crawls S.seen schema.now cap lanes.old lanes.new result }
{
    let rels = match reachable(alloc, schema.methods.as_slice()) {
        Ok(rels) => rels,
        Err(_) => return Err(RunFault::NoMemory),
    };
    let needed = rels.as_slice();
    attach_needed(alloc, schema, lanes, needed, needed)?;
    crawl_attached(rt, alloc, schema, lanes, cap)
}

// The relations of the methods, ascending, each once.
fn reachable(alloc: Global, methods: &[Method]) -> Result<Vec<u32>, NoMemory>
    ensures ascends { IfOk result (λ rels. IsStrictlyIncreasing rels.items) }
    ensures exactly { IfOk result (λ rels. (rel : ℕ) → Contains rels.items rel ↔ ((method : Method) × Contains methods.now method × (method.rel ≡ rel))) }
{
    let mut rels = all_relations(alloc, methods)?;
    rels.sort_unstable();
    rels.dedup();
    Ok(rels)
}

fn all_relations(alloc: Global, methods: &[Method]) -> Result<Vec<u32>, NoMemory>
    ensures { IfOk result (λ rels. rels.items ≡ map (λ method. method.rel) methods.now) }
{
    let mut rels = Vec::with_capacity(alloc, methods.len())?;
    for method in methods {
        rels.push(method.rel)?;
    }
    Ok(rels)
}

// The facts that lanes give which have attached the relations that have a method.
fn crawl_attached<R: Threads + Sync, S: Source + Send + Drop>(
    rt: &R,
    alloc: Global,
    schema: &Schema,
    lanes: &mut [Lane<S>],
    cap: u32,
) -> Result<Instance, RunFault>
    requires lanes { length lanes.old ≤ 8 }
    requires cap { cap ≤ 1_000_000 }
    requires some { (rel : ℕ) → IsReachable schema.now rel → 0 < length lanes.old }
    requires attached { (rel : ℕ) → IsReachable schema.now rel → OnEach lanes.old (IsAttachedTo S.seen schema.now rel) }
    ensures crawled { IfOk result (λ part. HasCrawled S.seen schema.now cap part lanes.old lanes.new) }
    ensures once { IfOk result (λ part. AreDistinct part) }
    ensures fits { IfOk result (λ part. IsInstance (meaning_of schema.now) part) }
    ensures integers { IfOk result (λ part. (fact : Fact) → Contains part fact → AreSorted itself (meaning_of schema.now) fact.rel fact.row) }
    ensures stops { IfErr result (λ why. CrawlHalts S.seen schema.now cap why lanes.old lanes.new) }
    ensures idle { schema.now.methods ≡ [] → lanes.new ≡ lanes.old }
{
    let classes = match classes(alloc, schema.methods.as_slice()) {
        Ok(classes) => classes,
        Err(_) => return Err(RunFault::NoMemory),
    };
    let lent = classes.as_slice();
    if lent.is_empty() {
        return Ok(Seq::new(alloc));
    }
    match all_rounds(rt, alloc, schema, lent, lanes, cap) {
        Ok(progress) => match each_once(alloc, progress) {
            Ok(facts) => Ok(facts),
            Err(_) => Err(RunFault::NoMemory),
        },
        Err(fault) => Err(fault),
    }
}

// What all rounds received.
fn all_rounds<R: Threads + Sync, S: Source + Send + Drop>(
    rt: &R,
    alloc: Global,
    schema: &Schema,
    classes: &[(u32, &Places)],
    lanes: &mut [Lane<S>],
    cap: u32,
) -> Result<Progress, RunFault>
    requires lanes { (0 < length lanes.old) × (length lanes.old ≤ 8) }
    requires classes { AreClasses schema.now.methods (map lent_class classes.now) }
    requires attached { (rel : ℕ) → IsReachable schema.now rel → OnEach lanes.old (IsAttachedTo S.seen schema.now rel) }
    requires cap { cap ≤ 1_000_000 }
    ensures reached { IfOk result (λ progress. HasReached S.seen schema.now cap progress lanes.old lanes.new) }
    ensures last { IfOk result (λ progress. IsLast (map lent_class classes.now) progress) }
    ensures stops { IfErr result (λ why. CrawlHalts S.seen schema.now cap why lanes.old lanes.new) }
{
    let mut progress = match Progress::new(alloc, schema.constants.as_slice()) {
        Ok(progress) => progress,
        Err(_) => return Err(RunFault::NoMemory),
    };
    let mut asks = Asks::new(alloc);
    for _ in 0..cap + 1 {
        let more = next_round(
            rt,
            alloc,
            schema,
            classes,
            lanes,
            &mut progress,
            &mut asks,
            cap,
        )?;
        if !more {
            return Ok(progress);
        }
    }
    unreachable!()
}

// The facts that were received, each once, in ascending order.
fn each_once(alloc: Global, progress: Progress) -> Result<Instance, NoMemory>
    ensures facts { IfOk result (λ part. (fact : Fact) → Contains part fact ↔ Contains (facts_of progress) fact) }
    ensures once { IfOk result (λ part. AreDistinct part) }
{
    let Progress { received, .. } = progress;
    let mut kept = received;
    kept.sort_unstable();
    kept.dedup();
    let facts = as_facts(alloc, kept)?;
    Ok(Seq::from_vec(facts))
}

fn as_facts(alloc: Global, received: Vec<(u32, StartedRow)>) -> Result<Vec<Fact>, NoMemory>
    ensures { IfOk result (λ facts. facts.items ≡ map fact_of received.items) }
{
    let mut facts = Vec::with_capacity(alloc, received.len())?;
    for (rel, row) in received {
        facts.push(Fact {
            rel,
            row: row.into_row(),
        })?;
    }
    Ok(facts)
}
