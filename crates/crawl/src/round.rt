// One round of a crawl.
ghost use Rattle.std.specs.Prelude.{◌≡◌, ◌+◌, ◌-◌, ◌<◌, ◌≤◌, ◌^◌, ℕ, min, true, false, Contains, IfOk, IfErr, IsSome, OnOk, length, map, nat_eq};
ghost use Rattle.source_trait.specs.declared.lanes.Lane.{Lane};
ghost use Rattle.source_trait.specs.Works.{MayAsk};
ghost use Rattle.lane_pool.specs.Work.{AllReady};
ghost use Rattle.middleware.specs.LaneRounds.{requests_in, HaveTheirKinds, NoneStopped};
ghost use Rattle.middleware.specs.LaneBranches.{OnEach};
ghost use Rattle.middleware.specs.LaneRunning.{IsAttachedTo};
ghost use Rattle.crawl_rounds.specs.Lent.{lent_class};
ghost use Rattle.crawl_rounds.specs.Rounds.{AreClasses};
ghost use Rattle.crawl_rounds.specs.Rows.{fresh_of};
ghost use Rattle.crawl.specs.Asking.{round_asks};
ghost use Rattle.crawl.specs.Knowing.{marked_of};
ghost use Rattle.crawl.specs.Crawling.{IsReachable};
ghost use Rattle.crawl.specs.Pieces.{AreEnough, PiecesAsked, PiecesStop};
ghost use Rattle.crawl.specs.Progress.{AreKnownTo};
ghost use Rattle.crawl.specs.Rounding.{FreshWithin, AreOrdered, next_requests, IsLast, RoundGoes, RoundStops};

use crate::asks::next_piece;
use crate::beginnings::values_to_ask;
use crate::cursor::Cursor;
use crate::numbers::first_bad;
use crate::progress::Progress;
use crate::spare_asks::Asks;
use crate::taking::{end_round, take_answers};
use access_schema::Schema;
use bad_numbers::{BadNumber, earlier};
use crawl_rounds::count_round;
use lists::{NoMemory, Places, Text};
use middleware::{AskFault, RunFault, ask_round};
use source_trait::{Ask, Lane, Source};
use std::alloc::Global;
use std::thread::Threads;

/// How many values are known at most.
const MOST_VALUES: usize = 4_294_967_295;

/// Asks the next round of the lanes and takes its answers. Says whether there was one. Its requests are made a piece at
/// a time, each in the place of the last one.
///
/// Refuses a round that would pass the cap, which asks nothing; a failed call; and a bad number in what the round received.
pub fn next_round<R: Threads + Sync, S: Source + Send + Drop>(
    rt: &R,
    alloc: Global,
    schema: &Schema,
    classes: &[(u32, &Places)],
    lanes: &mut [Lane<S>],
    progress: &mut Progress,
    asks: &mut Asks,
    cap: u32,
) -> Result<bool, RunFault>
    requires lanes { (0 < length lanes.old) × (length lanes.old ≤ 8) }
    requires classes { AreClasses schema.now.methods (map lent_class classes.now) }
    requires attached { (rel : ℕ) → IsReachable schema.now rel → OnEach lanes.old (IsAttachedTo S.seen schema.now rel) }
    requires cap { (progress.old.made ≤ cap) × (cap ≤ 1_000_000) }
    requires rounds { progress.old.rounds ≤ progress.old.made }
    requires within { FreshWithin progress.old.known }
    ensures goes { IfOk result (λ more. more ≡ true → RoundGoes S.seen schema.now (map lent_class classes.now) cap progress.old progress.new lanes.old lanes.new) }
    ensures last { IfOk result (λ more. more ≡ false → IsLast (map lent_class classes.now) progress.old × (progress.new ≡ progress.old) × (lanes.new ≡ lanes.old)) }
    ensures stops { IfErr result (λ fault. RoundStops S.seen schema.now (map lent_class classes.now) cap fault progress.old lanes.old lanes.new) }
{
    let Ok(wanted) = count_wanted(progress, classes) else {
        return Err(RunFault::NoMemory);
    };
    if wanted == 0 {
        return Ok(false);
    }
    if wanted > u64::from(cap - progress.made) {
        return Err(RunFault::OverCalls {
            made: progress.made,
            wanted: wanted as u32,
            cap,
        });
    }
    ask_next(
        rt,
        alloc,
        schema,
        classes,
        lanes,
        progress,
        asks,
        wanted as u32,
        cap,
    )
}

// Asks the requests of the next round, for which there is room, and takes their answers. Says that there was one.
fn ask_next<R: Threads + Sync, S: Source + Send + Drop>(
    rt: &R,
    alloc: Global,
    schema: &Schema,
    classes: &[(u32, &Places)],
    lanes: &mut [Lane<S>],
    progress: &mut Progress,
    asks: &mut Asks,
    wanted: u32,
    cap: u32,
) -> Result<bool, RunFault>
    requires lanes { (0 < length lanes.old) × (length lanes.old ≤ 8) }
    requires classes { AreClasses schema.now.methods (map lent_class classes.now) }
    requires attached { (rel : ℕ) → IsReachable schema.now rel → OnEach lanes.old (IsAttachedTo S.seen schema.now rel) }
    requires wanted { (0 < wanted) × (wanted ≡ length (next_requests (map lent_class classes.now) progress.old)) }
    requires fits { (progress.old.made + wanted ≤ cap) × (cap ≤ 1_000_000) }
    requires rounds { progress.old.rounds ≤ progress.old.made }
    requires ordered { AreOrdered progress.old.known }
    requires fresh { fresh_of (marked_of progress.old.known) ≡ progress.old.known.fresh.items }
    ensures goes { IfOk result (λ more. (more ≡ true) × RoundGoes S.seen schema.now (map lent_class classes.now) cap progress.old progress.new lanes.old lanes.new) }
    ensures stops { IfErr result (λ fault. RoundStops S.seen schema.now (map lent_class classes.now) cap fault progress.old lanes.old lanes.new) }
{
    let Ok(all) = values_to_ask(alloc, classes, progress) else {
        return Err(RunFault::NoMemory);
    };
    progress.found.clear();
    match ask_pieces(
        rt,
        alloc,
        schema,
        classes,
        all.as_slice(),
        lanes,
        progress,
        asks,
    ) {
        Ok(None) => match end_round(alloc, wanted, progress) {
            Ok(()) => Ok(true),
            Err(_) => Err(RunFault::NoMemory),
        },
        Ok(Some(bad)) => Err(RunFault::BadNumber {
            rel: bad.rel,
            column: bad.column,
        }),
        Err(fault) => Err(fault),
    }
}

// Asks the requests of the next round, a piece at a time, and takes the answers of each piece before the next one is
// made. Gives the first bad number in all of them.
fn ask_pieces<R: Threads + Sync, S: Source + Send + Drop>(
    rt: &R,
    alloc: Global,
    schema: &Schema,
    classes: &[(u32, &Places)],
    all: &[(Text, bool)],
    lanes: &mut [Lane<S>],
    progress: &mut Progress,
    asks: &mut Asks,
) -> Result<Option<BadNumber>, RunFault>
    requires lanes { (0 < length lanes.old) × (length lanes.old ≤ 8) }
    requires classes { AreClasses schema.now.methods (map lent_class classes.now) }
    requires attached { (rel : ℕ) → IsReachable schema.now rel → OnEach lanes.old (IsAttachedTo S.seen schema.now rel) }
    requires few { length (next_requests (map lent_class classes.now) progress.old) ≤ 1_000_000 }
    requires fresh { fresh_of (marked_of progress.old.known) ≡ progress.old.known.fresh.items }
    requires all { AreEnough (nat_eq progress.old.rounds 0) progress.old.known (map lent_class classes.now) all.now }
    ensures asked { IfOk result (λ bad. PiecesAsked S.seen schema.now
        (round_asks schema.now (nat_eq progress.old.rounds 0) (marked_of progress.old.known) (map lent_class classes.now))
        bad progress.old progress.new lanes.old lanes.new) }
    ensures going { OnOk result (0 < length (next_requests (map lent_class classes.now) progress.old) → NoneStopped lanes.new) }
    ensures stops { IfErr result (λ why. PiecesStop S.seen schema.now (next_requests (map lent_class classes.now) progress.old) why
        progress.old.rounds lanes.old lanes.new) }
{
    let mut bad = None;
    let mut cursor = Cursor::at_class(0);
    while cursor.class < classes.len() {
        match next_piece(alloc, schema, classes, all, progress, asks, &mut cursor) {
            Ok(()) => {}
            Err(_) => return Err(RunFault::NoMemory),
        }
        let found = ask_piece(rt, alloc, schema, asks.list.as_slice(), lanes, progress)?;
        bad = earlier(bad, found);
    }
    Ok(bad)
}

// Asks the requests of a piece, takes their answers, and gives the first bad number in them.
fn ask_piece<R: Threads + Sync, S: Source + Send + Drop>(
    rt: &R,
    alloc: Global,
    schema: &Schema,
    asks: &[Ask],
    lanes: &mut [Lane<S>],
    progress: &mut Progress,
) -> Result<Option<BadNumber>, RunFault>
    requires sizes { (0 < length lanes.old) × (length lanes.old ≤ 8) × (length asks.now ≤ 1_000_000) }
    requires ready { AllReady (MayAsk S.seen) asks.now lanes.old }
    requires kinds { HaveTheirKinds schema.now asks.now }
    requires known { AreKnownTo asks.now progress.old.known }
    ensures asked { IfOk result (λ bad. PiecesAsked S.seen schema.now asks.now bad progress.old progress.new lanes.old lanes.new) }
    ensures going { OnOk result (NoneStopped lanes.new) }
    ensures stops { IfErr result (λ why. PiecesStop S.seen schema.now (requests_in asks.now) why progress.old.rounds lanes.old lanes.new) }
{
    match ask_round(rt, alloc, asks, lanes) {
        Ok(answers) => {
            let bad = first_bad(schema, asks, &answers);
            match take_answers(alloc, asks, &answers, progress) {
                Ok(()) => Ok(bad),
                Err(_) => Err(RunFault::NoMemory),
            }
        }
        Err(AskFault::NoMemory) => Err(RunFault::NoMemory),
        Err(AskFault::CallFailed { .. }) => Err(RunFault::CallFailed {
            branch: 0,
            step: progress.rounds,
        }),
    }
}

// How many requests the next round has, up to 2^32 - 1. There is no memory for more than 2^32 - 1 values.
fn count_wanted(progress: &Progress, classes: &[(u32, &Places)]) -> Result<u64, NoMemory>
    requires { FreshWithin progress.now.known }
    ensures count { IfOk result (λ wanted. wanted ≡ min (length (next_requests (map lent_class classes.now) progress.now)) (2 ^ 32 - 1)) }
    ensures ordered { AreOrdered progress.now.known }
    ensures fresh { fresh_of (marked_of progress.now.known) ≡ progress.now.known.fresh.items }
{
    let known = progress.known.len();
    let fresh = progress.known.fresh_len();
    if known > MOST_VALUES || fresh > MOST_VALUES {
        return Err(NoMemory);
    }
    let first = progress.rounds == 0;
    Ok(count_round(first, known as u32, fresh as u32, classes))
}
