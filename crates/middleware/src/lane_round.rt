// One round of requests, shared by several lanes.
ghost use Rattle.std.specs.Prelude.{◌≡◌, ◌<◌, ◌≤◌, ◌∷◌, [], ℕ, List, All, IfOk, IfErr, OnOk, length, map};
ghost use Rattle.meaning.specs.declared.types.Fact.{Fact};
ghost use Rattle.access_schema.specs.declared.schema.Schema.{Schema};
ghost use Rattle.lane_pool.specs.Work.{AllReady, FansOut};
ghost use Rattle.source_trait.specs.Works.{MayAsk, Works};
ghost use Rattle.source_trait.specs.declared.work.Asked.TheVariants as asked;
ghost use Rattle.middleware.specs.LaneRounds.{started, requests_in, HaveTheirKinds, AsksEach, AsksSome, AreAnswers, LanesHold, picked, NoneStopped, FirstRefused, AskCause, SkipsBehind};

use crate::answers::Answers;
use lane_pool::{Worker, fan_out};
use lists::NoMemory;
use source_trait::{Ask, Asked, Lane, Source};
use std::alloc::Global;
use std::thread::Threads;

/// Why a round of requests has no answers. A request counts from 0.
#[derive(Clone, Copy, Debug, PartialEq, Eq)]
pub enum AskFault {
    NoMemory,
    /// The first request in the list whose call failed.
    CallFailed { request: u32 },
}

impl From<NoMemory> for AskFault {
    ghost use Rattle.std.specs.Prelude.{◌≡◌};
    ghost use Rattle.middleware.specs.declared.lane_round.AskFault.TheVariants as fault;

    ghost from_gives = { λ _ e. e ≡ fault.NoMemory };

    fn from(_: NoMemory) -> Self {
        AskFault::NoMemory
    }
}

/// Asks each request once, by one of the lanes, and answers in the order of the requests. The lanes ask at once, in threads of `rt`;
/// one lane alone asks the requests in their order. A lane with a refused call asks no more in this round.
pub fn ask_round<R: Threads + Sync, S: Source + Send + Drop>(
    rt: &R,
    alloc: Global,
    asks: &[Ask],
    lanes: &mut [Lane<S>],
) -> Result<Answers, AskFault>
    requires sizes { (0 < length lanes.old) × (length lanes.old ≤ 8) × (length asks.now ≤ 1_000_000) }
    requires ready { AllReady (MayAsk S.seen) asks.now lanes.old }
    ensures asks { IfOk result (λ answers. (schema : Schema) → HaveTheirKinds schema asks.now → AsksEach S.seen schema (requests_in asks.now) lanes.old lanes.new) }
    ensures answers { IfOk result (λ answers. AreAnswers S.seen lanes.old asks.now answers) }
    ensures picks { IfOk result (λ answers. (facts : List ℕ → List Fact) → LanesHold S.seen lanes.old facts → answers ≡ picked facts asks.now) }
    ensures going { OnOk result (NoneStopped lanes.new) }
    ensures refused { IfErr result (λ fault. (schema : Schema) → HaveTheirKinds schema asks.now → AsksSome S.seen schema (requests_in asks.now) lanes.old lanes.new) }
    ensures cause { IfErr result (λ fault. (schema : Schema) → HaveTheirKinds schema asks.now → AskCause S.seen schema asks.now fault lanes.old lanes.new) }
{
    let answers = ask_lanes(rt, alloc, asks, lanes)?;
    rows_of(alloc, answers)
}

// Each lane asks until its first refused call. Of more lanes than requests, those past the number of requests ask nothing.
fn ask_lanes<R: Threads + Sync, S: Source + Send + Drop>(
    rt: &R,
    alloc: Global,
    asks: &[Ask],
    lanes: &mut [Lane<S>],
) -> Result<Vec<Asked>, NoMemory>
    requires sizes { (0 < length lanes.old) × (length lanes.old ≤ 8) × (length asks.now ≤ 1_000_000) }
    requires ready { AllReady (MayAsk S.seen) asks.now lanes.old }
    ensures asked { IfOk result (λ answers. FansOut (Works S.seen) asks.now answers.items (map started lanes.old) lanes.new) }
    ensures refused { IfErr result (λ _. lanes.new ≡ map started lanes.old) }
{
    start(lanes);
    let count = lanes.len().min(asks.len());
    if count == 0 {
        return Ok(Vec::new(alloc));
    }
    let (used, _idle) = lanes.split_at_mut(count);
    if count == 1 {
        return work_alone(alloc, &mut used[0], asks);
    }
    fan_out(rt, alloc, used, asks)
}

// One worker works the items in their order, without a counter that others would share. All memory is taken before the first item is
// worked.
fn work_alone<W: Worker>(
    alloc: Global,
    worker: &mut W,
    items: &[W::Item],
) -> Result<Vec<W::Answer>, NoMemory>
where
    W::Answer: Drop,
    requires few { length items.now ≤ 1_000_000 }
    requires ready { All (W.ready worker.old) items.now }
    ensures asked { IfOk result (λ answers. FansOut W.did items.now answers.items (worker.old ∷ []) (worker.new ∷ [])) }
    ensures refused { IfErr result (λ _. worker.new ≡ worker.old) }
{
    let mut answers = Vec::with_capacity(alloc, items.len())?;
    for item in items {
        answers.push_reserved(worker.work(alloc, item));
    }
    Ok(answers)
}

/// No lane is stopped where there is a round. Without a round the lanes stay.
pub fn start_for<S>(lanes: &mut [Lane<S>], rounds: usize)
    ensures some { 0 < rounds → lanes.new ≡ map started lanes.old }
    ensures none { rounds ≡ 0 → lanes.new ≡ lanes.old }
{
    if rounds > 0 {
        start(lanes);
    }
}

// No lane is stopped as a round begins.
fn start<S>(lanes: &mut [Lane<S>])
    ensures { lanes.new ≡ map started lanes.old }
{
    for lane in lanes.iter_mut() {
        lane.stopped = false;
    }
}

// The rows of the answers, or why the first that has none was refused. A lane skips requests behind a refused one alone.
fn rows_of(alloc: Global, answers: Vec<Asked>) -> Result<Answers, AskFault>
    requires few { length answers.items ≤ 1_000_000 }
    requires skips { SkipsBehind answers.items }
    ensures rows { IfOk result (λ rows. map asked.Rows rows ≡ answers.items) }
    ensures first { IfErr result (λ fault. FirstRefused fault answers.items) }
{
    let mut rows = Answers::new(alloc);
    let mut number: u32 = 0;
    for answer in answers {
        match answer {
            Asked::Rows(found) => rows = rows.with(found)?,
            Asked::Failed => return Err(AskFault::CallFailed { request: number }),
            Asked::NoMemory => return Err(AskFault::NoMemory),
            Asked::Skipped => unreachable!(),
        }
        number += 1;
    }
    Ok(rows)
}
