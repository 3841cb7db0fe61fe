// Plans executed together on lanes.
ghost use Rattle.std.specs.Prelude.{◌≡◌, ◌<◌, ◌≤◌, ◌^◌, ℕ, List, Contains, IfOk, IfErr, MatchResult, OnOk, Ok, Err, length, map};
ghost use Rattle.std.specs.List.{AllZip};
ghost use Rattle.meaning.specs.declared.types.Plan.{Plan};
ghost use Rattle.meaning.specs.Plans.{IsLawful};
ghost use Rattle.access_schema.specs.Meaning.{meaning_of};
ghost use Rattle.middleware.specs.LaneBranches.{OnEach};
ghost use Rattle.middleware.specs.LaneRounds.{started, NoneStopped};
ghost use Rattle.middleware.specs.LaneRunning.{IsAttachedTo};
ghost use Rattle.plan_course.specs.Courses.{CanNumber};
ghost use Rattle.plan_batches.specs.Batching.{ExecutesAll, IsRunOf, NeedsOf, RoundsDone, RoundsHalt};
ghost use Rattle.plan_batches.specs.Needing.{HasRelation, IsNamedIn};
ghost use Rattle.plan_batches.specs.Rounding.{AreReadyPlans};

use crate::fault::BatchFault;
use crate::naming::no_memory;
use crate::needs::{Accessed, accessed_by_each, all_accessed, first_on};
use crate::round::Progress;
use crate::rounds::{all_rounds, end_all, most_steps};
use access_schema::Schema;
use meaning::types::Plan;
use middleware::{Run, RunFault, attach_needed, start_for};
use source_trait::{Lane, Source};
use std::alloc::Global;
use std::thread::Threads;

/// Executes lawful plans together on all of the lanes, of which there are at most 8, with at most `cap` requests in all.
///
/// First the relations of all plans are attached in ascending order, lane by lane. Then round n takes the nth step of every plan that
/// has one: the requests that these steps want and that no earlier round asked are asked together, each once by one of the lanes. An
/// answer serves every step that wants it. Plans without access steps need no lane, and leave the lanes as they are.
///
/// Behind the calls of a round, and before its answers are joined, what each step received is tested for bad numbers: values at integer
/// columns that are no integers. One of these ends the batch, and the fault is that of the first plan whose step received one: the
/// relation of the step, and the least column of what it received.
pub fn batch<R: Threads + Sync, S: Source + Send + Drop>(
    rt: &R,
    alloc: Global,
    plans: &[Plan],
    schema: &Schema,
    lanes: &mut [Lane<S>],
    cap: u32,
) -> Result<Vec<Run>, BatchFault>
    requires lawful { (plan : Plan) → Contains plans.now plan → (constants : List (List ℕ)) × IsLawful plan (meaning_of schema.now) constants }
    requires short { (plan : Plan) → Contains plans.now plan → CanNumber plan }
    requires sizes { (length lanes.old ≤ 8) × (cap ≤ 1_000_000) × (length plans.now < 2 ^ 32) }
    ensures executes { MatchResult result
        (λ runs. ExecutesAll S.seen schema.now plans.now cap lanes.old lanes.new (Ok runs.items))
        (λ why. ExecutesAll S.seen schema.now plans.now cap lanes.old lanes.new (Err why)) }
{
    let Ok(each) = accessed_by_each(alloc, schema, plans) else {
        return Err(no_memory());
    };
    let Ok(rels) = all_accessed(alloc, each.as_slice()) else {
        let why = no_memory();
        return Err(why);
    };
    let needed = rels.as_slice();
    match attach_needed(alloc, schema, lanes, needed, needed) {
        Ok(()) => batch_attached(rt, alloc, plans, schema, lanes, cap),
        Err(fault) => {
            let lent = each.as_slice();
            Err(attach_fault(lent, fault))
        }
    }
}

// A fault of the attaches, with the first plan that accesses the relation.
fn attach_fault(each: &[Accessed], fault: RunFault) -> BatchFault
    requires has { HasRelation each.now fault }
    requires few { length each.now < 2 ^ 32 }
    ensures fault { result.fault ≡ fault }
    ensures plan { IsNamedIn each.now result.plan fault }
{
    let plan = match fault {
        RunFault::NoMemory => 0,
        RunFault::NoSource { rel } => first_on(each, rel),
        RunFault::UnknownKind { rel } => first_on(each, rel),
        RunFault::Attach { rel, .. } => first_on(each, rel),
        RunFault::CallFailed { .. } => 0,
        RunFault::OverCalls { .. } => 0,
        RunFault::BadNumber { .. } => 0,
    };
    BatchFault { plan, fault }
}

// Executes plans whose relations are attached on each of the lanes.
fn batch_attached<R: Threads + Sync, S: Source + Send + Drop>(
    rt: &R,
    alloc: Global,
    plans: &[Plan],
    schema: &Schema,
    lanes: &mut [Lane<S>],
    cap: u32,
) -> Result<Vec<Run>, BatchFault>
    requires plans { AreReadyPlans schema.now plans.now × (length plans.now < 2 ^ 32) }
    requires sizes { (length lanes.old ≤ 8) × (cap ≤ 1_000_000) }
    requires some { (rel : ℕ) → NeedsOf schema.now plans.now rel → 0 < length lanes.old }
    requires attached { (rel : ℕ) → NeedsOf schema.now plans.now rel → OnEach lanes.old (IsAttachedTo S.seen schema.now rel) }
    ensures runs { IfOk result (λ runs. AllZip (IsRunOf S.seen schema.now plans.now lanes.new) plans.now runs.items) }
    ensures done { IfOk result (λ runs. RoundsDone S.seen schema.now plans.now cap (map started lanes.old) lanes.new (Ok runs.items)) }
    ensures stops { IfErr result (λ why. RoundsHalt S.seen schema.now plans.now cap why (map started lanes.old) lanes.new) }
    ensures idle { ((rel : ℕ) → NeedsOf schema.now plans.now rel → ⊥) → lanes.new ≡ lanes.old }
    ensures going { (rel : ℕ) → NeedsOf schema.now plans.now rel → OnOk result (NoneStopped lanes.new) }
{
    let most = most_steps(plans);
    start_for(lanes, most);
    match all_rounds(rt, alloc, schema, plans, lanes, most, cap) {
        Ok(progress) => {
            let Progress { members, .. } = progress;
            match end_all(alloc, members) {
                Ok(runs) => Ok(runs),
                Err(_) => Err(no_memory()),
            }
        }
        Err(fault) => Err(fault),
    }
}
