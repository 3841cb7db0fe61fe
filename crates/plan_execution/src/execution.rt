// A plan executed on lanes.
ghost use Rattle.std.specs.Prelude.{◌<◌, ◌≤◌, ◌^◌, List, ℕ, Contains, length};
ghost use Rattle.meaning.specs.declared.types.Branch.{Branch};
ghost use Rattle.meaning.specs.Plans.{IsLawful};
ghost use Rattle.access_schema.specs.Meaning.{meaning_of};
ghost use Rattle.middleware.specs.PlanSources.{IsAccessed};
ghost use Rattle.middleware.specs.LaneBranches.{OnEach};
ghost use Rattle.middleware.specs.LaneRunning.{IsAttachedTo};
ghost use Rattle.plan_execution.specs.Executing.{Executes, ExecutesAttached};

use crate::rounds::run_rounds;
use access_schema::Schema;
use meaning::types::Plan;
use middleware::{Run, RunFault, accessed, attach_needed, start_for};
use plan_course::count_steps;
use source_trait::{Lane, Source};
use std::alloc::Global;
use std::thread::Threads;

/// Executes a lawful plan on all of the lanes, of which there are at most 8, with at most `cap` requests.
///
/// First the relations of the plan's methods are attached in ascending order, lane by lane. Then each step of each
/// branch asks its distinct requests, each once by one of the lanes at once, and joins the answers with the rows so
/// far. A plan without access steps needs no lane, and leaves the lanes as they are.
///
/// Errors: `NoSource`, `UnknownKind` and `Attach` come from the attaches, as in `attach_needed`, before any request. Behind
/// them come those of `execute_attached`. `NoMemory` may come at any time.
pub fn execute<R: Threads + Sync, S: Source + Send + Drop>(
    rt: &R,
    alloc: Global,
    plan: &Plan,
    schema: &Schema,
    lanes: &mut [Lane<S>],
    cap: u32,
) -> Result<Run, RunFault>
    requires lawful { (constants : List (List ℕ)) × IsLawful plan.now (meaning_of schema.now) constants }
    requires lanes { length lanes.old ≤ 8 }
    requires cap { cap ≤ 1_000_000 }
    requires few { length plan.now.branches < 2 ^ 32 }
    requires short { (branch : Branch) → Contains plan.now.branches branch → length branch.steps < 2 ^ 32 }
    ensures executes { Executes S.seen schema.now plan.now cap lanes.old lanes.new result }
{
    let rels = match accessed(alloc, schema, plan) {
        Ok(rels) => rels,
        Err(_) => return Err(RunFault::NoMemory),
    };
    let needed = rels.as_slice();
    attach_needed(alloc, schema, lanes, needed, needed)?;
    execute_attached(rt, alloc, plan, schema, lanes, cap)
}

/// Executes a lawful plan whose relations are attached on each of the lanes, with at most `cap` requests: `execute`
/// from its first round on. A lane that was stopped before asks again.
///
/// Errors, of the first round that stops: `OverCalls` where its requests would pass the cap, and none of them is asked; `CallFailed`
/// where one of its calls failed; `BadNumber` where all of them were answered and a row that came has another value than an
/// integer at an integer column, also a row that joins nothing. The column is the least of all rows that came in the round.
/// `NoMemory` may come at any time.
pub fn execute_attached<R: Threads + Sync, S: Source + Send + Drop>(
    rt: &R,
    alloc: Global,
    plan: &Plan,
    schema: &Schema,
    lanes: &mut [Lane<S>],
    cap: u32,
) -> Result<Run, RunFault>
    requires lawful { (constants : List (List ℕ)) × IsLawful plan.now (meaning_of schema.now) constants }
    requires lanes { length lanes.old ≤ 8 }
    requires cap { cap ≤ 1_000_000 }
    requires few { length plan.now.branches < 2 ^ 32 }
    requires short { (branch : Branch) → Contains plan.now.branches branch → length branch.steps < 2 ^ 32 }
    requires some { (rel : ℕ) → IsAccessed schema.now plan.now rel → 0 < length lanes.old }
    requires attached { (rel : ℕ) → IsAccessed schema.now plan.now rel
        → OnEach lanes.old (IsAttachedTo S.seen schema.now rel) }
    ensures executes { ExecutesAttached S.seen schema.now plan.now cap lanes.old lanes.new result }
{
    let steps = count_steps(plan);
    start_for(lanes, steps);
    run_rounds(rt, alloc, schema, lanes, plan, steps, cap)
}
