// The rounds of one plan.
ghost use Rattle.std.specs.Prelude.{◌≡◌, ◌≤◌, ◌<◌, ◌^◌, ℕ, Contains, IfOk, IfErr, OnOk, length};
ghost use Rattle.std.specs.List.Sorted.{IsStrictlySortedBy};
ghost use Rattle.meaning.specs.declared.types.Branch.{Branch};
ghost use Rattle.access_schema.specs.Meaning.{meaning_of};
ghost use Rattle.row_text.specs.RowText.{row_cmp};
ghost use Rattle.middleware.specs.Branches.{AreAskable};
ghost use Rattle.middleware.specs.LaneBranches.{OnEach};
ghost use Rattle.middleware.specs.LaneRounds.{NoneStopped};
ghost use Rattle.shared_rounds.specs.SharedRounds.{turns_of};
ghost use Rattle.plan_course.specs.Courses.{AreReadyBranches, CanNumber, HaveOutputs};
ghost use Rattle.plan_execution.specs.PlanRounds.{LanesDone, PlanHalts};
ghost use Rattle.plan_execution.specs.Rounding.{AsksTested, CanName, HasCome, HasStep, MayAsk, Takes, Turns, WasAsked, fault_of};

use crate::asking::{StepFault, ask_tested};
use access_schema::Schema;
use lists::NoMemory;
use meaning::types::Plan;
use middleware::{Answers, Run, RunFault};
use plan_course::{Course, Next, Pending, rows, take, turn};
use request_rounds::{Halt, Reached, Turned, ask_rounds};
use source_trait::{Lane, Source};
use std::alloc::Global;
use std::thread::Threads;

/// The rows of a plan with so many steps whose relations are attached on the lanes, none of which is stopped, and how
/// many requests were made for them.
pub fn run_rounds<R: Threads + Sync, S: Source + Send + Drop>(
    rt: &R,
    alloc: Global,
    schema: &Schema,
    lanes: &mut [Lane<S>],
    plan: &Plan,
    steps: usize,
    cap: u32,
) -> Result<Run, RunFault>
    requires lanes { (0 < steps → 0 < length lanes.old) × (length lanes.old ≤ 8) }
    requires steps { steps ≡ length (turns_of plan.now) }
    requires ready { AreReadyBranches (meaning_of schema.now) plan.now × CanNumber plan.now }
    requires askable { (branch : Branch) → Contains plan.now.branches branch
        → OnEach lanes.old (λ kinds. AreAskable S.seen schema.now kinds branch.steps) }
    requires cap { cap ≤ 1_000_000 }
    requires going { 0 < steps → NoneStopped lanes.old }
    ensures done { IfOk result (λ run. LanesDone S.seen schema.now plan.now run.rows run.made lanes.old lanes.new) }
    ensures ascends { IfOk result (λ run. IsStrictlySortedBy row_cmp run.rows) }
    ensures within { IfOk result (λ run. run.made ≤ cap) }
    ensures stops { IfErr result (λ why. PlanHalts S.seen schema.now plan.now cap why lanes.old lanes.new) }
    ensures idle { steps ≡ 0 → lanes.new ≡ lanes.old }
    ensures going { OnOk result (0 < steps → NoneStopped lanes.new) }
{
    match all_rounds(rt, alloc, schema, lanes, plan, steps, cap) {
        Ok(reached) => {
            let Reached { progress, made } = reached;
            match rows(alloc, progress) {
                Ok(rows) => Ok(Run { rows, made }),
                Err(_) => Err(RunFault::NoMemory),
            }
        }
        Err(fault) => Err(fault),
    }
}

// Asks so many rounds of the plan.
fn all_rounds<R: Threads + Sync, S: Source + Send + Drop>(
    rt: &R,
    alloc: Global,
    schema: &Schema,
    lanes: &mut [Lane<S>],
    plan: &Plan,
    steps: usize,
    cap: u32,
) -> Result<Reached<Course>, RunFault>
    requires lanes { (0 < steps → 0 < length lanes.old) × (length lanes.old ≤ 8) }
    requires steps { steps ≤ length (turns_of plan.now) }
    requires ready { AreReadyBranches (meaning_of schema.now) plan.now × CanNumber plan.now }
    requires askable { (branch : Branch) → Contains plan.now.branches branch
        → OnEach lanes.old (λ kinds. AreAskable S.seen schema.now kinds branch.steps) }
    requires cap { cap ≤ 1_000_000 }
    requires going { 0 < steps → NoneStopped lanes.old }
    ensures come { IfOk result (λ reached. HasCome schema.now plan.now S.seen cap steps reached lanes.old lanes.new) }
    ensures stops { IfErr result (λ why. PlanHalts S.seen schema.now plan.now cap why lanes.old lanes.new) }
    ensures idle { steps ≡ 0 → lanes.new ≡ lanes.old }
    ensures going { OnOk result (0 < steps → NoneStopped lanes.new) }
{
    let Ok(course) = Course::start(alloc, plan) else {
        return Err(RunFault::NoMemory);
    };
    let next = |course: Course|
        requires { AreReadyBranches (meaning_of schema.now) plan.now × HasStep plan.now course }
        ensures { IfOk result (Turns schema.entry.now plan.entry.now course) }
    { next_step(alloc, schema, plan, course) };
    let ask = |pending: &Pending, lanes: &mut [Lane<S>]|
        requires { MayAsk schema.now S.seen pending.now lanes.now }
        ensures { AsksTested S.seen schema.entry.now pending.entry.now.method pending.entry.now.wanted.requests result
            lanes.entry.now lanes.exit.now }
    {
        ask_tested(
            rt,
            alloc,
            schema,
            lanes,
            &pending.method,
            &pending.wanted.requests,
        )
    };
    let go_on = |pending: Pending, answers: Answers|
        requires { WasAsked plan.now pending × HaveOutputs plan.now }
        ensures { IfOk result (Takes plan.entry.now pending answers) }
    { take(alloc, plan, pending, answers) };
    match ask_rounds(steps, cap, course, lanes, &next, &ask, &go_on) {
        Ok(reached) => Ok(reached),
        Err(halt) => Err(fault_of(&halt, cap)),
    }
}

// What the plan's next step asks.
fn next_step(
    alloc: Global,
    schema: &Schema,
    plan: &Plan,
    course: Course,
) -> Result<Turned<Pending>, NoMemory>
    requires ready { AreReadyBranches (meaning_of schema.now) plan.now }
    requires at { HasStep plan.now course }
    ensures { IfOk result (Turns schema.now plan.now course) }
{
    match turn(alloc, schema, plan, course) {
        Ok(Next::Wants(pending)) => {
            let wanted = pending.wanted.requests.len();
            Ok(Turned {
                what: pending,
                wanted,
            })
        }
        Ok(Next::Done(_)) => unreachable!(),
        Err(fault) => Err(fault),
    }
}

// Why the plan stops where its rounds do.
fn fault_of(halt: &Halt<Pending, StepFault>, cap: u32) -> RunFault
    requires { CanName halt.now }
    ensures { result ≡ fault_of cap halt.now }
{
    match halt {
        Halt::NoMemory => RunFault::NoMemory,
        Halt::Refused { what, why } => match why {
            StepFault::NoMemory => RunFault::NoMemory,
            StepFault::CallFailed => RunFault::CallFailed {
                branch: what.branch as u32,
                step: what.step as u32,
            },
            StepFault::BadNumber { column } => RunFault::BadNumber {
                rel: what.method.rel,
                column: *column,
            },
        },
        Halt::Over { made, wanted, .. } => RunFault::OverCalls {
            made: *made,
            wanted: *wanted,
            cap,
        },
    }
}
