// All rounds of a batch.
ghost use Rattle.std.specs.Prelude.{◌≡◌, ◌<◌, ◌≤◌, ◌^◌, ℕ, Contains, IfOk, IfErr, OnOk, length};
ghost use Rattle.meaning.specs.declared.types.Plan.{Plan};
ghost use Rattle.middleware.specs.LaneBranches.{OnEach};
ghost use Rattle.middleware.specs.LaneRounds.{NoneStopped};
ghost use Rattle.middleware.specs.LaneRunning.{IsAttachedTo};
ghost use Rattle.plan_course.specs.Courses.{CanNumber, HaveOutputs};
ghost use Rattle.plan_batches.specs.Asking.{AsksNoted, HasTaken, MayAskNoted, MayTake};
ghost use Rattle.plan_batches.specs.Batching.{NeedsOf, RoundsHalt, most_steps};
ghost use Rattle.plan_batches.specs.Coming.{HasCome};
ghost use Rattle.plan_batches.specs.Each.{Both};
ghost use Rattle.plan_batches.specs.Members.{Begins, Ends};
ghost use Rattle.plan_batches.specs.Rounding.{AreReadyPlans, MayNote, NotesRound};
ghost use Rattle.plan_batches.specs.declared.member.Member.{Member};

use crate::fault::BatchFault;
use crate::member::{Member, begin, end};
use crate::naming::{fault_of, no_memory};
use crate::round::{Noted, Progress, ask_noted, note_round, take_answers};
use access_schema::Schema;
use lists::NoMemory;
use meaning::types::Plan;
use middleware::{Answers, Run};
use plan_course::count_steps;
use request_rounds::ask_rounds;
use shared_rounds::Book;
use source_trait::{Lane, Source};
use std::alloc::Global;
use std::thread::Threads;

/// Asks so many rounds of the lanes, none of which is stopped.
pub fn all_rounds<R: Threads + Sync, S: Source + Send + Drop>(
    rt: &R,
    alloc: Global,
    schema: &Schema,
    plans: &[Plan],
    lanes: &mut [Lane<S>],
    most: usize,
    cap: u32,
) -> Result<Progress, BatchFault>
    requires few { length lanes.old ≤ 8 }
    requires some { 0 < most → 0 < length lanes.old }
    requires going { 0 < most → NoneStopped lanes.old }
    requires plans { AreReadyPlans schema.now plans.now × (length plans.now < 2 ^ 32) }
    requires attached { (rel : ℕ) → NeedsOf schema.now plans.now rel → OnEach lanes.old (IsAttachedTo S.seen schema.now rel) }
    requires cap { cap ≤ 1_000_000 }
    ensures come { IfOk result (λ progress. HasCome S.seen schema.now plans.now lanes.old cap most progress lanes.new) }
    ensures going { OnOk result (0 < most → NoneStopped lanes.new) }
    ensures idle { most ≡ 0 → lanes.new ≡ lanes.old }
    ensures stops { IfErr result (λ why. RoundsHalt S.seen schema.now plans.now cap why lanes.old lanes.new) }
{
    let Ok(members) = begin_all(alloc, plans) else {
        return Err(no_memory());
    };
    let start = Progress {
        members,
        book: Book::new(alloc),
        kept: Answers::new(alloc),
    };
    let note = |progress: Progress|
        requires { MayNote schema.now plans.now progress }
        ensures { IfOk result (NotesRound schema.entry.now plans.entry.now progress) }
    { note_round(alloc, schema, plans, progress) };
    let ask = |noted: &Noted, lanes: &mut [Lane<S>]|
        requires { MayAskNoted S.seen noted.now lanes.now }
        ensures { AsksNoted S.seen schema.entry.now noted.entry.now result lanes.entry.now lanes.exit.now }
    { ask_noted(rt, alloc, schema, noted, lanes) };
    let take = |noted: Noted, answers: Answers|
        requires { MayTake plans.now noted answers }
        ensures { IfOk result (HasTaken plans.entry.now noted answers) }
    { take_answers(alloc, plans, noted, &answers) };
    match ask_rounds(most, cap, start, lanes, &note, &ask, &take) {
        Ok(reached) => Ok(reached.progress),
        Err(halt) => Err(fault_of(&halt, cap)),
    }
}

fn begin_all(alloc: Global, plans: &[Plan]) -> Result<Vec<Member>, NoMemory>
    requires { (plan : Plan) → Contains plans.now plan → HaveOutputs plan }
    ensures { IfOk result (λ members. Both Begins plans.now members.items) }
{
    let mut members = Vec::with_capacity(alloc, plans.len())?;
    for plan in plans {
        members.push(begin(alloc, plan)?)?;
    }
    Ok(members)
}

/// The runs of plans that have no step left.
pub fn end_all(alloc: Global, members: Vec<Member>) -> Result<Vec<Run>, NoMemory>
    requires { (member : Member) (number : ℕ) → Contains members.items member → Contains member.wanted.items number → number < 1_000_000 }
    ensures { IfOk result (λ runs. Both Ends members.items runs.items) }
{
    let mut runs = Vec::with_capacity(alloc, members.len())?;
    for member in members {
        runs.push(end(alloc, member)?)?;
    }
    Ok(runs)
}

/// How many steps the longest of the plans has.
pub fn most_steps(plans: &[Plan]) -> usize
    requires { (plan : Plan) → Contains plans.now plan → CanNumber plan }
    ensures { result ≡ most_steps plans.now }
{
    let mut most: usize = 0;
    for plan in plans {
        most = most.max(count_steps(plan));
    }
    most
}
