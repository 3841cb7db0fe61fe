// What a plan asks in a round, and what becomes of the answers.
ghost use Rattle.std.specs.Prelude.{◌≡◌, ◌<◌, ◌+◌, List, ℕ, Contains, IfOk, drop, length, slice_get};
ghost use Rattle.meaning.specs.declared.types.Fact.{Fact};
ghost use Rattle.access_schema.specs.declared.schema.Schema.{Schema};
ghost use Rattle.access_schema.specs.Meaning.{meaning_of};
ghost use Rattle.middleware.specs.Blocks.{AreTables};
ghost use Rattle.middleware.specs.Branches.{IsReadyBranch};
ghost use Rattle.middleware.specs.LaneAsking.{AnswersFrom};
ghost use Rattle.middleware.specs.Rounds.{IsWanted};
ghost use Rattle.shared_rounds.specs.SharedRounds.{IsTurn, turns_of};
ghost use Rattle.plan_course.specs.Courses.{AreReadyBranches, HaveOutputs, IsAt, IsWithin, Knows};
ghost use Rattle.plan_course.specs.Turns.{AreOfTurn, AsksIn, Grows, IsNext, IsPending, asks_of};
ghost use Rattle.plan_course.specs.declared.course.Course.{Course};

use crate::course::{Course, settle};
use access_schema::{Method, Schema};
use lists::{Copies, NoMemory, Places};
use meaning::types::{Branch, PlaceList, Plan, Step};
use middleware::{
    Answers, Asking, Block, Wanted, asking_of, checked_blocks, join_answers, method_of, wanted_rows,
};
use row_text::PackedRows;
use std::alloc::Global;

/// What a step asks, and what waits for the answers.
#[derive(Drop)]
pub struct Pending {
    pub branch: usize,
    pub step: usize,
    /// the method of the step
    pub method: Method,
    /// the places of the step, as the rows that ask have them
    pub places: PlaceList,
    /// the rows that ask, and what they ask for
    pub wanted: Wanted,
    /// the columns of the rows that the answers give
    pub columns: Places,
    /// how many columns the partial rows have then
    pub count: u32,
    /// the blocks beside
    pub rest: Vec<Block>,
    /// the rows of the branches that are done
    pub rows: PackedRows,
}

/// What a plan does in a round.
#[derive(Drop)]
pub enum Next {
    /// Its next step asks.
    Wants(Pending),
    /// It has no step left.
    Done(Course),
}

/// What the next step of the plan asks.
pub fn turn(alloc: Global, schema: &Schema, plan: &Plan, course: Course) -> Result<Next, NoMemory>
    requires at { (n : ℕ) × IsAt plan.now n course }
    requires ready { AreReadyBranches (meaning_of schema.now) plan.now }
    ensures goes { IfOk result (λ next. IsNext schema.now plan.now course next) }
    ensures turns { IfOk result (λ next. (n : ℕ) (facts : List Fact) → IsAt plan.now n course
        → Knows (meaning_of schema.now) facts plan.now course → IsTurn (meaning_of schema.now) facts n plan.now (asks_of next)) }
    ensures of_step { IfOk result (λ next. (n : ℕ) → IsAt plan.now n course
        → AreOfTurn (meaning_of schema.now) (slice_get (turns_of plan.now) n) (asks_of next)) }
{
    match plan.branches.get(course.branch) {
        Some(branch) => Ok(Next::Wants(pending_of(alloc, schema, branch, course)?)),
        None => Ok(Next::Done(course)),
    }
}

// What the next step of the branch asks.
fn pending_of(
    alloc: Global,
    schema: &Schema,
    branch: &Branch,
    course: Course,
) -> Result<Pending, NoMemory>
    requires stands { IsWithin branch.now course }
    requires left { course.step < length branch.now.steps }
    requires ready { IsReadyBranch (meaning_of schema.now) branch.now }
    ensures { IfOk result (λ pending. AsksIn schema.now branch.now course pending) }
{
    let Course {
        branch: number,
        step: place,
        count,
        blocks,
        rows,
    } = course;
    let steps = branch.steps.as_slice();
    let step = &steps[place];
    let method = method_of(schema, &step.method);
    let asking = asking_of(alloc, step, method, count, blocks)?;
    let Asking {
        step: local,
        rows: table,
        columns,
        count: next,
        rest,
    } = asking;
    let Step { method: _, places } = local;
    let wanted = wanted_rows(alloc, places.as_slice(), method.inputs.as_slice(), table)?;
    Ok(Pending {
        branch: number,
        step: place,
        method: copy_of(alloc, method)?,
        places,
        wanted,
        columns,
        count: next,
        rest,
        rows,
    })
}

fn copy_of(alloc: Global, method: &Method) -> Result<Method, NoMemory>
    ensures { IfOk result (λ copy. copy ≡ method.now) }
{
    Ok(Method {
        name: method.name.copy(alloc)?,
        rel: method.rel,
        inputs: method.inputs.copy(alloc)?,
        cost: method.cost,
    })
}

/// Goes on with the answers to what a step asked, up to the next step that the plan has.
pub fn take(
    alloc: Global,
    plan: &Plan,
    pending: Pending,
    answers: Answers,
) -> Result<Course, NoMemory>
    requires asked { (schema : Schema) × (course : Course) × IsPending schema plan.now course pending }
    requires outputs { HaveOutputs plan.now }
    ensures at { IfOk result (λ next. (schema : Schema) (course : Course) (n : ℕ) → IsPending schema plan.now course pending
        → IsAt plan.now n course → IsAt plan.now (n + 1) next) }
    ensures knows { IfOk result (λ next. (schema : Schema) (course : Course) (facts : List Fact) → IsPending schema plan.now course pending
        → AreReadyBranches (meaning_of schema) plan.now → Knows (meaning_of schema) facts plan.now course
        → AnswersFrom facts pending.method pending.wanted.requests answers → Knows (meaning_of schema) facts plan.now next) }
{
    match plan.branches.get(pending.branch) {
        Some(branch) => {
            let next = grow(alloc, branch, pending, answers)?;
            settle(alloc, plan, next)
        }
        None => unreachable!(),
    }
}

// Joins the answers, and checks what they give against the blocks beside: one more step of the branch is done.
fn grow(
    alloc: Global,
    branch: &Branch,
    pending: Pending,
    answers: Answers,
) -> Result<Course, NoMemory>
    requires left { pending.step < length branch.now.steps }
    requires wanted { IsWanted pending.places pending.method.inputs pending.wanted.rows pending.wanted.requests }
    requires below { (k : ℕ) → Contains pending.columns k → k < pending.count }
    requires rest { AreTables pending.count pending.rest.items }
    ensures { IfOk result (λ next. Grows branch.now pending answers next) }
{
    let Pending {
        branch: number,
        step,
        method,
        places,
        wanted,
        columns,
        count,
        rest,
        rows,
    } = pending;
    let inputs = method.inputs.as_slice();
    let joined = join_answers(alloc, places.as_slice(), inputs, &wanted, answers)?;
    let grown = Block {
        columns,
        rows: joined,
    };
    let steps = after(branch.steps.as_slice(), step);
    let outs = branch.output.as_slice();
    let blocks = checked_blocks(alloc, steps, outs, count, grown, rest)?;
    Ok(Course {
        branch: number,
        step: step + 1,
        count,
        blocks,
        rows,
    })
}

// The steps behind the one of a number.
fn after(steps: &[Step], number: usize) -> &[Step]
    requires { number < length steps.now }
    ensures { result.now ≡ drop (number + 1) steps.now }
{
    &steps[number + 1..]
}
