// One plan of a batch: what it wants in a round, and what it makes of the answers.
ghost use Rattle.std.specs.Prelude.{◌<◌, ℕ, Contains, IfOk, IsSome, length};
ghost use Rattle.meaning.specs.declared.types.Plan.{Plan};
ghost use Rattle.access_schema.specs.declared.schema.Schema.{Schema};
ghost use Rattle.access_schema.specs.Meaning.{meaning_of};
ghost use Rattle.middleware.specs.PlanSources.{IsAccessed, line_for};
ghost use Rattle.shared_rounds.specs.Books.{IsBook};
ghost use Rattle.plan_course.specs.Courses.{AreReadyBranches, HaveOutputs, IsAt};
ghost use Rattle.plan_course.specs.Turns.{IsNext, IsPending, asks_of};
ghost use Rattle.plan_course.specs.declared.turns.Next.TheVariants as next_step;
ghost use Rattle.plan_course.specs.declared.course.Course.{Course};
ghost use Rattle.plan_batches.specs.Members.{HasLine, HasNoted, Begins, Wants, Takes, TakesCourse, Ends};

use crate::kept::picked;
use access_schema::Schema;
use lists::NoMemory;
use meaning::types::Plan;
use middleware::{Answers, Run, line_of};
use plan_course::{Course, Next, Pending, rows, take, turn};
use shared_rounds::Book;
use std::alloc::Global;

/// How far a plan has come, and the numbers of the requests that it wanted, as often as it did.
#[derive(Drop)]
pub struct Member {
    pub course: Course,
    pub wanted: Vec<usize>,
}

/// What a plan does in a round, the numbers of the requests that it wants there, and those of earlier rounds.
#[derive(Drop)]
pub struct Going {
    pub next: Next,
    pub numbers: Vec<usize>,
    pub wanted: Vec<usize>,
}

/// A plan before its first round.
pub fn begin(alloc: Global, plan: &Plan) -> Result<Member, NoMemory>
    requires { HaveOutputs plan.now }
    ensures { IfOk result (Begins plan.now) }
{
    let course = Course::start(alloc, plan)?;
    Ok(Member {
        course,
        wanted: Vec::new(alloc),
    })
}

/// What a plan wants in a round, noted in the book.
pub fn go_on(
    alloc: Global,
    schema: &Schema,
    plan: &Plan,
    book: &mut Book,
    member: Member,
) -> Result<Going, NoMemory>
    requires is_book { IsBook book.old }
    requires at { (n : ℕ) × IsAt plan.now n member.course }
    requires ready { AreReadyBranches (meaning_of schema.now) plan.now }
    requires lines { (rel : ℕ) → IsAccessed schema.now plan.now rel → IsSome (line_for rel schema.now.sources) }
    ensures wants { IfOk result (λ going. Wants schema.now plan.now member going) }
    ensures noted { IfOk result (λ going. HasNoted schema.now (asks_of going.next) book.old book.new going.numbers.items) }
{
    let Member { course, wanted } = member;
    let next = turn(alloc, schema, plan, course)?;
    let numbers = note_next(alloc, schema, book, &next)?;
    Ok(Going {
        next,
        numbers,
        wanted,
    })
}

// The numbers of the requests that a plan wants in a round, of which the new ones are added to the book.
fn note_next(
    alloc: Global,
    schema: &Schema,
    book: &mut Book,
    next: &Next,
) -> Result<Vec<usize>, NoMemory>
    requires is_book { IsBook book.old }
    requires line { HasLine schema.now next.now }
    ensures { IfOk result (λ numbers. HasNoted schema.now (asks_of next.now) book.old book.new numbers.items) }
{
    match next {
        Next::Wants(pending) => {
            let method = &pending.method;
            let line = line_of(schema, method.rel);
            book.note_all(
                alloc,
                &line.kind,
                method.rel,
                &method.inputs,
                &pending.wanted.requests,
            )
        }
        Next::Done(_) => Ok(Vec::new(alloc)),
    }
}

/// The plan with the answers to what it wanted, which are among those that are kept.
pub fn take_up(alloc: Global, plan: &Plan, going: Going, kept: &Answers) -> Result<Member, NoMemory>
    requires asked { (schema : Schema) × (course : Course) × IsNext schema plan.now course going.next }
    requires outputs { HaveOutputs plan.now }
    requires numbers { (number : ℕ) → Contains going.numbers.items number → number < length kept.now }
    ensures { IfOk result (Takes kept.now plan.now going) }
{
    let Going {
        next,
        numbers,
        wanted,
    } = going;
    let course = course_after(alloc, plan, next, numbers.as_slice(), kept)?;
    let mut all = wanted;
    all.extend_from_slice(numbers.as_slice())?;
    Ok(Member {
        course,
        wanted: all,
    })
}

// The plan's course with the answers of these numbers.
fn course_after(
    alloc: Global,
    plan: &Plan,
    next: Next,
    numbers: &[usize],
    kept: &Answers,
) -> Result<Course, NoMemory>
    requires asked { (schema : Schema) × (course : Course) × IsNext schema plan.now course next }
    requires outputs { HaveOutputs plan.now }
    requires numbers { (number : ℕ) → Contains numbers.now number → number < length kept.now }
    ensures { IfOk result (TakesCourse kept.now plan.now next numbers.now) }
{
    match next {
        Next::Wants(pending) => course_behind(alloc, plan, pending, numbers, kept),
        Next::Done(course) => Ok(course),
    }
}

// The course behind a step that asked, with the answers of these numbers.
fn course_behind(
    alloc: Global,
    plan: &Plan,
    pending: Pending,
    numbers: &[usize],
    kept: &Answers,
) -> Result<Course, NoMemory>
    requires asked { (schema : Schema) × (course : Course) × IsPending schema plan.now course pending }
    requires outputs { HaveOutputs plan.now }
    requires numbers { (number : ℕ) → Contains numbers.now number → number < length kept.now }
    ensures { IfOk result (TakesCourse kept.now plan.now (next_step.Wants pending) numbers.now) }
{
    let answers = picked(alloc, kept, numbers)?;
    take(alloc, plan, pending, answers)
}

/// The rows of a plan that has no step left, and how many different requests it wanted.
pub fn end(alloc: Global, member: Member) -> Result<Run, NoMemory>
    requires { (number : ℕ) → Contains member.wanted.items number → number < 1_000_000 }
    ensures { IfOk result (Ends member) }
{
    let Member { course, wanted } = member;
    let rows = rows(alloc, course)?;
    let mut numbers = wanted;
    numbers.sort_unstable();
    numbers.dedup();
    Ok(Run {
        rows,
        made: numbers.len() as u32,
    })
}
