// One round of a batch: what it wants, how that is asked, and what becomes of the answers.
ghost use Rattle.std.specs.Prelude.{ℕ, Contains, IfOk, IsSome, length};
ghost use Rattle.meaning.specs.declared.types.Plan.{Plan};
ghost use Rattle.middleware.specs.PlanSources.{line_for};
ghost use Rattle.shared_rounds.specs.Books.{IsBook};
ghost use Rattle.plan_course.specs.Courses.{HaveOutputs};
ghost use Rattle.plan_batches.specs.Asking.{AsksNoted, HasTaken, MayAskNoted, MayTake, WasNext};
ghost use Rattle.plan_batches.specs.Batching.{NeedsOf};
ghost use Rattle.plan_batches.specs.Each.{Both, Each};
ghost use Rattle.plan_batches.specs.Members.{Takes};
ghost use Rattle.plan_batches.specs.Naming.{NumbersBelow};
ghost use Rattle.plan_batches.specs.Rounding.{AreReadyPlans, MayNote, MemberAt, NotesRound, TurnsNoted};

use crate::kept::keep;
use crate::member::{Going, Member, go_on, take_up};
use crate::received::{FirstBad, first_bad};
use access_schema::Schema;
use lists::NoMemory;
use meaning::types::Plan;
use middleware::{Answers, AskFault, ask_round};
use request_rounds::Turned;
use shared_rounds::Book;
use source_trait::{Lane, Source};
use std::alloc::Global;
use std::thread::Threads;

/// How far the plans of a batch have come, and each request that was asked with its answer.
#[derive(Drop)]
pub struct Progress {
    pub members: Vec<Member>,
    pub book: Book,
    pub kept: Answers,
}

/// What the plans want in a round. Its requests are those of the book behind the first `made` ones, which have their answers.
#[derive(Drop)]
pub struct Noted {
    pub book: Book,
    pub kept: Answers,
    pub goings: Vec<Going>,
    pub made: usize,
}

/// Why a round of a batch does not go on.
#[derive(Clone, Copy, Debug, PartialEq, Eq)]
pub enum NotedFault {
    /// Its requests have no answers.
    NotAsked(AskFault),
    /// It was asked, and a step received a bad number.
    BadNumber(FirstBad),
}

/// What the next round wants, and how many of its requests no earlier round asked.
pub fn note_round(
    alloc: Global,
    schema: &Schema,
    plans: &[Plan],
    progress: Progress,
) -> Result<Turned<Noted>, NoMemory>
    requires { MayNote schema.now plans.now progress }
    ensures { IfOk result (NotesRound schema.now plans.now progress) }
{
    let Progress {
        members,
        book,
        kept,
    } = progress;
    let made = book.asked.len();
    let mut noted = book;
    let goings = turns(alloc, schema, plans, &mut noted, members)?;
    let wanted = noted.asked.len() - made;
    Ok(Turned {
        what: Noted {
            book: noted,
            kept,
            goings,
            made,
        },
        wanted,
    })
}

// What the plans want in a round, plan by plan, noted in the book.
fn turns(
    alloc: Global,
    schema: &Schema,
    plans: &[Plan],
    book: &mut Book,
    members: Vec<Member>,
) -> Result<Vec<Going>, NoMemory>
    requires is_book { IsBook book.old }
    requires ready { AreReadyPlans schema.now plans.now }
    requires at { (n : ℕ) × Both (MemberAt n) plans.now members.items }
    requires lines { (rel : ℕ) → NeedsOf schema.now plans.now rel → IsSome (line_for rel schema.now.sources) }
    ensures { IfOk result (λ goings. TurnsNoted schema.now plans.now members.items book.old book.new goings.items) }
{
    let mut goings = Vec::with_capacity(alloc, plans.len())?;
    let mut number: usize = 0;
    for member in members {
        goings.push(go_on(alloc, schema, &plans[number], book, member)?)?;
        number += 1;
    }
    Ok(goings)
}

/// Asks the requests of a round of the lanes, and tests what each step receives for bad numbers.
pub fn ask_noted<R: Threads + Sync, S: Source + Send + Drop>(
    rt: &R,
    alloc: Global,
    schema: &Schema,
    noted: &Noted,
    lanes: &mut [Lane<S>],
) -> Result<Answers, NotedFault>
    requires { MayAskNoted S.seen noted.now lanes.old }
    ensures { AsksNoted S.seen schema.now noted.now result lanes.old lanes.new }
{
    let asks = &noted.book.asked.as_slice()[noted.made..];
    let answers = match ask_round(rt, alloc, asks, lanes) {
        Ok(answers) => answers,
        Err(why) => return Err(NotedFault::NotAsked(why)),
    };
    match first_bad(schema, noted.goings.as_slice(), &noted.kept, &answers) {
        None => Ok(answers),
        Some(bad) => Err(NotedFault::BadNumber(bad)),
    }
}

/// Keeps the answers of a round, and gives the plans those to what they wanted.
pub fn take_answers(
    alloc: Global,
    plans: &[Plan],
    noted: Noted,
    answers: &Answers,
) -> Result<Progress, NoMemory>
    requires { MayTake plans.now noted answers.now }
    ensures { IfOk result (HasTaken plans.now noted answers.now) }
{
    let Noted {
        book,
        kept,
        goings,
        ..
    } = noted;
    let all = keep(alloc, kept, answers)?;
    let members = take_all(alloc, plans, goings, &all)?;
    Ok(Progress {
        members,
        book,
        kept: all,
    })
}

// Each plan with the answers to what it wanted.
fn take_all(
    alloc: Global,
    plans: &[Plan],
    goings: Vec<Going>,
    kept: &Answers,
) -> Result<Vec<Member>, NoMemory>
    requires goings { Both WasNext plans.now goings.items }
    requires outputs { (plan : Plan) → Contains plans.now plan → HaveOutputs plan }
    requires numbers { NumbersBelow (length kept.now) goings.items }
    ensures { IfOk result (λ members. Each (Takes kept.now) plans.now goings.items members.items) }
{
    let mut members = Vec::with_capacity(alloc, plans.len())?;
    let mut number: usize = 0;
    for going in goings {
        members.push(take_up(alloc, &plans[number], going, kept)?)?;
        number += 1;
    }
    Ok(members)
}
