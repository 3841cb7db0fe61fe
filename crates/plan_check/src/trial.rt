// One query against others, and a list of queries one after the other.
ghost use Rattle.std.specs.Prelude.{◌≡◌, ◌≤◌, ◌^◌, IfOk, length, true, false};
ghost use Rattle.access_schema.specs.Meaning.{meaning_of};
ghost use Rattle.meaning.specs.Runs.{frozen_head, opening_state};
ghost use Rattle.plan_check.specs.Trials.{IsTriable, AreTriable, FormIsTriable, AreCounted, IsTrial, SomeHas, IsChase, IsOutcome, FormOutcome, AreTried};

use crate::chase::{Chase, chase_from, looked_for, named_end};
use crate::rows::some_has;
use access_schema::Schema;
use accessible_copy::opening_state;
use homomorphism::Store;
use lists::{NoMemory, Row, Texts};
use meaning::types::{Instance, Query, Triggers};
use plan_extract::frozen_values;
use rule_pass::Stopped;
use std::alloc::Global;

/// What a trial of a query against others comes to: its answers are answers of the others; or there is an instance of
/// integers that meets the rules with a row that is one of the query's there, and none of the others'; or the firings
/// are spent.
#[derive(Drop)]
pub enum Outcome {
    Contained,
    Separated(Instance, Row),
    Spent(Triggers),
}

/// What trials of several queries come to: all are contained; or the first that is separated; or, where none is, the first whose firings
/// are spent, by its number.
#[derive(Drop)]
pub enum Tried {
    Contained,
    Separated(Instance, Row),
    Spent(u32, Triggers),
}

/// What queries are tried against: these others, over a schema, with these known constants, and with a budget of `firings` for each.
#[derive(Drop)]
pub struct Trial<'a> {
    pub schema: &'a Schema,
    pub others: &'a [Option<Query>],
    pub known: &'a Texts,
    pub firings: u32,
}

/// Tries each of the queries against the others.
pub fn try_each(
    alloc: Global,
    trial: &Trial<'_>,
    forms: &[Option<Query>],
) -> Result<Tried, NoMemory>
    requires trial { IsTrial trial.now }
    requires forms { AreTriable (meaning_of trial.now.schema.now) trial.now.known.now forms.now }
    requires few { length forms.now ≤ 2 ^ 32 }
    ensures { IfOk result (AreTried (meaning_of trial.now.schema.now) forms.now trial.now.others.now trial.now.firings) }
{
    let mut spent = None;
    for number in 0..forms.len() {
        match try_form(alloc, trial, &forms[number])? {
            Outcome::Contained => {}
            Outcome::Separated(instance, row) => return Ok(Tried::Separated(instance, row)),
            Outcome::Spent(log) => spent = spent.or(Some((number as u32, log))),
        }
    }
    match spent {
        Some((number, log)) => Ok(Tried::Spent(number, log)),
        None => Ok(Tried::Contained),
    }
}

// Where there is no query, nothing has to be contained.
fn try_form(alloc: Global, trial: &Trial<'_>, form: &Option<Query>) -> Result<Outcome, NoMemory>
    requires trial { IsTrial trial.now }
    requires form { FormIsTriable (meaning_of trial.now.schema.now) trial.now.known.now form.now }
    ensures { IfOk result (FormOutcome (meaning_of trial.now.schema.now) trial.now.others.now trial.now.firings form.now) }
{
    match form {
        Some(query) => try_query(alloc, trial, query),
        None => Ok(Outcome::Contained),
    }
}

// Where one of the others has the frozen head before any firing, it has it at the end of the chase too, so there is no need of a chase.
fn try_query(alloc: Global, trial: &Trial<'_>, query: &Query) -> Result<Outcome, NoMemory>
    requires trial { IsTrial trial.now }
    requires query { IsTriable (meaning_of trial.now.schema.now) trial.now.known.now query.now }
    ensures { IfOk result (IsOutcome (meaning_of trial.now.schema.now) trial.now.others.now trial.now.firings query.now) }
{
    let positions = looked_for(alloc, trial.schema, trial.others)?;
    let start = opening_state(alloc, query, positions)?;
    let found = has_head_soon(alloc, query, trial.others, start.store())?;
    if found {
        return Ok(Outcome::Contained);
    }
    let chased = chase_from(alloc, trial.schema, start, trial.firings)?;
    shown_by(alloc, trial, query, chased)
}

// Whether one of the others has the frozen head of the query on the facts. It is looked for only where the others have no more atoms than the
// query, whose chase then takes longer than the search.
fn has_head_soon(
    alloc: Global,
    query: &Query,
    others: &[Option<Query>],
    store: &Store,
) -> Result<bool, NoMemory>
    requires { AreCounted others.now }
    ensures { IfOk result (λ has. has ≡ true → SomeHas store.now others.now (frozen_head query.now)) }
{
    if have_more_atoms(others, query.atoms.len()) {
        return Ok(false);
    }
    has_head(alloc, query, others, store)
}

fn have_more_atoms(forms: &[Option<Query>], count: usize) -> bool {
    let mut left = count;
    for form in forms {
        if let Some(query) = form {
            match left.checked_sub(query.atoms.len()) {
                Some(rest) => left = rest,
                None => return true,
            }
        }
    }
    false
}

// Whether one of the others has the frozen head of the query on the facts.
fn has_head(
    alloc: Global,
    query: &Query,
    others: &[Option<Query>],
    store: &Store,
) -> Result<bool, NoMemory>
    requires { AreCounted others.now }
    ensures yes { IfOk result (λ has. has ≡ true → SomeHas store.now others.now (frozen_head query.now)) }
    ensures no { IfOk result (λ has. has ≡ false → SomeHas store.now others.now (frozen_head query.now) → ⊥) }
{
    let head = frozen_values(alloc, query.head.as_slice())?;
    some_has(alloc, others, store, head.as_slice())
}

// What the end of a chase of the query shows.
fn shown_by(
    alloc: Global,
    trial: &Trial<'_>,
    query: &Query,
    chased: Chase,
) -> Result<Outcome, NoMemory>
    requires trial { IsTrial trial.now }
    requires query { IsTriable (meaning_of trial.now.schema.now) trial.now.known.now query.now }
    requires chase { IsChase (meaning_of trial.now.schema.now) (opening_state query.now) trial.now.firings chased }
    ensures { IfOk result (IsOutcome (meaning_of trial.now.schema.now) trial.now.others.now trial.now.firings query.now) }
{
    let Chase {
        state,
        log,
        stopped,
    } = chased;
    let found = has_head(alloc, query, trial.others, state.store())?;
    if found {
        return Ok(Outcome::Contained);
    }
    match stopped {
        Stopped::Ended => {
            let head = frozen_values(alloc, query.head.as_slice())?;
            let (instance, row) = named_end(
                alloc,
                trial.schema,
                state.store(),
                head.as_slice(),
                trial.known,
            )?;
            Ok(Outcome::Separated(instance, row))
        }
        Stopped::Spent => Ok(Outcome::Spent(log)),
    }
}
