// What is decided of a statement.
ghost use Rattle.std.specs.Prelude.{◌≡◌, ◌≤◌, IfOk, Contains, length};
ghost use Rattle.std.specs.List.{AllZip};
ghost use Rattle.meaning.specs.declared.types.Select.{Select as SelectOf};
ghost use Rattle.rule_pass.specs.declared.pass.TheConstants.{MOST_FIRINGS};
ghost use Rattle.sql_select.specs.Statements.{StatementFits};
ghost use Rattle.sql_select.specs.declared.limits.TheConstants.{MOST_ITEMS};
ghost use Rattle.sql_conjunctive.specs.Queries.{IsSelectForm};
ghost use Rattle.proof_search.specs.Forms.{AreAskedFor};
ghost use Rattle.proof_search.specs.Decisions.{IsDecision};

use crate::branches::{chosen_branches, first_branches};
use crate::forms::{place_of, queries_of};
use crate::outcome::Outcome;
use crate::planning::plan_of;
use crate::question::Questions;
use access_schema::Schema;
use findings::Decision;
use lists::NoMemory;
use meaning::types::{Query, Statement};
use sql_conjunctive::select_forms;
use sql_select::known;
use std::alloc::Global;

/// The most units of a search for a cheaper branch.
pub const MOST_UNITS: u32 = 1_000_000;

/// What is decided of a statement over the known constants, with a budget of `firings` for the proof of each select, and of `search`
/// units for the search for a cheaper branch of each.
///
/// A plan is read off proofs of the selects' conjunctive queries, one branch for each select, and a select that never has an answer has no
/// branch. Where nothing is active any more in the proof of a select and there is no goal, two instances refute every plan; those of the
/// first such select come. Where the firings are spent before either, a small base may give two such instances; else nothing is decided,
/// and the log of the firings of the first such select comes.
///
/// A unit is one set of exposed facts that was not looked at before in the search of this select, or one active firing made in it.
pub fn decide(
    alloc: Global,
    schema: &Schema,
    statement: &Statement,
    firings: u32,
    search: u32,
) -> Result<Decision, NoMemory>
    requires fits { StatementFits schema.now statement.now }
    requires budget { firings ≤ MOST_FIRINGS }
    requires units { search ≤ MOST_UNITS }
    ensures { IfOk result (IsDecision schema.now statement.now firings search) }
{
    let forms = select_forms(alloc, statement, schema)?;
    let decision = decide_over(alloc, schema, statement, forms.as_slice(), firings, search);
    // written out, since it is proved as one call, and at the end of the scope as a call for each list in a query
    drop(forms);
    decision
}

/// The same, where these are the queries of the selects.
fn decide_over(
    alloc: Global,
    schema: &Schema,
    statement: &Statement,
    forms: &[Option<Query>],
    firings: u32,
    search: u32,
) -> Result<Decision, NoMemory>
    requires fits { StatementFits schema.now statement.now }
    requires forms { AllZip (IsSelectForm schema.now) statement.now.selects forms.now }
    requires budget { firings ≤ MOST_FIRINGS }
    ensures { IfOk result (IsDecision schema.now statement.now firings search) }
{
    let queries = queries_of(alloc, forms)?;
    let known = known(alloc, schema, statement)?;
    let questions = Questions {
        schema,
        queries: &queries,
        known: &known,
        firings,
    };
    decide_on(alloc, statement, forms, &questions, search)
}

/// The same, where this is asked: first the proofs of all selects, and then, where each has a branch, a search for a cheaper one of each.
fn decide_on(
    alloc: Global,
    statement: &Statement,
    forms: &[Option<Query>],
    questions: &Questions<'_>,
    search: u32,
) -> Result<Decision, NoMemory>
    requires { AreAskedFor statement.now forms.now questions.now }
    ensures { IfOk result (IsDecision questions.now.schema.now statement.now questions.now.firings search) }
{
    match first_branches(alloc, questions, search)? {
        Outcome::Branches(firsts) => {
            let choices = chosen_branches(alloc, questions, firsts, search)?;
            plan_of(
                alloc,
                questions.schema,
                first_width(statement),
                forms,
                choices,
            )
        }
        Outcome::Stuck(pair) => {
            integer_laws::laws::no_sorted_plan();
            Ok(Decision::NoPlan(pair))
        }
        Outcome::Spent(number, log) => Ok(Decision::Undecided {
            select: place_of(forms, number),
            log,
        }),
    }
}

/// How many items the first select has.
fn first_width(statement: &Statement) -> u32
    requires some { 1 ≤ length statement.now.selects }
    requires narrow { (select : SelectOf) → Contains statement.now.selects select → length select.items ≤ MOST_ITEMS }
    ensures { (select : SelectOf) × Contains statement.now.selects select × (result ≡ length select.items) }
{
    let first = &statement.selects.as_slice()[0];
    first.items.len() as u32
}
