// What is found of a plan for a statement.
ghost use Rattle.std.specs.Prelude.{◌≡◌, ◌≤◌, ◌^◌, ℕ, List, Contains, IfOk, length};
ghost use Rattle.access_schema.specs.Meaning.{meaning_of};
ghost use Rattle.sql_select.specs.Statements.{StatementFits};
ghost use Rattle.plan_form.specs.Fitting.{HasFewSteps};
ghost use Rattle.rule_pass.specs.declared.pass.TheConstants.{MOST_FIRINGS};
ghost use Rattle.plan_check.specs.Forms.{HasFewColumns};
ghost use Rattle.plan_check.specs.Trials.{AreTriable};
ghost use Rattle.plan_check.specs.Verdicts.{known_of, IsLegalOver, IsVerdict, IsConclusion};

use crate::conclude::conclude;
use crate::forms::branch_forms;
use crate::legality::fault_of;
use crate::trial::{Trial, Tried, try_each};
use access_schema::Schema;
use findings::Verdict;
use lists::{NoMemory, Texts};
use meaning::types::{Plan, Query, Statement};
use sql_conjunctive::select_forms;
use sql_select::known;
use std::alloc::Global;

/// Whether the plan is lawful over the known constants and has, on every instance of integers that meets the rules,
/// exactly the statement's answers as its rows. An instance of integers is one whose values at integer columns are
/// integers.
///
/// A plan that is not lawful, or is not as wide as the statement, is illegal. Otherwise each select is tried against
/// the plan, and then each branch against the statement, each with a budget of `firings`: the first trial that fails
/// where no rule is active gives an instance of integers and a row that separate. Where none fails so, the first
/// whose firings were spent is told, with the log of these. A branch with a constant that is no integer at an integer
/// column adds no row.
pub fn judge(
    alloc: Global,
    schema: &Schema,
    statement: &Statement,
    plan: &Plan,
    firings: u32,
) -> Result<Verdict, NoMemory>
    requires fits { StatementFits schema.now statement.now }
    requires few { HasFewSteps plan.now }
    requires columns { HasFewColumns plan.now }
    requires budget { firings ≤ MOST_FIRINGS }
    ensures { IfOk result (IsVerdict schema.now statement.now plan.now firings) }
{
    let known = known(alloc, schema, statement)?;
    match fault_of(schema, statement, plan, &known) {
        Some(fault) => Ok(Verdict::Illegal(fault)),
        None => judge_legal(alloc, schema, statement, plan, &known, firings),
    }
}

// The same of a plan that is lawful and as wide as the statement.
fn judge_legal(
    alloc: Global,
    schema: &Schema,
    statement: &Statement,
    plan: &Plan,
    known: &Texts,
    firings: u32,
) -> Result<Verdict, NoMemory>
    requires fits { StatementFits schema.now statement.now }
    requires few { HasFewSteps plan.now }
    requires columns { HasFewColumns plan.now }
    requires known { known.now ≡ known_of schema.now statement.now }
    requires legal { IsLegalOver schema.now statement.now plan.now known.now }
    requires budget { firings ≤ MOST_FIRINGS }
    ensures { IfOk result (IsVerdict schema.now statement.now plan.now firings) }
{
    let selects = select_forms(alloc, statement, schema)?;
    let branches = branch_forms(alloc, schema, plan)?;
    let verdict = try_both(
        alloc,
        schema,
        selects.as_slice(),
        branches.as_slice(),
        known,
        firings,
    )?;
    Ok(verdict)
}

// Tries the selects against the branches, and then, where no row is lost, the branches against the selects.
fn try_both(
    alloc: Global,
    schema: &Schema,
    selects: &[Option<Query>],
    branches: &[Option<Query>],
    known: &Texts,
    firings: u32,
) -> Result<Verdict, NoMemory>
    requires selects { AreTriable (meaning_of schema.now) known.now selects.now }
    requires branches { AreTriable (meaning_of schema.now) known.now branches.now }
    requires few_selects { length selects.now ≤ 2 ^ 32 }
    requires few_branches { length branches.now ≤ 2 ^ 32 }
    requires known { (c : List ℕ) → Contains schema.now.constants c → Contains known.now c }
    requires budget { firings ≤ MOST_FIRINGS }
    ensures { IfOk result (IsConclusion (meaning_of schema.now) selects.now branches.now firings) }
{
    let by_branches = Trial {
        schema,
        others: branches,
        known,
        firings,
    };
    let by_selects = Trial {
        schema,
        others: selects,
        known,
        firings,
    };
    let lost = try_each(alloc, &by_branches, selects)?;
    match lost {
        Tried::Separated(instance, row) => Ok(Verdict::Loses(instance, row)),
        kept => {
            let added = try_each(alloc, &by_selects, branches)?;
            Ok(conclude(kept, added))
        }
    }
}
