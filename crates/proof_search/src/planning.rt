// The plan of the branches that are chosen.
ghost use Rattle.std.specs.Prelude.{◌≡◌, ◌≤◌, IfOk, List, Contains, length, map};
ghost use Rattle.meaning.specs.declared.types.Branch.{Branch as BranchOf};
ghost use Rattle.meaning.specs.Plans.{NamesMethods};
ghost use Rattle.access_schema.specs.Meaning.{meaning_of};
ghost use Rattle.rule_pass.specs.declared.pass.TheConstants.{MOST_FIRINGS};
ghost use Rattle.proof_search.specs.Forms.{queries_in, branches_in, IsEntryOf, AreEntriesOf, IsPlanOf};

use crate::outcome::{Choice, Choices};
use access_schema::{Schema, cost};
use findings::{Chosen, ChosenList, Decision};
use lists::{NoMemory, Seq};
use meaning::types::{Branch, Plan, Query};
use std::alloc::Global;

/// The plan of the branches that are chosen, of that width, with an entry for each select: no row where it has no query, and else the cost
/// of its branch and what is known of that.
pub fn plan_of(
    alloc: Global,
    schema: &Schema,
    width: u32,
    forms: &[Option<Query>],
    choices: Choices,
) -> Result<Decision, NoMemory>
    requires count { length choices ≡ length (queries_in forms.now) }
    requires named { (branch : BranchOf) → Contains (branches_in choices) branch → NamesMethods (meaning_of schema.now) branch.steps }
    requires steps { (branch : BranchOf) → Contains (branches_in choices) branch → length branch.steps ≤ MOST_FIRINGS }
    ensures { IfOk result (IsPlanOf (meaning_of schema.now) width forms.now choices) }
{
    let selects = entries_of(alloc, schema, forms, choices.as_slice())?;
    let branches = branches_of(alloc, choices)?;
    Ok(Decision::Plan {
        plan: Plan { width, branches },
        selects,
    })
}

/// An entry for each select.
fn entries_of(
    alloc: Global,
    schema: &Schema,
    forms: &[Option<Query>],
    choices: &[Choice],
) -> Result<ChosenList, NoMemory>
    requires count { length choices.now ≡ length (queries_in forms.now) }
    requires named { (branch : BranchOf) → Contains (branches_in choices.now) branch → NamesMethods (meaning_of schema.now) branch.steps }
    requires steps { (branch : BranchOf) → Contains (branches_in choices.now) branch → length branch.steps ≤ MOST_FIRINGS }
    ensures { IfOk result (AreEntriesOf (meaning_of schema.now) forms.now choices.now) }
{
    let mut entries = Seq::new(alloc);
    let mut left = forms;
    let mut waiting = choices;
    while let [form, rest @ ..] = left {
        match form {
            None => entries.push(Chosen::NoRow)?,
            Some(_) => {
                let [choice, later @ ..] = waiting else {
                    unreachable!()
                };
                entries.push(entry_of(schema, choice))?;
                waiting = later;
            }
        }
        left = rest;
    }
    Ok(entries)
}

/// The entry of a select that has a branch.
fn entry_of(schema: &Schema, choice: &Choice) -> Chosen
    requires named { NamesMethods (meaning_of schema.now) choice.now.branch.steps }
    requires steps { length choice.now.branch.steps ≤ MOST_FIRINGS }
    ensures { IsEntryOf (meaning_of schema.now) choice.now result }
{
    Chosen::Branch {
        cost: cost(&choice.branch, schema),
        least: choice.least,
    }
}

/// The branches of the choices, in order.
fn branches_of(alloc: Global, choices: Choices) -> Result<Seq<Branch>, NoMemory>
    ensures { IfOk result (λ branches. branches ≡ branches_in choices) }
{
    let mut branches = Seq::new(alloc);
    for choice in choices.into_vec() {
        branches.push(choice.branch)?;
    }
    Ok(branches)
}
