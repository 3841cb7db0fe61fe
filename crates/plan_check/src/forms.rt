// The queries of a plan's branches.
ghost use Rattle.std.specs.Prelude.{IfOk};
ghost use Rattle.std.specs.List.{AllZip};
ghost use Rattle.access_schema.specs.Meaning.{meaning_of};
ghost use Rattle.plan_check.specs.Forms.{IsBranchForm, CanBeQuery, CanBeQueries};

use crate::branch_query::branch_query;
use crate::sorts::are_sorted;
use access_schema::Schema;
use lists::NoMemory;
use meaning::types::{Branch, Plan, Query};
use std::alloc::Global;

/// For each branch its query, or none where a constant of it at an integer column is no integer.
pub fn branch_forms(
    alloc: Global,
    schema: &Schema,
    plan: &Plan,
) -> Result<Vec<Option<Query>>, NoMemory>
    requires { CanBeQueries (meaning_of schema.now) plan.now }
    ensures { IfOk result (λ forms. AllZip (IsBranchForm (meaning_of schema.now)) plan.now.branches forms.items) }
{
    let branches = plan.branches.as_slice();
    let mut forms = Vec::with_capacity(alloc, branches.len())?;
    for branch in branches {
        forms.push(branch_form(alloc, schema, branch)?)?;
    }
    Ok(forms)
}

// The query of a branch, or none where a constant at an integer column is no integer: such a branch has no row on an
// instance of integers.
fn branch_form(alloc: Global, schema: &Schema, branch: &Branch) -> Result<Option<Query>, NoMemory>
    requires { CanBeQuery (meaning_of schema.now) branch.now }
    ensures { IfOk result (IsBranchForm (meaning_of schema.now) branch.now) }
{
    let query = branch_query(alloc, schema, branch)?;
    if are_sorted(schema, query.atoms.as_slice()) {
        return Ok(Some(query));
    }
    // written out, since it is proved as one call, and at the end of the scope as a call for each list in the query
    drop(query);
    Ok(None)
}
