// The queries of a statement's selects.
ghost use Rattle.std.specs.Prelude.{IfOk, Contains};
ghost use Rattle.std.specs.List.{AllZip};
ghost use Rattle.meaning.specs.declared.types.Select.{Select as SelectOf};
ghost use Rattle.access_schema.specs.Meaning.{meaning_of};
ghost use Rattle.sql_conjunctive.specs.Queries.{IsSelectForm};
ghost use Rattle.sql_conjunctive.specs.Rows.{FitsWithFew};

use crate::conjoin::conjunctive;
use crate::form::Conjunctive;
use access_schema::Schema;
use lists::NoMemory;
use meaning::types::{Query, Select, Statement};
use std::alloc::Global;

/// For each select of the statement its query, or none where its conditions make two different literals equal.
pub fn select_forms(
    alloc: Global,
    statement: &Statement,
    schema: &Schema,
) -> Result<Vec<Option<Query>>, NoMemory>
    requires fits { (select : SelectOf) → Contains statement.now.selects select → FitsWithFew (meaning_of schema.now) select }
    ensures { IfOk result (λ forms. AllZip (IsSelectForm schema.now) statement.now.selects forms.items) }
{
    let selects = statement.selects.as_slice();
    let mut forms = Vec::with_capacity(alloc, selects.len())?;
    for select in selects {
        forms.push(select_form(alloc, select, schema)?)?;
    }
    Ok(forms)
}

/// The query of the select, if it has one.
fn select_form(alloc: Global, select: &Select, schema: &Schema) -> Result<Option<Query>, NoMemory>
    requires { FitsWithFew (meaning_of schema.now) select.now }
    ensures { IfOk result (IsSelectForm schema.now select.now) }
{
    match conjunctive(alloc, select, schema)? {
        Conjunctive::Query(query) => Ok(Some(query)),
        Conjunctive::Never => Ok(None),
    }
}
