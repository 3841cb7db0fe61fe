// The query of a select.
ghost use Rattle.std.specs.Prelude.{◌≡◌, ◌≤◌, ◌<◌, ◌^◌, ◌↔◌, IfOk, List, [], length, map};
ghost use Rattle.meaning.specs.declared.types.Fact.{Fact};
ghost use Rattle.meaning.specs.Values.{Row, Value};
ghost use Rattle.meaning.specs.Instances.{IsInstance};
ghost use Rattle.meaning.specs.Answers.{AnswersSelect};
ghost use Rattle.meaning.specs.Conjunctive.{SelectFits, IsConjunctive, term_of};
ghost use Rattle.meaning.specs.Fitting.{QueryFits, QueryHasConstants};
ghost use Rattle.access_schema.specs.Meaning.{meaning_of};
ghost use Rattle.sql_conjunctive.specs.Form.{Clashes, IsNever, IfQuery, IsNumbered, HaveLiterals, AnswersForm};
ghost use Rattle.sql_conjunctive.specs.Making.{made_query, made_form};
ghost use Rattle.sql_conjunctive.specs.Numbering.{order_through};

use crate::form::Conjunctive;
use crate::limits::MOST_FROMS;
use crate::merging::{meet_all, opening, term_at};
use crate::numbering::{number_all, order_of};
use access_schema::Schema;
use lists::{NoMemory, Seq};
use meaning::types::{Atom, Operand, Query, Select, Term};
use std::alloc::Global;

/// The query of a select, or Never where the conditions make two different literals equal.
///
/// The query has one atom for each FROM item. Columns that the conditions make equal have one term: a constant where they
/// are equal to a literal, and otherwise a variable. Variables are numbered by first occurrence, from 0.
pub fn conjunctive(alloc: Global, select: &Select, schema: &Schema) -> Result<Conjunctive, NoMemory>
    requires fits { SelectFits (meaning_of schema.now) select.now }
    requires froms { length select.now.froms ≤ MOST_FROMS }

    // Never comes exactly where two different literals are made equal.
    ensures never { IfOk result (λ form. IsNever form ↔ Clashes select.now.conditions) }

    // A query is the select's, numbered, fit for runs, and without constants that the select lacks.
    ensures conjunctive { IfOk result (λ form. IfQuery form (IsConjunctive (meaning_of schema.now) select.now)) }
    ensures numbered { IfOk result (λ form. IfQuery form IsNumbered) }
    ensures fits { IfOk result (λ form. IfQuery form (QueryFits (meaning_of schema.now))) }
    ensures constants { IfOk result (λ form. IfQuery form (λ query. (constants : List Value) →
        HaveLiterals constants select.now → QueryHasConstants constants query)) }

    // The form has the select's answers.
    ensures answers { IfOk result (λ form. (facts : List Fact) → IsInstance (meaning_of schema.now) facts → (row : Row) →
        AnswersForm form facts row ↔ AnswersSelect select.now facts row) }
{
    form_of(alloc, select, schema)
}

/// The form that is made of a select.
fn form_of(alloc: Global, select: &Select, schema: &Schema) -> Result<Conjunctive, NoMemory>
    requires fits { SelectFits (meaning_of schema.now) select.now }
    requires froms { length select.now.froms ≤ MOST_FROMS }
    ensures { IfOk result (λ form. form ≡ made_form schema.now.relations select.now) }
{
    let opened = opening(alloc, &schema.relations, select.froms.as_slice())?;
    match meet_all(alloc, opened, select.conditions.as_slice())? {
        Some(merged) => Ok(Conjunctive::Query(query_of(alloc, merged, select.items.as_slice())?)),
        None => Ok(Conjunctive::Never),
    }
}

/// The query of these atoms and items, with its variables numbered by first occurrence.
fn query_of(alloc: Global, merged: Vec<Atom>, items: &[Operand]) -> Result<Query, NoMemory>
    requires few { length (order_through [] merged.items) < 2 ^ 32 }
    ensures { IfOk result (λ query. query ≡ made_query merged.items items.now) }
{
    let order = order_of(alloc, merged.as_slice())?;
    let atoms = number_all(alloc, order.as_slice(), merged.as_slice())?;
    let head = head_of(alloc, atoms.as_slice(), items)?;
    Ok(Query {
        atoms: Seq::from_vec(atoms),
        head: Seq::from_vec(head),
        variables: order.len() as u32,
    })
}

/// The terms of the items.
fn head_of(alloc: Global, atoms: &[Atom], items: &[Operand]) -> Result<Vec<Term>, NoMemory>
    ensures { IfOk result (λ head. head.items ≡ map (term_of atoms.now) items.now) }
{
    let mut head = Vec::with_capacity(alloc, items.len())?;
    for item in items {
        head.push(term_at(alloc, atoms, item)?)?;
    }
    Ok(head)
}
