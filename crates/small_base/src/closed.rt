// A query closed under rules.
ghost use Rattle.std.specs.Prelude.{◌≡◌, ◌≤◌, map, IfOk, IfSome};
ghost use Rattle.meaning.specs.Triggers.{bound, LabelsBelow};
ghost use Rattle.access_schema.specs.Meaning.{meaning_of};
ghost use Rattle.rule_pass.specs.declared.pass.TheConstants.{HIGHEST_FIRST_LABEL};
ghost use Rattle.small_base.specs.Closed.{term_of, atom_of, query_of, IsClosed};

use crate::sharing::closing;
use access_schema::Schema;
use homomorphism::{Freezing, Store, ground_under};
use lists::{Copies, NoMemory, Seq};
use meaning::types::{Atom, Ground, Query, Term, Val};
use rule_pass::{HIGHEST_FIRST_LABEL, State};
use std::alloc::Global;

/// The query with the facts of a closing of its frozen atoms as atoms, label k as variable k, and the same head.
///
/// `most` bounds the facts as in `closing`, and none comes where that has none. It has at most `HIGHEST_FIRST_LABEL` variables.
pub fn closed_query(
    alloc: Global,
    schema: &Schema,
    query: &Query,
    most: u32,
) -> Result<Option<Query>, NoMemory>
    requires { bound query.now.atoms ≤ query.now.variables }
    ensures closed { IfOk result (λ found. IfSome found (IsClosed (meaning_of schema.now) query.now)) }
    ensures few { IfOk result (λ found. IfSome found (λ more. more.variables ≤ HIGHEST_FIRST_LABEL)) }
{
    let frozen = ground_under(alloc, query.atoms.as_slice(), &Freezing)?;
    let Some(state) = closing(alloc, schema, frozen, query.variables, most)? else {
        return Ok(None);
    };
    let made = query_over(alloc, query, &state);
    // written out, since it is proved as one call, and at the end of the scope as a call for each list in the state
    drop(state);
    let more = made?;
    if more.variables > HIGHEST_FIRST_LABEL {
        return Ok(None);
    }
    Ok(Some(more))
}

/// The query with the facts of the state as atoms, and the head of this one.
fn query_over(alloc: Global, query: &Query, state: &State) -> Result<Query, NoMemory>
    ensures made { IfOk result (λ made. made ≡ query_of query.now state.now) }
    ensures labels { LabelsBelow state.now.facts state.now.next }
{
    let variables = state.next();
    let head = query.head.copy(alloc)?;
    let atoms = atoms_over(alloc, state.store())?;
    Ok(Query {
        atoms: Seq::from_vec(atoms),
        head,
        variables,
    })
}

/// The facts as atoms, in order.
fn atoms_over(alloc: Global, facts: &Store) -> Result<Vec<Atom>, NoMemory>
    ensures { IfOk result (λ atoms. atoms.items ≡ map atom_of facts.now) }
{
    let mut atoms = Vec::new(alloc);
    while let Some(fact) = facts.get(atoms.len()) {
        atoms.push(atom_over(alloc, fact)?)?;
    }
    Ok(atoms)
}

/// The fact as an atom.
fn atom_over(alloc: Global, fact: &Ground) -> Result<Atom, NoMemory>
    ensures { IfOk result (λ atom. atom ≡ atom_of fact.now) }
{
    let mut terms = Vec::with_capacity(alloc, fact.vals.len())?;
    for val in fact.vals.as_slice() {
        terms.push(term_over(alloc, val)?)?;
    }
    Ok(Atom {
        rel: fact.rel,
        terms: Seq::from_vec(terms),
    })
}

/// The label as the variable of its number, and the constant as itself.
fn term_over(alloc: Global, val: &Val) -> Result<Term, NoMemory>
    ensures { IfOk result (λ term. term ≡ term_of val.now) }
{
    match val {
        Val::Const(text) => Ok(Term::Const(text.copy(alloc)?)),
        Val::Label(label) => Ok(Term::Var(*label)),
    }
}
