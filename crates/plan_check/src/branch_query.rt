// A branch as a conjunctive query.
ghost use Rattle.std.specs.Prelude.{◌≡◌, ◌≤◌, ◌<◌, ◌-◌, ◌^◌, ◌∷◌, [], IfOk, map};
ghost use Rattle.meaning.specs.Plans.{NamesMethods, made};
ghost use Rattle.meaning.specs.Judge.{terms_of, AreAtoms, out_term, columns_of, IsBranchQuery};
ghost use Rattle.access_schema.specs.Meaning.{meaning_of};
ghost use Rattle.rule_pass.specs.declared.pass.TheConstants.{HIGHEST_FIRST_LABEL};
ghost use Rattle.plan_check.specs.Forms.{CanBeQuery, NamesMethod, IsRelationOf, IsAtomOf, place_term};

use access_schema::Schema;
use lists::{Copies, NoMemory, Seq, Text};
use meaning::types::{Atom, Branch, Out, Place, Query, Step, Term};
use std::alloc::Global;

/// The query of a branch: an atom for each step, a variable for each column, and the output as its head.
pub fn branch_query(alloc: Global, schema: &Schema, branch: &Branch) -> Result<Query, NoMemory>
    requires { CanBeQuery (meaning_of schema.now) branch.now }
    ensures { IfOk result (IsBranchQuery (meaning_of schema.now) branch.now) }
{
    let (atoms, variables) = atoms(alloc, schema, branch.steps.as_slice())?;
    let head = head(alloc, branch.output.as_slice())?;
    Ok(Query {
        atoms: Seq::from_vec(atoms),
        head: Seq::from_vec(head),
        variables,
    })
}

// An atom for each step, and the number of columns.
fn atoms(alloc: Global, schema: &Schema, steps: &[Step]) -> Result<(Vec<Atom>, u32), NoMemory>
    requires named { NamesMethods (meaning_of schema.now) steps.now }
    requires few { columns_of 0 steps.now ≤ HIGHEST_FIRST_LABEL }
    ensures atoms { IfOk result (λ made. AreAtoms (meaning_of schema.now) 0 steps.now made.0.items) }
    ensures columns { IfOk result (λ made. made.1 ≡ columns_of 0 steps.now) }
{
    let mut atoms = Vec::new(alloc);
    let mut columns: u32 = 0;
    for step in steps {
        let (atom, after) = step_atom(alloc, schema, step, columns)?;
        atoms.push(atom)?;
        columns = after;
    }
    Ok((atoms, columns))
}

// The atom of a step before which there are so many columns, and how many there are behind it.
fn step_atom(
    alloc: Global,
    schema: &Schema,
    step: &Step,
    columns: u32,
) -> Result<(Atom, u32), NoMemory>
    requires named { NamesMethod (meaning_of schema.now) step.now.method }
    requires few { made columns step.now.places ≤ HIGHEST_FIRST_LABEL }
    ensures atom { IfOk result (λ made. IsAtomOf (meaning_of schema.now) columns step.now made.0) }
    ensures columns { IfOk result (λ all. all.1 ≡ made columns step.now.places) }
{
    let rel = relation_of(schema, &step.method);
    let (terms, after) = terms(alloc, step.places.as_slice(), columns)?;
    let atom = Atom {
        rel,
        terms: Seq::from_vec(terms),
    };
    Ok((atom, after))
}

// The relation of the method of that name.
fn relation_of(schema: &Schema, name: &Text) -> u32
    requires { NamesMethod (meaning_of schema.now) name.now }
    ensures { IsRelationOf (meaning_of schema.now) name.now result }
{
    match schema.method(name) {
        Some(number) => schema.methods.as_slice()[number as usize].rel,
        None => unreachable!(),
    }
}

// The terms of places before which there are so many columns, and how many there are behind them.
fn terms(alloc: Global, places: &[Place], before: u32) -> Result<(Vec<Term>, u32), NoMemory>
    requires { made before places.now ≤ HIGHEST_FIRST_LABEL }
    ensures terms { IfOk result (λ all. all.0.items ≡ terms_of before places.now) }
    ensures columns { IfOk result (λ all. all.1 ≡ made before places.now) }
{
    let mut terms = Vec::new(alloc);
    let mut columns = before;
    for place in places {
        terms.push(term(alloc, place, columns)?)?;
        columns = counted(columns, place);
    }
    Ok((terms, columns))
}

// The term of a place before which there are so many columns.
fn term(alloc: Global, place: &Place, columns: u32) -> Result<Term, NoMemory>
    ensures { IfOk result (λ term. term ≡ place_term columns place.now) }
{
    match place {
        Place::Const(text) => Ok(Term::Const(text.copy(alloc)?)),
        Place::Col(column) => Ok(Term::Var(*column)),
        Place::New => Ok(Term::Var(columns)),
    }
}

// How many columns there are behind a place.
fn counted(columns: u32, place: &Place) -> u32
    requires { columns < 2 ^ 32 - 1 }
    ensures { result ≡ made columns (place.now ∷ []) }
{
    match place {
        Place::New => columns + 1,
        Place::Const(_) => columns,
        Place::Col(_) => columns,
    }
}

// The terms of an output.
fn head(alloc: Global, output: &[Out]) -> Result<Vec<Term>, NoMemory>
    ensures { IfOk result (λ head. head.items ≡ map out_term output.now) }
{
    let mut head = Vec::with_capacity(alloc, output.len())?;
    for place in output {
        head.push(head_term(alloc, place)?)?;
    }
    Ok(head)
}

fn head_term(alloc: Global, place: &Out) -> Result<Term, NoMemory>
    ensures { IfOk result (λ term. term ≡ out_term place.now) }
{
    match place {
        Out::Const(text) => Ok(Term::Const(text.copy(alloc)?)),
        Out::Col(column) => Ok(Term::Var(*column)),
    }
}
