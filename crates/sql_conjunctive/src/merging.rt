// The terms of the columns: at first all apart, and then joined by one condition after the other.
ghost use Rattle.std.specs.Prelude.{◌≡◌, ◌≤◌, ◌<◌, ◌*◌, ◌+◌, IfOk, length, map, option_map};
ghost use Rattle.std.specs.List.{range_with_len};
ghost use Rattle.meaning.specs.declared.types.Term.TheVariants.{Var};
ghost use Rattle.meaning.specs.Conjunctive.{term_of};
ghost use Rattle.sql_conjunctive.specs.Merging.{width_of, AreNarrow, opened, opening_from, replaced, with_terms, met, met_all};

use crate::limits::MOST_FROMS;
use lists::{Copies, NoMemory, Seq, Text};
use meaning::types::{Atom, Condition, Operand, Relations, Term};
use std::alloc::Global;

/// One atom for each FROM item, with a variable of its own for each column.
pub fn opening(alloc: Global, relations: &Relations, froms: &[u32]) -> Result<Vec<Atom>, NoMemory>
    requires few { length froms.now ≤ MOST_FROMS }
    requires narrow { AreNarrow relations.now }
    ensures { IfOk result (λ atoms. atoms.items ≡ opening_from relations.now 0 froms.now) }
{
    let mut atoms = Vec::new(alloc);
    let mut from = 0;
    let mut left = froms;
    while let [rel, rest @ ..] = left {
        atoms.push(open_atom(alloc, relations, from, *rel)?)?;
        from += 1;
        left = rest;
    }
    Ok(atoms)
}

/// The atom of a FROM item, with a variable of its own for each column.
fn open_atom(alloc: Global, relations: &Relations, from: u32, rel: u32) -> Result<Atom, NoMemory>
    requires few { from < MOST_FROMS }
    requires narrow { AreNarrow relations.now }
    ensures { IfOk result (λ atom. atom ≡ opened relations.now from rel) }
{
    let terms = fresh_terms(alloc, from, width(relations, rel))?;
    Ok(Atom {
        rel,
        terms: Seq::from_vec(terms),
    })
}

/// A variable of its own for each column of the FROM item.
fn fresh_terms(alloc: Global, from: u32, width: usize) -> Result<Vec<Term>, NoMemory>
    requires few { from < MOST_FROMS }
    requires narrow { width ≤ 64 }
    ensures { IfOk result (λ terms. terms.items ≡ map (λ c. Var (from * 64 + c)) (range_with_len 0 width)) }
{
    let mut terms = Vec::with_capacity(alloc, width)?;
    for column in 0..width {
        terms.push(Term::Var(from * 64 + column as u32))?;
    }
    Ok(terms)
}

/// The number of columns of a relation, and 0 where there is none.
fn width(relations: &Relations, rel: u32) -> usize
    ensures { result ≡ width_of relations.now rel }
{
    match relations.get(rel as usize) {
        Some(relation) => relation.columns.len(),
        None => 0,
    }
}

/// The term of an operand; a column that is not there has the empty constant.
pub fn term_at(alloc: Global, atoms: &[Atom], operand: &Operand) -> Result<Term, NoMemory>
    ensures { IfOk result (λ term. term ≡ term_of atoms.now operand.now) }
{
    match operand {
        Operand::Literal(text) => Ok(Term::Const(text.copy(alloc)?)),
        Operand::Column { from, column } => match atoms.get(*from as usize) {
            Some(atom) => match atom.terms.get(*column as usize) {
                Some(term) => term.copy(alloc),
                None => Ok(Term::Const(Text::from_str(alloc, "")?)),
            },
            None => Ok(Term::Const(Text::from_str(alloc, "")?)),
        },
    }
}

/// The atoms once the two sides of each condition are one term, and None where these are two different constants.
pub fn meet_all(
    alloc: Global,
    opened: Vec<Atom>,
    conditions: &[Condition],
) -> Result<Option<Vec<Atom>>, NoMemory>
    ensures { IfOk result (λ new. option_map (λ v. v.items) new ≡ met_all opened.items conditions.now) }
{
    let mut atoms = opened;
    let mut left = conditions;
    while let [condition, rest @ ..] = left {
        let first = term_at(alloc, atoms.as_slice(), &condition.left)?;
        let second = term_at(alloc, atoms.as_slice(), &condition.right)?;
        match meet_terms(alloc, atoms, first, second)? {
            Some(new) => atoms = new,
            None => return Ok(None),
        }
        left = rest;
    }
    Ok(Some(atoms))
}

/// The atoms once these two terms are one, and None where they are two different constants.
fn meet_terms(
    alloc: Global,
    atoms: Vec<Atom>,
    left: Term,
    right: Term,
) -> Result<Option<Vec<Atom>>, NoMemory>
    ensures { IfOk result (λ new. option_map (λ v. v.items) new ≡ met atoms.items left right) }
{
    match (&left, &right) {
        (Term::Var(variable), _) => Ok(Some(replace_all(
            alloc,
            atoms.as_slice(),
            *variable,
            &right,
        )?)),
        (Term::Const(_), Term::Var(variable)) => Ok(Some(replace_all(
            alloc,
            atoms.as_slice(),
            *variable,
            &left,
        )?)),
        (Term::Const(first), Term::Const(second)) => {
            if first.as_str() == second.as_str() {
                Ok(Some(atoms))
            } else {
                Ok(None)
            }
        }
    }
}

/// The atoms with the term in place of the variable.
fn replace_all(
    alloc: Global,
    atoms: &[Atom],
    variable: u32,
    to: &Term,
) -> Result<Vec<Atom>, NoMemory>
    ensures { IfOk result (λ new. new.items ≡ map (with_terms (replaced variable to.now)) atoms.now) }
{
    let mut new = Vec::with_capacity(alloc, atoms.len())?;
    for atom in atoms {
        let terms = replace_terms(alloc, atom.terms.as_slice(), variable, to)?;
        new.push(Atom {
            rel: atom.rel,
            terms: Seq::from_vec(terms),
        })?;
    }
    Ok(new)
}

fn replace_terms(
    alloc: Global,
    terms: &[Term],
    variable: u32,
    to: &Term,
) -> Result<Vec<Term>, NoMemory>
    ensures { IfOk result (λ new. new.items ≡ map (replaced variable to.now) terms.now) }
{
    let mut new = Vec::with_capacity(alloc, terms.len())?;
    for term in terms {
        new.push(replace(alloc, term, variable, to)?)?;
    }
    Ok(new)
}

fn replace(alloc: Global, term: &Term, variable: u32, to: &Term) -> Result<Term, NoMemory>
    ensures { IfOk result (λ new. new ≡ replaced variable to.now term.now) }
{
    match term {
        Term::Var(number) => {
            if *number == variable {
                to.copy(alloc)
            } else {
                Ok(Term::Var(*number))
            }
        }
        Term::Const(text) => Ok(Term::Const(text.copy(alloc)?)),
    }
}
