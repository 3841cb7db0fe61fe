// Variables numbered by first occurrence.
ghost use Rattle.std.specs.Prelude.{◌≡◌, ◌≤◌, ◌<◌, ◌^◌, IfOk, [], length, map};
ghost use Rattle.sql_conjunctive.specs.Merging.{with_terms};
ghost use Rattle.sql_conjunctive.specs.Numbering.{place_from, seen_with, order_in, order_through, number_in};

use lists::{Copies, NoMemory, Seq};
use meaning::types::{Atom, Term};
use std::alloc::Global;

/// The variables of the atoms, each once, in the order of their first occurrence.
pub fn order_of(alloc: Global, atoms: &[Atom]) -> Result<Vec<u32>, NoMemory>
    ensures { IfOk result (λ order. order.items ≡ order_through [] atoms.now) }
{
    let mut seen = Vec::new(alloc);
    let mut left = atoms;
    while let [atom, rest @ ..] = left {
        see_terms(&mut seen, atom.terms.as_slice())?;
        left = rest;
    }
    Ok(seen)
}

/// The variables of the terms are seen too.
fn see_terms(seen: &mut Vec<u32>, terms: &[Term]) -> Result<(), NoMemory>
    ensures { IfOk result (λ _. seen.new.items ≡ order_in seen.old.items terms.now) }
{
    let mut left = terms;
    while let [term, rest @ ..] = left {
        if let Term::Var(variable) = term {
            see(seen, *variable)?;
        }
        left = rest;
    }
    Ok(())
}

/// The variable is seen, once.
fn see(seen: &mut Vec<u32>, variable: u32) -> Result<(), NoMemory>
    ensures { IfOk result (λ _. seen.new.items ≡ seen_with seen.old.items variable) }
{
    if place(seen.as_slice(), variable) == seen.len() {
        seen.push(variable)?;
    }
    Ok(())
}

/// The place of a variable in the list, and the list's length where it is not there.
fn place(order: &[u32], variable: u32) -> usize
    ensures place { result ≡ place_from 0 order.now variable }
    ensures within { result ≤ length order.now }
{
    let mut number = 0;
    let mut left = order;
    while let [next, rest @ ..] = left {
        if *next == variable {
            return number;
        }
        number += 1;
        left = rest;
    }
    number
}

/// The atoms with each variable's place in the order as its number.
pub fn number_all(alloc: Global, order: &[u32], atoms: &[Atom]) -> Result<Vec<Atom>, NoMemory>
    requires { length order.now < 2 ^ 32 }
    ensures { IfOk result (λ new. new.items ≡ map (with_terms (number_in order.now)) atoms.now) }
{
    let mut new = Vec::with_capacity(alloc, atoms.len())?;
    for atom in atoms {
        let terms = number_terms(alloc, order, atom.terms.as_slice())?;
        new.push(Atom {
            rel: atom.rel,
            terms: Seq::from_vec(terms),
        })?;
    }
    Ok(new)
}

fn number_terms(alloc: Global, order: &[u32], terms: &[Term]) -> Result<Vec<Term>, NoMemory>
    requires { length order.now < 2 ^ 32 }
    ensures { IfOk result (λ new. new.items ≡ map (number_in order.now) terms.now) }
{
    let mut new = Vec::with_capacity(alloc, terms.len())?;
    for term in terms {
        new.push(number_term(alloc, order, term)?)?;
    }
    Ok(new)
}

fn number_term(alloc: Global, order: &[u32], term: &Term) -> Result<Term, NoMemory>
    requires { length order.now < 2 ^ 32 }
    ensures { IfOk result (λ new. new ≡ number_in order.now term.now) }
{
    match term {
        Term::Var(variable) => Ok(Term::Var(place(order, *variable) as u32)),
        Term::Const(text) => Ok(Term::Const(text.copy(alloc)?)),
    }
}
