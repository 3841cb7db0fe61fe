// Tests of what the calls require.
ghost use Rattle.std.specs.Prelude.{◌≡◌, ◌↔◌, ◌⊎◌, ◌<◌, IsTrue, Contains, length};
ghost use Rattle.meaning.specs.declared.types.Term.TheVariants.{Var};
ghost use Rattle.meaning.specs.Matching.{OccursIn};
ghost use Rattle.meaning.specs.Triggers.{IsNumbered};
ghost use Rattle.homomorphism.specs.Bindings.{IsBound};
ghost use Rattle.homomorphism.specs.Matches.{AreCovered};
ghost use Rattle.homomorphism.specs.Covering.{AllOccur};

use crate::assignment::Bindings;
use crate::rules::variables_width;
use meaning::types::{Atom, Atoms, Rule, Term, Val};

/// Whether each variable that has no given value occurs in the atoms, as `all_matches` requires. Takes no memory.
pub fn is_covered(atoms: &Atoms, fixed: &Bindings) -> bool
    ensures { IsTrue result ↔ AreCovered atoms.now fixed.now }
{
    let atoms = atoms.as_slice();
    let given = fixed.as_slice();
    for variable in 0..given.len() {
        if !is_given_or_occurs(atoms, given, variable) {
            return false;
        }
    }
    true
}

/// Whether the variable has a given value or occurs in the atoms.
fn is_given_or_occurs(atoms: &[Atom], given: &[Option<Val>], variable: usize) -> bool
    requires { variable < length given.now }
    ensures { IsTrue result ↔ (IsBound given.now variable ⊎ OccursIn atoms.now variable) }
{
    match &given[variable] {
        Some(_) => true,
        None => occurs(atoms, variable),
    }
}

/// Whether the variables of the rule have all numbers up to their count, those of the body first, as the calls on rules
/// require. Takes no memory.
pub fn is_numbered(rule: &Rule) -> bool
    ensures { IsTrue result ↔ IsNumbered rule.now }
{
    let body = rule.body.as_slice();
    let head = rule.head.as_slice();
    let width = variables_width(body);
    let end = variables_width(head);
    if !all_occur(body, 0, width) {
        return false;
    }
    all_occur(head, width, end)
}

/// Whether each variable from `start` up to `end` occurs in the atoms.
fn all_occur(atoms: &[Atom], start: usize, end: usize) -> bool
    ensures { IsTrue result ↔ AllOccur atoms.now start end }
{
    for variable in start..end {
        if !occurs(atoms, variable) {
            return false;
        }
    }
    true
}

/// Whether the variable is a term of one of the atoms.
pub fn occurs(atoms: &[Atom], variable: usize) -> bool
    ensures { IsTrue result ↔ OccursIn atoms.now variable }
{
    let mut left = atoms;
    while let [atom, rest @ ..] = left {
        if has_variable(atom.terms.as_slice(), variable) {
            return true;
        }
        left = rest;
    }
    false
}

/// Whether the variable is one of the terms.
fn has_variable(terms: &[Term], variable: usize) -> bool
    ensures { IsTrue result ↔ Contains terms.now (Var variable) }
{
    let mut left = terms;
    while let [term, rest @ ..] = left {
        if is_variable(term, variable) {
            return true;
        }
        left = rest;
    }
    false
}

/// Whether the term is this variable.
fn is_variable(term: &Term, variable: usize) -> bool
    ensures { IsTrue result ↔ (term.now ≡ Var variable) }
{
    match term {
        Term::Var(number) => *number as usize == variable,
        Term::Const(_) => false,
    }
}
