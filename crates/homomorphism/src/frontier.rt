// Matches that stand for all others which give the variables of some atoms the same values.
ghost use Rattle.std.specs.Prelude.{◌≡◌, ◌<◌, ◌≤◌, ℕ, Contains, Some, None, length, map, slice_get, true, IfOk, IfSome, IfNone, OnOk};
ghost use Rattle.meaning.specs.declared.types.Term.TheVariants.{Var};
ghost use Rattle.meaning.specs.Matching.{OccursIn};
ghost use Rattle.meaning.specs.Triggers.{bound};
ghost use Rattle.homomorphism.specs.Narrowing.{value_or_none};
ghost use Rattle.homomorphism.specs.Matches.{IsMatch, NoMatch, AreCovered};
ghost use Rattle.homomorphism.specs.Widening.{taken};
ghost use Rattle.homomorphism.specs.Frontier.{AddsFrontier};

use crate::assignment::Assignment;
use crate::extend::{extend, free_variables, release, take_fact};
use crate::store::Store;
use lists::{Copies, NoMemory, Seq};
use meaning::types::{Atom, Term, Val};
use std::alloc::Global;

/// Whether the term is no variable without a value. Takes no memory.
fn has_value(term: &Term, given: &[Option<Val>]) -> bool
    ensures { result ≡ true → (x : ℕ) → term.now ≡ Var x → slice_get given.now x ≡ Some None → ⊥ }
{
    match term {
        Term::Const(_) => true,
        Term::Var(variable) => match given.get(*variable as usize) {
            Some(None) => false,
            _ => true,
        },
    }
}

/// Whether no term is a variable without a value. Takes no memory.
pub fn have_values(terms: &[Term], given: &[Option<Val>]) -> bool
    ensures { result ≡ true → (x : ℕ) → Contains terms.now (Var x) → slice_get given.now x ≡ Some None → ⊥ }
{
    for term in terms {
        if !has_value(term, given) {
            return false;
        }
    }
    true
}

/// Whether no variable without a value occurs in the atoms. Takes no memory.
fn are_bound(atoms: &[Atom], given: &[Option<Val>]) -> bool
    ensures { result ≡ true → (x : ℕ) → OccursIn atoms.now x → slice_get given.now x ≡ Some None → ⊥ }
{
    for atom in atoms {
        if !have_values(atom.terms.as_slice(), given) {
            return false;
        }
    }
    true
}

/// The values; a variable without one gets any.
fn filled(alloc: Global, given: &[Option<Val>]) -> Result<Assignment, NoMemory>
    ensures { IfOk result (λ made. made.vals ≡ map value_or_none given.now) }
{
    let mut values = Vec::with_capacity(alloc, given.len())?;
    for value in given {
        match value {
            Some(value) => values.push(value.copy(alloc)?)?,
            None => values.push(Val::Label(0))?,
        }
    }
    Ok(Assignment {
        vals: Seq::from_vec(values),
    })
}

/// A copy of the values.
pub fn copied(alloc: Global, given: &[Option<Val>]) -> Result<Vec<Option<Val>>, NoMemory>
    ensures { IfOk result (λ copies. copies.items ≡ given.now) }
{
    let mut copies = Vec::with_capacity(alloc, given.len())?;
    for value in given {
        copies.push(value.copy(alloc)?)?;
    }
    Ok(copies)
}

/// A match of the atoms with these numbers that agrees with the given values, if there is one.
fn one_match(
    alloc: Global,
    atoms: &[Atom],
    order: &[usize],
    store: &Store,
    given: &[Option<Val>],
) -> Result<Option<Assignment>, NoMemory>
    requires fits { bound atoms.now ≤ length given.now }
    requires within { (n : ℕ) → Contains order.now n → n < length atoms.now }
    ensures some { IfOk result (λ found. IfSome found (λ m. IsMatch store.now (taken atoms.now order.now) given.now m.vals)) }
    ensures none { IfOk result (λ found. IfNone found (NoMatch store.now (taken atoms.now order.now) given.now)) }
{
    let mut wide = copied(alloc, given)?;
    if extend(alloc, atoms, order, store, &mut wide)? {
        return Ok(Some(filled(alloc, wide.as_slice())?));
    }
    Ok(None)
}

/// Adds matches of the atoms with these numbers: for each match one that gives the variables of the head the same values.
///
/// Where all variables of the head have a value, one match of the atoms that are left is enough.
pub fn frontier(
    alloc: Global,
    atoms: &[Atom],
    order: &[usize],
    head: &[Atom],
    store: &Store,
    given: &mut Vec<Option<Val>>,
    found: &mut Vec<Assignment>,
) -> Result<(), NoMemory>
    requires fits { bound atoms.now ≤ length given.old.items }
    requires within { (n : ℕ) → Contains order.now n → n < length atoms.now }
    requires covered { AreCovered (taken atoms.now order.now) given.old.items }
    ensures found { OnOk result (AddsFrontier store.now (taken atoms.now order.now) head.now given.old.items found.old.items found.new.items) }
    ensures same { OnOk result (given.new.items ≡ given.old.items) }
{
    let [place, rest @ ..] = order else {
        found.push(filled(alloc, given.as_slice())?)?;
        return Ok(());
    };
    if are_bound(head, given.as_slice()) {
        if let Some(one) = one_match(alloc, atoms, order, store, given.as_slice())? {
            found.push(one)?;
        }
        return Ok(());
    }
    let atom = &atoms[*place];
    let free = free_variables(alloc, atom.terms.as_slice(), given.as_slice())?;
    let facts = store.facts();
    for number in store.candidates(alloc, atom, given.as_slice())? {
        if take_fact(alloc, atom, &facts[*number], free.as_slice(), given)? {
            frontier(alloc, atoms, rest, head, store, given, found)?;
            release(given, free.as_slice());
        }
    }
    Ok(())
}
