// The assignments that make atoms facts.
ghost use Rattle.std.specs.Prelude.{◌≡◌, ◌≤◌, ◌⊎◌, [], ◌∷◌, length, map, IfOk, OnOk};
ghost use Rattle.meaning.specs.Triggers.{terms_bound, bound};
ghost use Rattle.homomorphism.specs.Narrowing.{value_or_none};
ghost use Rattle.homomorphism.specs.Matches.{AddsMatches, AreCovered};
ghost use Rattle.homomorphism.specs.Ways.{IsWayIf, AreWays};

use crate::assignment::{Assignment, Bindings};
use crate::bind::{could_be, unify};
use crate::store::Store;
use lists::{Copies, NoMemory, Seq};
use meaning::types::{Atom, Ground, Val};
use std::alloc::Global;

/// The way to make the atom this fact, if there is one.
fn way(
    alloc: Global,
    atom: &Atom,
    fact: &Ground,
    given: &Bindings,
) -> Result<Option<Bindings>, NoMemory>
    requires { terms_bound atom.now.terms ≤ length given.now }
    ensures { IfOk result (λ way. IsWayIf fact.now atom.now given.now way) }
{
    if fact.rel != atom.rel
        || !could_be(
            given.as_slice(),
            atom.terms.as_slice(),
            fact.vals.as_slice(),
        )
    {
        return Ok(None);
    }
    unify(
        alloc,
        given.copy(alloc)?,
        atom.terms.as_slice(),
        fact.vals.as_slice(),
    )
}

/// The ways to make the atom one of the facts of the store.
fn ways(
    alloc: Global,
    atom: &Atom,
    store: &Store,
    given: &Bindings,
) -> Result<Vec<Bindings>, NoMemory>
    requires { terms_bound atom.now.terms ≤ length given.now }
    ensures { IfOk result (λ ways. AreWays store.now atom.now given.now ways.items) }
{
    let mut ways = Vec::new(alloc);
    let facts = store.facts();
    for number in store.candidates(alloc, atom, given.as_slice())? {
        if let Some(way) = way(alloc, atom, &facts[*number], given)? {
            ways.push(way)?;
        }
    }
    Ok(ways)
}

/// The values, which are taken over; a variable without one gets any.
pub fn assignment(alloc: Global, given: Bindings) -> Result<Assignment, NoMemory>
    ensures { IfOk result (λ made. made.vals ≡ map value_or_none given) }
{
    let mut values = Vec::with_capacity(alloc, given.len())?;
    for value in given.into_vec() {
        match value {
            Some(value) => values.push(value)?,
            None => values.push(Val::Label(0))?,
        }
    }
    Ok(Assignment {
        vals: Seq::from_vec(values),
    })
}

/// Adds all matches.
pub fn every(
    alloc: Global,
    atoms: &[Atom],
    store: &Store,
    given: Bindings,
    found: &mut Vec<Assignment>,
) -> Result<(), NoMemory>
    requires fits { bound atoms.now ≤ length given }
    requires covered { AreCovered atoms.now given }
    ensures { OnOk result (AddsMatches store.now atoms.now given found.old.items found.new.items) }
{
    let [atom, rest @ ..] = atoms else {
        found.push(assignment(alloc, given)?)?;
        return Ok(());
    };
    for way in ways(alloc, atom, store, &given)? {
        every(alloc, rest, store, way, found)?;
    }
    Ok(())
}
