// Which facts have a key, found in the logarithm of the number of keys.
ghost use Rattle.std.specs.Prelude.{◌≡◌, ◌≤◌, ℕ, true, [], ◌∷◌, ◌++◌, length, List, IfOk, IfSome, OnOk};
ghost use Rattle.meaning.specs.declared.types.Ground.{Ground as TheGround};
ghost use Rattle.meaning.specs.declared.types.Val.{Val as TheVal};
ghost use Rattle.meaning.specs.declared.types.Val.TheVariants.{Const};
ghost use Rattle.meaning.specs.Matching.{value_of};
ghost use Rattle.meaning.specs.Triggers.{terms_bound};
ghost use Rattle.homomorphism.specs.Bindings.{Agrees};
ghost use Rattle.homomorphism.specs.Listed.{has_position, IsIndexOf, MayHaveNoted, AreCandidates};

use crate::key::Key;
use crate::key_lists::KeyLists;
use crate::positions::Positions;
use lists::{Copies, NoMemory};
use meaning::types::{Atom, Ground, Term, Val};
use std::alloc::Global;

/// For each relation, and each value at one of the positions, the numbers of the facts that have it, ascending.
///
/// No choice of values makes a look-up slow.
#[derive(Drop)]
pub struct FactIndex {
    positions: Positions,
    lists: KeyLists,
}

impl FactIndex {
    /// The index of no facts, to be found by their values at these positions. Takes no memory.
    pub fn new(alloc: Global, positions: Positions) -> FactIndex
        ensures { IsIndexOf [] result }
    {
        FactIndex {
            positions,
            lists: KeyLists::new(alloc),
        }
    }

    /// Notes the fact behind these, which gets the number of them. Where memory is refused, it may be noted by some of its
    /// keys.
    pub fn note(&mut self, alloc: Global, fact: &Ground, number: usize) -> Result<(), NoMemory>
        ensures noted { OnOk result ((facts : List TheGround) → number ≡ length facts → IsIndexOf facts self.old → IsIndexOf (facts ++ fact.now ∷ []) self.new) }
        ensures part { (facts : List TheGround) → number ≡ length facts → IsIndexOf facts self.old → MayHaveNoted facts fact.now self.new }
    {
        self.lists.note_all(alloc, &self.positions, fact, number)
    }

    /// Takes out the fact behind these, which has the number of them, as far as it is noted. Takes no memory.
    pub fn strike(&mut self, fact: Ground, number: usize)
        ensures { (facts : List TheGround) → number ≡ length facts → MayHaveNoted facts fact self.old → IsIndexOf facts self.new }
    {
        self.lists.strike_all(&self.positions, fact, number);
    }

    /// Numbers of facts, ascending, among which is each fact that the atom can be where the given values hold: the
    /// shortest list of those for the relation and for each term with a value.
    pub fn candidates(
        &self,
        alloc: Global,
        atom: &Atom,
        given: &[Option<Val>],
    ) -> Result<&[usize], NoMemory>
        requires { terms_bound atom.now.terms ≤ length given.now }
        ensures { IfOk result (λ numbers. (facts : List TheGround) → IsIndexOf facts self.now → AreCandidates facts atom.now given.now numbers.now) }
    {
        let rel = atom.rel;
        let mut best = self.lists.numbers(&Key::Relation(rel));
        for (position, term) in atom.terms.as_slice().iter().enumerate() {
            if let Some(val) = sought(alloc, &self.positions, rel, position, term, given)? {
                let numbers = self.lists.numbers(&Key::Value { rel, position, val });
                if numbers.len() < best.len() {
                    best = numbers;
                }
            }
        }
        Ok(best)
    }
}

/// The term's value, where it is known and facts are found by it.
fn sought(
    alloc: Global,
    positions: &Positions,
    rel: u32,
    position: usize,
    term: &Term,
    given: &[Option<Val>],
) -> Result<Option<Val>, NoMemory>
    requires { terms_bound (term.now ∷ []) ≤ length given.now }
    ensures { IfOk result (λ sought. IfSome sought (λ val. (has_position positions.now rel position ≡ true) × ((a : ℕ → TheVal) → Agrees given.now a → value_of Const a term.now ≡ val))) }
{
    if !positions.has(rel, position) {
        return Ok(None);
    }
    known(alloc, term, given)
}

/// The term's value, where it is a constant or a variable with a given value.
fn known(alloc: Global, term: &Term, given: &[Option<Val>]) -> Result<Option<Val>, NoMemory>
    requires { terms_bound (term.now ∷ []) ≤ length given.now }
    ensures { IfOk result (λ known. IfSome known (λ val. (a : ℕ → TheVal) → Agrees given.now a → value_of Const a term.now ≡ val)) }
{
    match term {
        Term::Const(text) => Ok(Some(Val::Const(text.copy(alloc)?))),
        Term::Var(variable) => Ok(given[*variable as usize].copy(alloc)?),
    }
}
