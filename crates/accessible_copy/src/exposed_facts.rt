// The exposed facts, in order.
ghost use Rattle.std.specs.Prelude.{◌≡◌, ◌↔◌, ◌-◌, ◌∷◌, [], ◌++◌, ℕ, IsTrue, Contains, Ok, OnOk, OnErr, length, take, slice_get, slice_index, option_copied, true, false, Some};
ghost use Rattle.meaning.specs.declared.types.Ground.{Ground as TheGround};
ghost use Rattle.accessible_copy.specs.Places.{IsOfRelation, AreFirstOfRelations, AreIndexed};

use crate::first_places::{grow, place_at};
use homomorphism::{Positions, Store};
use lists::{Copies, Exact, NoMemory};
use meaning::types::Ground;
use std::alloc::Global;
use std::marker::Model;

/// Facts by number, of which none stands twice. Contracts see their list.
///
/// `firsts` has for each relation the place of the first fact of it. Of a relation without facts it may have any place, so that
/// facts are dropped without a look at it. `others` has the facts that are not the first of their relation: most facts are, and
/// need no index.
#[derive(Drop)]
pub struct ExposedFacts {
    facts: Vec<Ground>,
    firsts: Vec<usize>,
    others: Store,
}

impl Model for ExposedFacts {
    ghost use Rattle.std.specs.Prelude.{◌≡◌, List};
    ghost use Rattle.meaning.specs.declared.types.Ground.{Ground};
    ghost use Rattle.accessible_copy.specs.Places.{AreIndexed};

    ghost Value = { List Ground };

    ghost view = { λ e. e.facts.items };

    ghost invariant = { λ e. AreIndexed e.facts.items e.firsts.items e.others };
}

impl ExposedFacts {
    /// No facts. Takes no memory.
    pub fn new(alloc: Global) -> ExposedFacts
        ensures { result ≡ [] }
    {
        ExposedFacts {
            facts: Vec::new(alloc),
            firsts: Vec::new(alloc),
            others: Store::found_by(alloc, Positions::none(alloc)),
        }
    }

    /// How many facts there are. Takes no memory.
    pub fn len(&self) -> usize
        ensures { result ≡ length self.now }
    {
        self.facts.len()
    }

    /// The fact with this number. Takes no memory.
    pub fn get(&self, number: usize) -> Option<&Ground>
        ensures { option_copied result ≡ slice_get self.now number }
    {
        self.facts.get(number)
    }

    /// Whether the fact is there. It is looked up only where its relation has a fact, and not where it is the first of these.
    /// Takes no memory.
    pub fn contains(&self, fact: &Ground) -> bool
        ensures { IsTrue result ↔ Contains self.now fact.now }
    {
        let first = place_at(self.firsts.as_slice(), fact.rel);
        if !is_of_relation(self.facts.as_slice(), first, fact.rel) {
            return false;
        }
        is_at(self.facts.as_slice(), first, fact) || self.others.contains(fact)
    }

    /// One more fact, which is not there yet. Where memory is refused, nothing changes.
    pub fn push(&mut self, alloc: Global, fact: Ground) -> Result<(), NoMemory>
        requires new { Contains self.old fact → ⊥ }
        ensures pushed { OnOk result (self.new ≡ self.old ++ fact ∷ []) }
        ensures refused { OnErr result (self.new ≡ self.old) }
    {
        let count = self.others.len();
        let facts = self.facts.as_slice();
        note(alloc, facts, &mut self.firsts, &mut self.others, &fact)?;
        match self.facts.push(fact) {
            Ok(()) => Ok(()),
            Err(_) => {
                self.others.truncate(count);
                Err(NoMemory)
            }
        }
    }

    /// Drops all facts behind the first `count`. Takes no memory.
    pub fn truncate(&mut self, count: usize)
        ensures { self.new ≡ take count self.old }
    {
        while self.facts.len() > count {
            self.drop_last();
        }
    }

    /// Drops the last fact, if there is one. Takes no memory.
    fn drop_last(&mut self)
        ensures { self.new ≡ take (length self.old - 1) self.old }
    {
        if let Some(fact) = self.facts.pop() {
            let facts = self.facts.as_slice();
            strike(facts, self.firsts.as_slice(), &mut self.others, &fact);
        }
    }
}

/// Whether the fact stands at the place. Takes no memory.
fn is_at(facts: &[Ground], place: usize, fact: &Ground) -> bool
    ensures { IsTrue result ↔ (slice_get facts.now place ≡ Some fact.now) }
{
    match facts.get(place) {
        Some(found) => found.same(fact),
        None => false,
    }
}

/// Whether a fact of the relation stands at the place. Takes no memory.
fn is_of_relation(facts: &[Ground], place: usize, rel: u32) -> bool
    ensures { IsTrue result ↔ IsOfRelation facts.now place rel }
{
    match facts.get(place) {
        Some(fact) => fact.rel == rel,
        None => false,
    }
}

/// Notes a fact that is not there yet behind these. Where memory is refused, the others are as before.
fn note(
    alloc: Global,
    facts: &[Ground],
    firsts: &mut Vec<usize>,
    others: &mut Store,
    fact: &Ground,
) -> Result<(), NoMemory>
    ensures noted { OnOk result (AreIndexed facts.now firsts.old.items others.old → (Contains facts.now fact.now → ⊥) →
        AreIndexed (facts.now ++ fact.now ∷ []) firsts.new.items others.new) }
    ensures kept { AreIndexed facts.now firsts.old.items others.old → AreIndexed facts.now firsts.new.items others.old }
    ensures front { take (length others.old) others.new ≡ others.old }
    ensures refused { OnErr result (others.new ≡ others.old) }
{
    if note_relation(firsts, facts, fact.rel)? {
        return Ok(());
    }
    others.insert(alloc, fact.copy(alloc)?)?;
    Ok(())
}

/// Takes a fact back that stood behind these. Takes no memory.
fn strike(facts: &[Ground], firsts: &[usize], others: &mut Store, fact: &Ground)
    ensures { AreIndexed (facts.now ++ fact.now ∷ []) firsts.now others.old → AreIndexed facts.now firsts.now others.new }
{
    if place_at(firsts, fact.rel) == facts.len() {
        return;
    }
    let count = others.len();
    others.truncate(count.saturating_sub(1));
}

/// Notes the next place as the relation's first one, if no fact of it stands here, and says whether it did.
fn note_relation(firsts: &mut Vec<usize>, facts: &[Ground], rel: u32) -> Result<bool, NoMemory>
    ensures kept { AreFirstOfRelations facts.now firsts.old.items → AreFirstOfRelations facts.now firsts.new.items }
    ensures same { (n : ℕ) (fact : TheGround) → AreFirstOfRelations facts.now firsts.old.items → slice_get facts.now n ≡ Some fact →
        slice_index firsts.new.items fact.rel ≡ slice_index firsts.old.items fact.rel }
    ensures next { OnOk result (AreFirstOfRelations facts.now firsts.old.items → (fact : TheGround) → fact.rel ≡ rel →
        AreFirstOfRelations (facts.now ++ fact ∷ []) firsts.new.items) }
    ensures first { result ≡ Ok true → slice_index firsts.new.items rel ≡ length facts.now }
    ensures other { result ≡ Ok false → IsOfRelation facts.now (slice_index firsts.new.items rel) rel }
{
    let first = place_at(firsts.as_slice(), rel);
    if is_of_relation(facts, first, rel) {
        return Ok(false);
    }
    grow(firsts, rel as usize)?;
    firsts[rel as usize] = facts.len();
    Ok(true)
}
