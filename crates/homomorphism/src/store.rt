// Distinct facts, by number.
ghost use Rattle.std.specs.Prelude.{◌≡◌, ◌↔◌, ◌≤◌, ◌-◌, IsTrue, [], ◌∷◌, ◌++◌, List, Contains, IfOk, OnErr, OnOk, slice_get, option_copied, true, false, if◌then◌else◌, take, length};
ghost use Rattle.meaning.specs.declared.types.Ground.{Ground as TheGround};
ghost use Rattle.meaning.specs.Search.{AreDistinct};
ghost use Rattle.meaning.specs.Added.{with_fact, with_facts};
ghost use Rattle.meaning.specs.Triggers.{terms_bound};
ghost use Rattle.homomorphism.specs.Instances.{AreFactsOf};
ghost use Rattle.homomorphism.specs.Listed.{IsIndexOf, MayHaveNoted, AreCandidates};

use crate::fact_index::FactIndex;
use crate::instance::distinct_grounds;
use crate::keyed::{Keyed, digest};
use crate::positions::Positions;
use indexmap::IndexSet;
use lists::{Copies, NoMemory};
use meaning::types::{Atom, Ground, Instance, Rule, Val};
use std::alloc::Global;
use std::marker::Model;

/// Labelled facts, of which none stands twice. Contracts see the list of the facts, by number.
#[derive(Drop)]
pub struct Store {
    facts: IndexSet<Ground, Keyed>,
    index: FactIndex,
}

impl Model for Store {
    ghost use Rattle.std.specs.Prelude.{List};
    ghost use Rattle.meaning.specs.declared.types.Ground.{Ground};
    ghost use Rattle.homomorphism.specs.Listed.{IsIndexOf};

    ghost Value = { List Ground };

    ghost view = { λ s. s.facts.keys };

    ghost invariant = { λ s. IsIndexOf s.facts.keys s.index };
}

impl Store {
    /// The store without facts. Takes no memory.
    pub fn new(alloc: Global) -> Store
        ensures { result ≡ [] }
    {
        Store::found_by(alloc, Positions::all(alloc))
    }

    /// The store without facts, in which facts are found by their values at these positions. Takes no memory.
    pub fn found_by(alloc: Global, positions: Positions) -> Store
        ensures { result ≡ [] }
    {
        Store {
            facts: IndexSet::with_hasher(alloc, Keyed::new(positions.key())),
            index: FactIndex::new(alloc, positions),
        }
    }

    /// A store of exactly the facts of an instance, each text as a constant.
    pub fn of_instance(alloc: Global, instance: &Instance) -> Result<Store, NoMemory>
        ensures { IfOk result (λ store. AreFactsOf instance.now store) }
    {
        let facts = distinct_grounds(alloc, instance.copy(alloc)?)?;
        Ok(Store::of_facts(alloc, facts, Positions::all(alloc))?)
    }

    /// A store of exactly the facts of an instance, which is used up, each text as a constant. It is made for tests of these
    /// rules: by other values than those that the rules look for, no fact is found quickly.
    pub fn for_rules(alloc: Global, instance: Instance, rules: &[Rule]) -> Result<Store, NoMemory>
        ensures { IfOk result (λ store. AreFactsOf instance store) }
    {
        let facts = distinct_grounds(alloc, instance)?;
        let positions = Positions::of_rules(alloc, rules)?;
        Ok(Store::of_facts(alloc, facts, positions)?)
    }

    /// A store of these facts, of which none stands twice, in which they are found by their values at these positions.
    fn of_facts(alloc: Global, facts: Vec<Ground>, positions: Positions) -> Result<Store, NoMemory>
        requires { AreDistinct facts.items }
        ensures { IfOk result (λ store. store ≡ facts.items) }
    {
        let key = digest(facts.as_slice());
        let mut store = Store::found_by(alloc, positions.with_key(key));
        for fact in facts {
            store.insert(alloc, fact)?;
        }
        Ok(store)
    }

    /// How many facts there are. Takes no memory.
    pub fn len(&self) -> usize
        ensures { result ≡ length self.now }
    {
        self.facts.len()
    }

    /// Whether there is no fact. Takes no memory.
    pub fn is_empty(&self) -> bool
        ensures { IsTrue result ↔ (length self.now ≡ 0) }
    {
        self.facts.len() == 0
    }

    /// The fact with this number, counted from 0; none comes exactly where the store has no such number. Takes no memory.
    pub fn get(&self, number: usize) -> Option<&Ground>
        ensures { option_copied result ≡ slice_get self.now number }
    {
        self.facts.get_index(number)
    }

    /// Whether the fact is there. Takes no memory.
    #[tactic(auto, using(crate::proofs::Filing::found_is_there))]
    pub fn contains(&self, fact: &Ground) -> bool
        ensures { IsTrue result ↔ Contains self.now fact.now }
    {
        self.facts.contains(fact)
    }

    /// Adds the fact as the last one where it is not there yet, and says whether it did. Where memory is refused,
    /// nothing changes.
    #[tactic(auto, using(crate::proofs::Filing::inserted_is_added, crate::proofs::Filing::added_is_new))]
    pub fn insert(&mut self, alloc: Global, fact: Ground) -> Result<bool, NoMemory>
        ensures there { IfOk result (λ added. (added ≡ false) ↔ Contains self.old fact) }
        ensures kept { OnOk result (self.new ≡ with_fact self.old fact) }
        ensures refused { OnErr result (self.new ≡ self.old) }
    {
        let Ok(added) = self.facts.insert(fact) else {
            return Err(NoMemory);
        };
        if !added {
            return Ok(false);
        }
        match note_last(alloc, self.facts.as_slice(), &mut self.index) {
            Ok(()) => Ok(true),
            Err(fault) => {
                take_last(&mut self.facts, &mut self.index);
                Err(fault)
            }
        }
    }

    /// Adds the facts that are not there yet, behind those that are, and copies none. Where memory is refused, nothing
    /// changes.
    pub fn add_all(&mut self, alloc: Global, news: Vec<Ground>) -> Result<(), NoMemory>
        ensures added { OnOk result (self.new ≡ with_facts self.old news.items) }
        ensures refused { OnErr result (self.new ≡ self.old) }
    {
        let count = self.facts.len();
        match self.add_each(alloc, news) {
            Ok(()) => Ok(()),
            Err(fault) => {
                self.truncate(count);
                Err(fault)
            }
        }
    }

    /// Drops all facts behind the first `count`. Takes no memory.
    pub fn truncate(&mut self, count: usize)
        ensures { self.new ≡ take count self.old }
    {
        while self.facts.len() > count {
            self.drop_last();
        }
    }

    /// Drops the last fact, if there is one. Takes no memory.
    fn drop_last(&mut self)
        ensures { self.new ≡ take (length self.old - 1) self.old }
    {
        take_last(&mut self.facts, &mut self.index);
    }

    /// Numbers of facts, ascending, among which is each fact that the atom can be where the given values hold.
    pub(crate) fn candidates(
        &self,
        alloc: Global,
        atom: &Atom,
        given: &[Option<Val>],
    ) -> Result<&[usize], NoMemory>
        requires { terms_bound atom.now.terms ≤ length given.now }
        ensures { IfOk result (λ numbers. AreCandidates self.now atom.now given.now numbers.now) }
    {
        self.index.candidates(alloc, atom, given)
    }

    /// The facts, lent.
    #[tactic(auto, using(crate::proofs::Filing::distinct_keys))]
    pub(crate) fn facts(&self) -> &[Ground]
        ensures facts { result.now ≡ self.now }
        ensures once { AreDistinct self.now }
    {
        self.facts.as_slice()
    }

    /// Adds the facts that are not there yet; where memory is refused, some of them stand at the end.
    fn add_each(&mut self, alloc: Global, news: Vec<Ground>) -> Result<(), NoMemory>
        ensures front { take (length self.old) self.new ≡ self.old }
        ensures added { OnOk result (self.new ≡ with_facts self.old news.items) }
    {
        for fact in news {
            self.insert(alloc, fact)?;
        }
        Ok(())
    }
}

/// Notes the last fact, if there is one. Where memory is refused, it may be noted by some of its keys.
fn note_last(alloc: Global, facts: &[Ground], index: &mut FactIndex) -> Result<(), NoMemory>
    ensures noted { OnOk result ((before : List TheGround) (fact : TheGround) → facts.now ≡ before ++ fact ∷ [] → IsIndexOf before index.old → IsIndexOf facts.now index.new) }
    ensures part { (before : List TheGround) (fact : TheGround) → facts.now ≡ before ++ fact ∷ [] → IsIndexOf before index.old → MayHaveNoted before fact index.new }
{
    let [before @ .., last] = facts else {
        return Ok(());
    };
    index.note(alloc, last, before.len())
}

/// Takes out the last fact, if there is one, as far as it is noted. Takes no memory.
fn take_last(facts: &mut IndexSet<Ground, Keyed>, index: &mut FactIndex)
    ensures facts { facts.new.keys ≡ take (length facts.old.keys - 1) facts.old.keys }
    ensures none { facts.old.keys ≡ [] → index.new ≡ index.old }
    ensures index { (before : List TheGround) (fact : TheGround) → facts.old.keys ≡ before ++ fact ∷ [] → MayHaveNoted before fact index.old → IsIndexOf before index.new }
{
    if let Some(last) = facts.pop() {
        index.strike(last, facts.len());
    }
}
