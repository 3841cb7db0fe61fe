// Labelled facts and the next label.
ghost use Rattle.std.specs.Prelude.{◌≡◌, ◌≤◌, [], ◌∷◌, take, IfOk, OnOk, OnErr};
ghost use Rattle.meaning.specs.Added.{with_fact, with_facts};
ghost use Rattle.meaning.specs.Triggers.{LabelsBelow};

use homomorphism::{Positions, Store};
use lists::NoMemory;
use meaning::types::Ground;
use std::alloc::Global;
use std::marker::Model;

/// A store of labelled facts, and the next label, which is above every label of the store.
#[derive(Drop)]
pub struct State {
    store: Store,
    next: u32,
}

impl Model for State {
    ghost use Rattle.meaning.specs.Triggers.{State, LabelsBelow};

    ghost Value = { State };

    ghost view = { λ s. record { facts = s.store; next = s.next } };

    ghost invariant = { λ s. LabelsBelow s.store s.next };
}

impl State {
    /// The state of these facts, with this next label. Facts are found by their values at these positions.
    pub fn start(
        alloc: Global,
        facts: Vec<Ground>,
        next: u32,
        positions: Positions,
    ) -> Result<State, NoMemory>
        requires { LabelsBelow facts.items next }
        ensures { IfOk result (λ state. state ≡ record { facts = with_facts [] facts.items; next = next }) }
    {
        let mut store = Store::found_by(alloc, positions);
        store.add_all(alloc, facts)?;
        Ok(State { store, next })
    }

    /// The facts, lent. Takes no memory.
    pub fn store(&self) -> &Store
        ensures { result.now ≡ self.now.facts }
    {
        &self.store
    }

    /// The next label, which is above every label of the facts. Takes no memory.
    pub fn next(&self) -> u32
        ensures next { result ≡ self.now.next }
        ensures labels { LabelsBelow self.now.facts self.now.next }
    {
        self.next
    }

    /// Adds the facts that are not there yet, and sets the next label, which may stay. Where memory is refused, nothing
    /// changes.
    pub fn add(&mut self, alloc: Global, news: Vec<Ground>, next: u32) -> Result<(), NoMemory>
        requires later { self.old.next ≤ next }
        requires labels { LabelsBelow self.old.facts self.old.next → LabelsBelow news.items next }
        ensures added { OnOk result (self.new ≡ record { facts = with_facts self.old.facts news.items; next = next }) }
        ensures refused { OnErr result (self.new ≡ self.old) }
    {
        self.store.add_all(alloc, news)?;
        self.next = next;
        Ok(())
    }

    /// Adds the fact if it is not there yet, and sets the next label, which may stay. Where memory is refused, nothing
    /// changes.
    pub fn insert(&mut self, alloc: Global, fact: Ground, next: u32) -> Result<(), NoMemory>
        requires later { self.old.next ≤ next }
        requires labels { LabelsBelow self.old.facts self.old.next → LabelsBelow (fact ∷ []) next }
        ensures added { OnOk result (self.new ≡ record { facts = with_fact self.old.facts fact; next = next }) }
        ensures refused { OnErr result (self.new ≡ self.old) }
    {
        self.store.insert(alloc, fact)?;
        self.next = next;
        Ok(())
    }

    /// Sets a next label that is not lower. Takes no memory.
    pub fn raise(&mut self, next: u32)
        requires later { self.old.next ≤ next }
        ensures { self.new ≡ record { facts = self.old.facts; next = next } }
    {
        self.next = next;
    }

    /// Drops all facts behind the first `count`, and sets the next label, which is above the labels of the others.
    /// Takes no memory.
    pub fn cut_back(&mut self, count: usize, next: u32)
        requires labels { LabelsBelow (take count self.old.facts) next }
        ensures { self.new ≡ record { facts = take count self.old.facts; next = next } }
    {
        self.store.truncate(count);
        self.next = next;
    }
}
