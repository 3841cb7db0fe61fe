// The numbers of the facts that have a key.
ghost use Rattle.std.specs.Prelude.{◌≡◌, ℕ, [], ◌∷◌, ◌++◌, List, Contains, true, OnErr, OnOk};
ghost use Rattle.meaning.specs.declared.types.Ground.{Ground as TheGround};
ghost use Rattle.homomorphism.specs.declared.key.Key.{Key as TheKey};
ghost use Rattle.homomorphism.specs.declared.key.Key.TheVariants.{Relation};
ghost use Rattle.homomorphism.specs.Listed.{keys_of, is_found_by, of_relation, listed, IsValue, MayEndIn};

use crate::coded_lists::CodedLists;
use crate::key::Key;
use crate::number_list::NumberList;
use crate::positions::Positions;
use lists::{Copies, NoMemory};
use meaning::types::Ground;
use std::alloc::Global;
use std::collections::BTreeMap;

/// The numbers of the facts of each relation, and of those that have a value at a position of a relation.
#[derive(Drop)]
pub struct KeyLists {
    relations: BTreeMap<u32, NumberList>,
    values: CodedLists,
}

impl KeyLists {
    /// Those of no facts. Takes no memory.
    pub fn new(alloc: Global) -> KeyLists
        ensures { (key : TheKey) → listed result key ≡ [] }
    {
        KeyLists {
            relations: BTreeMap::new(alloc),
            values: CodedLists::new(alloc),
        }
    }

    /// The numbers of the facts that have the key, ascending. Takes no memory.
    pub fn numbers(&self, key: &Key) -> &[usize]
        ensures { result.now ≡ listed self.now key.now }
    {
        match key {
            Key::Relation(rel) => self.of_relation(*rel),
            Key::Value { .. } => self.values.numbers(key),
        }
    }

    /// Adds the number to the lists of the keys that the fact is found by: its relation, and its value at each of the
    /// positions. Where memory is refused, it is at the ends of some of them.
    pub fn note_all(
        &mut self,
        alloc: Global,
        positions: &Positions,
        fact: &Ground,
        number: usize,
    ) -> Result<(), NoMemory>
        ensures noted { OnOk result ((key : TheKey) → is_found_by positions.now key ≡ true → Contains (keys_of fact.now) key → listed self.new key ≡ listed self.old key ++ number ∷ []) }
        ensures part { (key : TheKey) → MayEndIn (Contains (keys_of fact.now) key) number (listed self.old key) (listed self.new key) }
    {
        let rel = fact.rel;
        self.note_relation(alloc, rel, number)?;
        for (position, val) in fact.vals.as_slice().iter().enumerate() {
            if positions.has(rel, position) {
                let val = val.copy(alloc)?;
                self.note_value(alloc, Key::Value { rel, position, val }, number)?;
            }
        }
        Ok(())
    }

    /// Takes the number from the ends of the lists of the keys that the fact is found by, where it stands there. Takes no
    /// memory.
    pub fn strike_all(&mut self, positions: &Positions, fact: Ground, number: usize)
        ensures { (key : TheKey) (before : List ℕ) → is_found_by positions.now key ≡ true → (Contains before number → ⊥) → MayEndIn (Contains (keys_of fact) key) number before (listed self.old key) → listed self.new key ≡ before }
    {
        let rel = fact.rel;
        self.strike_relation(rel, number);
        let mut vals = fact.vals.into_vec();
        while let Some(val) = vals.pop() {
            let position = vals.len();
            if positions.has(rel, position) {
                self.strike_value(&Key::Value { rel, position, val }, number);
            }
        }
    }

    /// The numbers of the facts of the relation. Takes no memory.
    fn of_relation(&self, rel: u32) -> &[usize]
        ensures { result.now ≡ of_relation self.now.relations rel }
    {
        match self.relations.get(&rel) {
            Some(numbers) => numbers.as_slice(),
            None => &[],
        }
    }

    /// Adds the number to the end of the relation's list.
    fn note_relation(&mut self, alloc: Global, rel: u32, number: usize) -> Result<(), NoMemory>
        ensures here { OnOk result (listed self.new (Relation rel) ≡ listed self.old (Relation rel) ++ number ∷ []) }
        ensures others { OnOk result ((other : TheKey) → (other ≡ Relation rel → ⊥) → listed self.new other ≡ listed self.old other) }
        ensures refused { OnErr result ((other : TheKey) → listed self.new other ≡ listed self.old other) }
    {
        match self.relations.get_mut(&rel) {
            Some(numbers) => {
                numbers.push(number)?;
            }
            None => {
                let mut numbers = NumberList::new(alloc);
                numbers.push(number)?;
                self.relations.insert(rel, numbers)?;
            }
        }
        Ok(())
    }

    /// Adds the number to the end of the list of a key that is a value.
    fn note_value(&mut self, alloc: Global, key: Key, number: usize) -> Result<(), NoMemory>
        requires { IsValue key }
        ensures here { OnOk result (listed self.new key ≡ listed self.old key ++ number ∷ []) }
        ensures others { OnOk result ((other : TheKey) → (other ≡ key → ⊥) → listed self.new other ≡ listed self.old other) }
        ensures refused { OnErr result ((other : TheKey) → listed self.new other ≡ listed self.old other) }
    {
        self.values.note(alloc, key, number)
    }

    /// Takes the number from the end of the relation's list, if it stands there. Takes no memory.
    fn strike_relation(&mut self, rel: u32, number: usize)
        ensures there { (before : List ℕ) → listed self.old (Relation rel) ≡ before ++ number ∷ [] → listed self.new (Relation rel) ≡ before }
        ensures not_there { (Contains (listed self.old (Relation rel)) number → ⊥) → listed self.new (Relation rel) ≡ listed self.old (Relation rel) }
        ensures others { (other : TheKey) → (other ≡ Relation rel → ⊥) → listed self.new other ≡ listed self.old other }
    {
        match self.relations.get_mut(&rel) {
            Some(numbers) => numbers.drop_last_if(number),
            None => {}
        }
    }

    /// Takes the number from the end of the list of a key that is a value, if it stands there. Takes no memory.
    fn strike_value(&mut self, key: &Key, number: usize)
        requires { IsValue key.now }
        ensures there { (before : List ℕ) → listed self.old key.now ≡ before ++ number ∷ [] → listed self.new key.now ≡ before }
        ensures not_there { (Contains (listed self.old key.now) number → ⊥) → listed self.new key.now ≡ listed self.old key.now }
        ensures others { (other : TheKey) → (other ≡ key.now → ⊥) → listed self.new other ≡ listed self.old other }
    {
        self.values.strike(key, number);
    }
}
