// Which facts hold a value.
ghost use Rattle.std.specs.Prelude.{◌≡◌, ◌∷◌, [], ◌++◌, ℕ, IfOk, OnOk, Contains};
ghost use Rattle.meaning.specs.declared.types.Val.{Val as TheVal};
ghost use Rattle.accessible_copy.specs.OpenFacts.{held_by, AreHolders};

use homomorphism::Store;
use lists::{Copies, NoMemory, Seq};
use meaning::types::Val;
use std::alloc::Global;
use std::collections::BTreeMap;

/// For each value the numbers of the facts that hold it, in an ordered tree.
#[derive(Drop)]
pub struct Holders {
    numbers: BTreeMap<Val, Seq<usize>>,
}

impl Holders {
    /// The facts of a store at their values.
    pub fn of(alloc: Global, facts: &Store) -> Result<Holders, NoMemory>
        ensures { IfOk result (λ holders. AreHolders facts.now holders) }
    {
        let mut holders = Holders {
            numbers: BTreeMap::new(alloc),
        };
        for number in 0..facts.len() {
            if let Some(fact) = facts.get(number) {
                holders.add_all(alloc, fact.vals.as_slice(), number)?;
            }
        }
        Ok(holders)
    }

    /// The numbers of the facts that hold the value. Takes no memory.
    pub fn numbers(&self, val: &Val) -> &[usize]
        ensures { result.now ≡ held_by self.now val.now }
    {
        match self.numbers.get(val) {
            Some(numbers) => numbers.as_slice(),
            None => &[],
        }
    }

    /// Adds the number at each of the values.
    fn add_all(&mut self, alloc: Global, vals: &[Val], number: usize) -> Result<(), NoMemory>
        ensures here { OnOk result ((value : TheVal) → Contains vals.now value → Contains (held_by self.new value) number) }
        ensures kept { OnOk result ((value : TheVal) (n : ℕ) → Contains (held_by self.old value) n → Contains (held_by self.new value) n) }
    {
        for val in vals {
            self.add(alloc, val, number)?;
        }
        Ok(())
    }

    /// Adds the number at the value.
    fn add(&mut self, alloc: Global, val: &Val, number: usize) -> Result<(), NoMemory>
        ensures here { OnOk result (held_by self.new val.now ≡ held_by self.old val.now ++ number ∷ []) }
        ensures others { OnOk result ((other : TheVal) → (other ≡ val.now → ⊥) → held_by self.new other ≡ held_by self.old other) }
    {
        match self.numbers.get_mut(val) {
            Some(numbers) => {
                numbers.push(number)?;
            }
            None => {
                let mut numbers = Seq::new(alloc);
                numbers.push(number)?;
                self.numbers.insert(val.copy(alloc)?, numbers)?;
            }
        }
        Ok(())
    }
}
