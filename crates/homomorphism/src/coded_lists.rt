// The numbers of the facts that have a key, found by the key's code.
ghost use Rattle.std.specs.Prelude.{◌≡◌, ℕ, IsTrue, [], ◌∷◌, ◌++◌, List, Contains, Some, None, true, false, IfOk, IfNone, IfSome, OnErr, OnOk, unwrap_or};
ghost use Rattle.std.specs.BTreeMap.{get, is_at};
ghost use Rattle.std.specs.Ordering.{nat_cmp};
ghost use Rattle.homomorphism.specs.declared.key.Key.{Key as TheKey};
ghost use Rattle.homomorphism.specs.Listed.{key_cmp, own_list, coded_list, found_at};

use crate::code::key_code;
use crate::key::Key;
use crate::number_list::NumberList;
use lists::NoMemory;
use std::alloc::Global;
use std::collections::BTreeMap;
use std::collections::btree_map::Entry;

/// A key with the numbers of the facts that have it.
#[derive(Drop)]
struct KeyList {
    key: Key,
    numbers: NumberList,
}

/// For each code the list of the first key that has it; and the lists of the keys whose code an earlier one had, in order.
///
/// Both are ordered trees. However many keys agree in their codes, a look-up takes the logarithm of their number.
#[derive(Drop)]
pub struct CodedLists {
    coded: BTreeMap<u64, KeyList>,
    others: BTreeMap<Key, NumberList>,
}

impl KeyList {
    /// Whether this is the list of the key. Takes no memory.
    fn is_of(&self, key: &Key) -> bool
        ensures { result ≡ is_at (key_cmp key.now) self.now.key }
    {
        key.cmp(&self.key).is_eq()
    }

    /// The numbers, if this is the list of the key. Takes no memory.
    fn numbers_of(&self, key: &Key) -> &[usize]
        ensures { result.now ≡ own_list key.now (Some self.now) }
    {
        if self.is_of(key) {
            return self.numbers.as_slice();
        }
        &[]
    }

    /// Adds the number, if this is the list of the key, and says whether it is.
    fn note(&mut self, key: &Key, number: usize) -> Result<bool, NoMemory>
        ensures noted { IfOk result (λ own. own ≡ true → own_list key.now (Some self.new) ≡ own_list key.now (Some self.old) ++ number ∷ []) }
        ensures taken { IfOk result (λ own. own ≡ false → (own_list key.now (Some self.old) ≡ []) × (own_list key.now (Some self.new) ≡ [])) }
        ensures refused { OnErr result (own_list key.now (Some self.new) ≡ own_list key.now (Some self.old)) }
        ensures apart { (other : TheKey) → (other ≡ key.now → ⊥) → own_list other (Some self.new) ≡ own_list other (Some self.old) }
    {
        if !self.is_of(key) {
            return Ok(false);
        }
        self.numbers.push(number)?;
        Ok(true)
    }

    /// Takes the number from the end, if this is the list of the key. Takes no memory.
    fn strike(&mut self, key: &Key, number: usize)
        ensures there { (before : List ℕ) → own_list key.now (Some self.old) ≡ before ++ number ∷ [] → own_list key.now (Some self.new) ≡ before }
        ensures not_there { (Contains (own_list key.now (Some self.old)) number → ⊥) → own_list key.now (Some self.new) ≡ own_list key.now (Some self.old) }
        ensures apart { (other : TheKey) → (other ≡ key.now → ⊥) → own_list other (Some self.new) ≡ own_list other (Some self.old) }
    {
        if self.is_of(key) {
            self.numbers.drop_last_if(number);
        }
    }
}

impl CodedLists {
    /// Those of no facts. Takes no memory.
    pub fn new(alloc: Global) -> CodedLists
        ensures { (key : TheKey) → found_at result key ≡ [] }
    {
        CodedLists {
            coded: BTreeMap::new(alloc),
            others: BTreeMap::new(alloc),
        }
    }

    /// The numbers of the facts that have the key, ascending. Takes no memory.
    pub fn numbers(&self, key: &Key) -> &[usize]
        ensures { result.now ≡ found_at self.now key.now }
    {
        match self.others.get(key) {
            Some(numbers) => numbers.as_slice(),
            None => self.coded_numbers(key),
        }
    }

    /// Adds the number to the end of the key's list.
    pub fn note(&mut self, alloc: Global, key: Key, number: usize) -> Result<(), NoMemory>
        ensures here { OnOk result (found_at self.new key ≡ found_at self.old key ++ number ∷ []) }
        ensures others { OnOk result ((other : TheKey) → (other ≡ key → ⊥) → found_at self.new other ≡ found_at self.old other) }
        ensures refused { OnErr result ((other : TheKey) → found_at self.new other ≡ found_at self.old other) }
    {
        if self.others.contains_key(&key) {
            return self.note_other(alloc, key, number);
        }
        let back = self.note_coded(alloc, key, number)?;
        match back {
            None => Ok(()),
            Some(key) => self.note_other(alloc, key, number),
        }
    }

    /// Takes the number from the end of the key's list, if it stands there. Takes no memory.
    pub fn strike(&mut self, key: &Key, number: usize)
        ensures there { (before : List ℕ) → found_at self.old key.now ≡ before ++ number ∷ [] → found_at self.new key.now ≡ before }
        ensures not_there { (Contains (found_at self.old key.now) number → ⊥) → found_at self.new key.now ≡ found_at self.old key.now }
        ensures others { (other : TheKey) → (other ≡ key.now → ⊥) → found_at self.new other ≡ found_at self.old other }
    {
        if self.others.contains_key(key) {
            self.strike_other(key, number);
        } else {
            self.strike_coded(key, number);
        }
    }

    /// The list at the key's code, if it is the key's. Takes no memory.
    fn coded_numbers(&self, key: &Key) -> &[usize]
        ensures { result.now ≡ coded_list self.now.coded key.now }
    {
        match self.coded.get(&key_code(key)) {
            Some(list) => list.numbers_of(key),
            None => &[],
        }
    }

    /// Adds the number to the list at the key's code; where that is another key's, the key is handed back.
    fn note_coded(
        &mut self,
        alloc: Global,
        key: Key,
        number: usize,
    ) -> Result<Option<Key>, NoMemory>
        ensures noted { IfOk result (λ back. IfNone back (coded_list self.new.coded key ≡ coded_list self.old.coded key ++ number ∷ [])) }
        ensures taken { IfOk result (λ back. IfSome back (λ same. (same ≡ key) × (coded_list self.old.coded key ≡ []) × (coded_list self.new.coded key ≡ []))) }
        ensures refused { OnErr result (coded_list self.new.coded key ≡ coded_list self.old.coded key) }
        ensures apart { (other : TheKey) → (other ≡ key → ⊥) → coded_list self.new.coded other ≡ coded_list self.old.coded other }
        ensures others { self.new.others ≡ self.old.others }
    {
        let code = key_code(&key);
        note_at(&mut self.coded, alloc, code, key, number)
    }

    /// Adds the number to the list that the key has among the others.
    fn note_other(&mut self, alloc: Global, key: Key, number: usize) -> Result<(), NoMemory>
        ensures here { OnOk result (get key_cmp self.new.others key ≡ Some (unwrap_or (get key_cmp self.old.others key) [] ++ number ∷ [])) }
        ensures apart { OnOk result ((other : TheKey) → (other ≡ key → ⊥) → get key_cmp self.new.others other ≡ get key_cmp self.old.others other) }
        ensures refused { OnErr result ((other : TheKey) → get key_cmp self.new.others other ≡ get key_cmp self.old.others other) }
        ensures coded { self.new.coded ≡ self.old.coded }
    {
        match self.others.get_mut(&key) {
            Some(numbers) => {
                numbers.push(number)?;
            }
            None => {
                let mut numbers = NumberList::new(alloc);
                numbers.push(number)?;
                self.others.insert(key, numbers)?;
            }
        }
        Ok(())
    }

    /// Takes the number from the end of the list at the key's code, if that is the key's. Takes no memory.
    fn strike_coded(&mut self, key: &Key, number: usize)
        ensures there { (before : List ℕ) → coded_list self.old.coded key.now ≡ before ++ number ∷ [] → coded_list self.new.coded key.now ≡ before }
        ensures not_there { (Contains (coded_list self.old.coded key.now) number → ⊥) → coded_list self.new.coded key.now ≡ coded_list self.old.coded key.now }
        ensures apart { (other : TheKey) → (other ≡ key.now → ⊥) → coded_list self.new.coded other ≡ coded_list self.old.coded other }
        ensures others { self.new.others ≡ self.old.others }
    {
        match self.coded.get_mut(&key_code(key)) {
            Some(list) => list.strike(key, number),
            None => {}
        }
    }

    /// Takes the number from the end of the list that the key has among the others. Takes no memory.
    fn strike_other(&mut self, key: &Key, number: usize)
        ensures there { (before : List ℕ) → get key_cmp self.old.others key.now ≡ Some (before ++ number ∷ []) → get key_cmp self.new.others key.now ≡ Some before }
        ensures not_there { (list : List ℕ) → get key_cmp self.old.others key.now ≡ Some list → (Contains list number → ⊥) → get key_cmp self.new.others key.now ≡ Some list }
        ensures apart { (other : TheKey) → (other ≡ key.now → ⊥) → get key_cmp self.new.others other ≡ get key_cmp self.old.others other }
        ensures coded { self.new.coded ≡ self.old.coded }
    {
        if let Some(numbers) = self.others.get_mut(key) {
            numbers.drop_last_if(number);
        }
    }
}

/// Adds the number to the list at this code, if it is the key's or there is none; where it is another key's, the key is
/// handed back.
fn note_at(
    coded: &mut BTreeMap<u64, KeyList>,
    alloc: Global,
    code: u64,
    key: Key,
    number: usize,
) -> Result<Option<Key>, NoMemory>
    ensures noted { IfOk result (λ back. IfNone back (own_list key (get nat_cmp coded.new code) ≡ own_list key (get nat_cmp coded.old code) ++ number ∷ [])) }
    ensures taken { IfOk result (λ back. IfSome back (λ same. (same ≡ key) × (own_list key (get nat_cmp coded.old code) ≡ []) × (own_list key (get nat_cmp coded.new code) ≡ []))) }
    ensures refused { OnErr result (own_list key (get nat_cmp coded.new code) ≡ own_list key (get nat_cmp coded.old code)) }
    ensures others { (other : TheKey) → (other ≡ key → ⊥) → own_list other (get nat_cmp coded.new code) ≡ own_list other (get nat_cmp coded.old code) }
    ensures apart { (other : ℕ) → is_at (nat_cmp code) other ≡ false → get nat_cmp coded.new other ≡ get nat_cmp coded.old other }
{
    match coded.entry(code)? {
        Entry::Occupied(entry) => {
            let list = entry.into_mut();
            let is_own = list.note(&key, number)?;
            if is_own {
                return Ok(None);
            }
            Ok(Some(key))
        }
        Entry::Vacant(entry) => {
            let numbers = NumberList::new(alloc);
            let list = entry.insert(KeyList { key, numbers });
            list.numbers.push(number)?;
            Ok(None)
        }
    }
}
