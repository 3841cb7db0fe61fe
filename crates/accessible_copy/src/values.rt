// Values in order, which know where each stands first.
ghost use Rattle.std.specs.Prelude.{◌≡◌, ◌↔◌, ◌∷◌, [], ◌++◌, IsTrue, IfSome, IfNone, Contains, OnOk, OnErr, length, take, slice_get, option_copied, Some};
ghost use Rattle.meaning.specs.declared.types.Val.{Val as TheVal};

use crate::first_places::FirstPlaces;
use lists::{Copies, Exact, NoMemory};
use meaning::types::Val;
use std::alloc::Global;
use std::marker::Model;

/// Values in order, with repetitions. Contracts see their list.
///
/// `places` has the place at which a value stands first. Of a value that does not stand here it may have any place, so that
/// values are dropped without a look at it.
#[derive(Drop)]
pub struct Values {
    list: Vec<Val>,
    places: FirstPlaces,
}

impl Model for Values {
    ghost use Rattle.std.specs.Prelude.{List};
    ghost use Rattle.meaning.specs.declared.types.Val.{Val};
    ghost use Rattle.accessible_copy.specs.Places.{AreFirstPlaces, place_in};

    ghost Value = { List Val };

    ghost view = { λ v. v.list.items };

    ghost invariant = { λ v. AreFirstPlaces v.list.items (place_in v.places) };
}

impl Values {
    /// No values. Takes no memory.
    pub fn new(alloc: Global) -> Values
        ensures { result ≡ [] }
    {
        Values {
            list: Vec::new(alloc),
            places: FirstPlaces::new(alloc),
        }
    }

    /// How many values there are, with repetitions. Takes no memory.
    pub fn len(&self) -> usize
        ensures { result ≡ length self.now }
    {
        self.list.len()
    }

    /// Whether the value stands here, found by a look at the place where it stood first. Takes no memory.
    pub fn contains(&self, val: &Val) -> bool
        ensures { IsTrue result ↔ Contains self.now val.now }
    {
        is_at(self.list.as_slice(), self.places.get(val), val)
    }

    /// The value with this number. Takes no memory.
    pub fn get(&self, number: usize) -> Option<&Val>
        ensures { option_copied result ≡ slice_get self.now number }
    {
        self.list.get(number)
    }

    /// The value with this number, if it does not stand before. Takes no memory.
    pub fn new_at(&self, number: usize) -> Option<&Val>
        ensures some { IfSome result (λ val. slice_get self.now number ≡ Some val.now) }
        ensures none { IfNone result ((val : TheVal) → slice_get self.now number ≡ Some val → Contains (take number self.now) val) }
    {
        match self.get(number) {
            Some(val) => {
                let place = self.places.get(val);
                if place < number { None } else { Some(val) }
            }
            None => None,
        }
    }

    /// One more value. Where memory is refused, nothing changes.
    pub fn push(&mut self, alloc: Global, val: Val) -> Result<(), NoMemory>
        ensures pushed { OnOk result (self.new ≡ self.old ++ val ∷ []) }
        ensures refused { OnErr result (self.new ≡ self.old) }
    {
        if !self.contains(&val) {
            let count = self.list.len();
            self.places.set(alloc, &val, count)?;
        }
        self.list.push(val)?;
        Ok(())
    }

    /// Copies of the values, at the end. Where memory is refused, nothing changes.
    pub fn add_all(&mut self, alloc: Global, vals: &[Val]) -> Result<(), NoMemory>
        ensures added { OnOk result (self.new ≡ self.old ++ vals.now) }
        ensures refused { OnErr result (self.new ≡ self.old) }
    {
        let count = self.list.len();
        match self.add_copies(alloc, vals) {
            Ok(()) => Ok(()),
            Err(fault) => {
                self.truncate(count);
                Err(fault)
            }
        }
    }

    /// Copies of the values, at the end; where memory is refused, some of them stand there.
    fn add_copies(&mut self, alloc: Global, vals: &[Val]) -> Result<(), NoMemory>
        ensures added { OnOk result (self.new ≡ self.old ++ vals.now) }
        ensures front { take (length self.old) self.new ≡ self.old }
    {
        for val in vals {
            self.push(alloc, val.copy(alloc)?)?;
        }
        Ok(())
    }

    /// Drops all values behind the first `count`. Takes no memory.
    pub fn truncate(&mut self, count: usize)
        ensures { self.new ≡ take count self.old }
    {
        self.list.truncate(count);
    }
}

/// Whether the value stands at the place.
fn is_at(values: &[Val], place: usize, val: &Val) -> bool
    ensures { IsTrue result ↔ (slice_get values.now place ≡ Some val.now) }
{
    match values.get(place) {
        Some(found) => found.same(val),
        None => false,
    }
}
