// Where values stand first.
ghost use Rattle.std.specs.Prelude.{◌≡◌, ◌<◌, ℕ, OnOk, length, slice_index, unwrap_or};
ghost use Rattle.std.specs.BTreeMap.{get};
ghost use Rattle.meaning.specs.declared.types.Val.{Val as TheVal};
ghost use Rattle.accessible_copy.specs.Places.{place_in, text_cmp};

use lists::{Copies, NoMemory, Text};
use meaning::types::Val;
use std::alloc::Global;
use std::collections::BTreeMap;

/// A place for each value, which is 0 where none was set: those of labels by their numbers, and those of constants in an ordered
/// tree.
#[derive(Drop)]
pub struct FirstPlaces {
    labels: Vec<usize>,
    constants: BTreeMap<Text, usize>,
}

impl FirstPlaces {
    /// No place is set. Takes no memory.
    pub fn new(alloc: Global) -> FirstPlaces {
        FirstPlaces {
            labels: Vec::new(alloc),
            constants: BTreeMap::new(alloc),
        }
    }

    /// The place of the value. Takes no memory.
    pub fn get(&self, val: &Val) -> usize
        ensures { result ≡ place_in self.now val.now }
    {
        match val {
            Val::Label(label) => place_at(self.labels.as_slice(), *label),
            Val::Const(text) => constant_place(&self.constants, text),
        }
    }

    /// Sets the place of the value alone.
    pub fn set(&mut self, alloc: Global, val: &Val, place: usize) -> Result<(), NoMemory>
        ensures here { OnOk result (place_in self.new val.now ≡ place) }
        ensures others { (other : TheVal) → (other ≡ val.now → ⊥) → place_in self.new other ≡ place_in self.old other }
    {
        match val {
            Val::Label(label) => {
                grow(&mut self.labels, *label as usize)?;
                self.labels[*label as usize] = place;
            }
            Val::Const(text) => {
                let text = text.copy(alloc)?;
                self.constants.insert(text, place)?;
            }
        }
        Ok(())
    }
}

/// The place with this number, or 0 where there is none. Takes no memory.
pub(crate) fn place_at(places: &[usize], number: u32) -> usize
    ensures { result ≡ slice_index places.now number }
{
    match places.get(number as usize) {
        Some(place) => *place,
        None => 0,
    }
}

/// The place of the constant, or 0 where there is none.
fn constant_place(places: &BTreeMap<Text, usize>, text: &Text) -> usize
    ensures { result ≡ unwrap_or (get text_cmp places.now text.now) 0 }
{
    match places.get(text) {
        Some(place) => *place,
        None => 0,
    }
}

/// Makes the list longer by zeros until it has the index.
pub(crate) fn grow(places: &mut Vec<usize>, index: usize) -> Result<(), NoMemory>
    ensures stays { (k : ℕ) → slice_index places.new.items k ≡ slice_index places.old.items k }
    ensures long { OnOk result (index < length places.new.items) }
{
    while places.len() <= index {
        places.push(0)?;
    }
    Ok(())
}
