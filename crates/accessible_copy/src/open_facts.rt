// Base facts that can be exposed, found from the values that are new.
ghost use Rattle.std.specs.Prelude.{◌≡◌, ◌↔◌, ◌⊎◌, ◌∷◌, [], ◌++◌, ◌≤◌, ℕ, IsTrue, IfOk, IfSome, OnOk, List, Contains, length, take, drop, slice_get, option_copied, Some, true, false};
ghost use Rattle.std.specs.List.Sorted.{IsStrictlyIncreasing};
ghost use Rattle.meaning.specs.declared.types.Val.{Val as TheVal};
ghost use Rattle.meaning.specs.declared.types.Ground.{Ground as TheGround};
ghost use Rattle.meaning.specs.Search.{AreDistinct};
ghost use Rattle.meaning.specs.Values.{Value};
ghost use Rattle.accessible_copy.specs.declared.entry.Exposed.{Exposed as TheExposed};
ghost use Rattle.accessible_copy.specs.declared.ways.Way.{Way as TheWay};
ghost use Rattle.accessible_copy.specs.Known.{known_values, facts_of};
ghost use Rattle.accessible_copy.specs.Listing.{AreInputs};
ghost use Rattle.accessible_copy.specs.Ways.{ways_of, IsWayIndex};
ghost use Rattle.accessible_copy.specs.OpenFacts.{held_by, AreHolders, CanAsk, IsOpen, HasOpen, AreOpenFacts};

use crate::holders::Holders;
use crate::known::Known;
use crate::listing::are_inputs;
use crate::method_index::MethodIndex;
use crate::ways::{Way, are_ways, ways_of};
use access_schema::Schema;
use homomorphism::Store;
use lists::NoMemory;
use meaning::types::{Ground, Val};
use std::alloc::Global;

/// How many facts were listed, and how many of these were passed.
#[derive(Clone, Copy)]
pub struct Reached {
    pub listed: usize,
    pub passed: usize,
}

/// The numbers of base facts that can be exposed, in the order in which they were found. A number may stand there again, and
/// those of facts that are exposed stay.
///
/// The first `passed` are exposed. `before` has how far the list reached before each exposure, so that an undo cuts it back.
/// `places` has for a fact the place at which it was listed last. It may be wrong, so that an undo need not look at it: a
/// fact is listed where it stands at its place.
#[derive(Drop)]
pub struct OpenFacts {
    ways: Vec<Way>,
    index: MethodIndex,
    holders: Holders,
    listed: Vec<usize>,
    places: Vec<usize>,
    passed: usize,
    before: Vec<Reached>,
}

impl OpenFacts {
    /// The open ones of these facts, where none is exposed.
    pub fn of(
        alloc: Global,
        schema: &Schema,
        facts: &Store,
        known: &Known,
    ) -> Result<OpenFacts, NoMemory>
        requires { known.now.exposed ≡ [] }
        ensures { IfOk result (λ kept. AreOpenFacts facts.now known.now.constants known.now.exposed kept) }
    {
        let ways = ways_of(alloc, schema.methods.as_slice())?;
        let index = MethodIndex::of(alloc, schema)?;
        let holders = Holders::of(alloc, facts)?;
        let mut kept = OpenFacts {
            ways,
            index,
            holders,
            listed: Vec::new(alloc),
            places: Vec::new(alloc),
            passed: 0,
            before: Vec::new(alloc),
        };
        let numbers = kept.all_open(alloc, facts, known)?;
        let places = places_of(alloc, facts.len(), numbers.as_slice())?;
        kept.listed = numbers;
        kept.places = places;
        Ok(kept)
    }

    /// Whether these are kept for the methods of this schema. Takes no memory.
    pub fn serves(&self, schema: &Schema) -> bool
        ensures { IsTrue result ↔ (self.now.ways.items ≡ ways_of schema.now.methods) }
    {
        are_ways(self.ways.as_slice(), schema.methods.as_slice())
    }

    /// The methods of each relation. Takes no memory.
    pub fn methods(&self) -> &MethodIndex
        ensures { result.now ≡ self.now.index }
    {
        &self.index
    }

    /// The numbers behind those that were passed, lent, where they ascend. Takes no memory.
    pub fn ascending(&self) -> Option<&[usize]>
        ensures once { IfSome result (λ numbers. AreDistinct numbers.now) }
        ensures all { IfSome result (λ numbers. numbers.now ≡ drop self.now.passed self.now.listed.items) }
    {
        if self.passed > self.listed.len() {
            return None;
        }
        let numbers = &self.listed.as_slice()[self.passed..];
        if ascends(numbers) {
            Some(numbers)
        } else {
            None
        }
    }

    /// The numbers behind those that were passed, ascending, each once.
    pub fn numbers(&self, alloc: Global) -> Result<Vec<usize>, NoMemory>
        ensures once { IfOk result (λ numbers. AreDistinct numbers.items) }
        ensures all { IfOk result (λ numbers. (n : ℕ) → Contains (drop self.now.passed self.now.listed.items) n → Contains numbers.items n) }
    {
        let most = self.listed.len().saturating_sub(self.passed);
        let mut numbers = Vec::with_capacity(alloc, most)?;
        for place in self.passed..self.listed.len() {
            numbers.push(self.listed[place])?;
        }
        numbers.sort_unstable();
        numbers.dedup();
        Ok(numbers)
    }

    /// Lists what became open by the last exposure, before which there were `width` known values.
    pub fn follow(
        &mut self,
        alloc: Global,
        facts: &Store,
        known: &Known,
        width: usize,
    ) -> Result<(), NoMemory>
        requires before { (exposed : List TheExposed) × (one : TheExposed) × (known.now.exposed ≡ exposed ++ one ∷ [])
            × (width ≡ length (known_values known.now.constants (facts_of exposed)))
            × AreOpenFacts facts.now known.now.constants exposed self.old }
        ensures { OnOk result (AreOpenFacts facts.now known.now.constants known.now.exposed self.new) }
    {
        let mut more = self.newly_open(alloc, facts, known, width)?;
        self.before.push(Reached {
            listed: self.listed.len(),
            passed: self.passed,
        })?;
        note_places(&mut self.places, self.listed.len(), more.as_slice());
        self.listed.append(&mut more)?;
        self.passed = self.next_open(facts, known);
        Ok(())
    }

    /// Goes back to what was kept after the first `count` exposures. Takes no memory.
    pub fn cut_back(&mut self, count: usize)
        ensures { (facts : List TheGround) (constants : List Value) (exposed : List TheExposed) →
            AreOpenFacts facts constants exposed self.old → AreOpenFacts facts constants (take count exposed) self.new }
    {
        if let Some(reached) = self.reached(count) {
            let reached = *reached;
            self.listed.truncate(reached.listed);
            self.passed = reached.passed;
            self.before.truncate(count);
        }
    }

    /// The way of the method with this number. Takes no memory.
    fn way(&self, number: u32) -> Option<&Way>
        ensures { option_copied result ≡ slice_get self.now.ways.items number }
    {
        self.ways.get(number as usize)
    }

    /// How far the list reached before the exposure with this number. Takes no memory.
    fn reached(&self, number: usize) -> Option<&Reached>
        ensures { option_copied result ≡ slice_get self.now.before.items number }
    {
        self.before.get(number)
    }

    /// The numbers of all open facts.
    fn all_open(&self, alloc: Global, facts: &Store, known: &Known) -> Result<Vec<usize>, NoMemory>
        requires { IsWayIndex self.now.ways.items self.now.index }
        ensures { IfOk result (λ numbers. HasOpen self.now.ways.items facts.now known.now.constants known.now.exposed numbers.items) }
    {
        let mut numbers = Vec::new(alloc);
        for number in 0..facts.len() {
            if self.is_open(facts, known, number) {
                numbers.push(number)?;
            }
        }
        Ok(numbers)
    }

    /// The numbers of the facts that are open, would not be so by the first `width` known values alone, and are not listed
    /// behind those that were passed.
    fn newly_open(
        &self,
        alloc: Global,
        facts: &Store,
        known: &Known,
        width: usize,
    ) -> Result<Vec<usize>, NoMemory>
        requires index { IsWayIndex self.now.ways.items self.now.index }
        requires holders { AreHolders facts.now self.now.holders }
        ensures { IfOk result (λ numbers. (n : ℕ) →
            IsOpen self.now.ways.items facts.now (known_values known.now.constants (facts_of known.now.exposed)) (facts_of known.now.exposed) n →
            IsOpen self.now.ways.items facts.now (take width (known_values known.now.constants (facts_of known.now.exposed))) (facts_of known.now.exposed) n
            ⊎ Contains (drop self.now.passed self.now.listed.items ++ numbers.items) n) }
    {
        let mut numbers = Vec::new(alloc);
        for place in width..known.width() {
            if let Some(val) = known.new_value(place) {
                self.add_open(facts, known, val, &mut numbers)?;
            }
        }
        Ok(numbers)
    }

    /// Adds the numbers of the open facts that hold the value and are not listed behind those that were passed.
    fn add_open(
        &self,
        facts: &Store,
        known: &Known,
        val: &Val,
        numbers: &mut Vec<usize>,
    ) -> Result<(), NoMemory>
        requires { IsWayIndex self.now.ways.items self.now.index }
        ensures kept { OnOk result ((n : ℕ) → Contains numbers.old.items n → Contains numbers.new.items n) }
        ensures added { OnOk result ((n : ℕ) → Contains (held_by self.now.holders val.now) n →
            IsOpen self.now.ways.items facts.now (known_values known.now.constants (facts_of known.now.exposed)) (facts_of known.now.exposed) n →
            Contains (drop self.now.passed self.now.listed.items ++ numbers.new.items) n) }
    {
        let held = self.holders.numbers(val);
        for number in held {
            if self.is_to_list(facts, known, *number) {
                numbers.push(*number)?;
            }
        }
        Ok(())
    }

    /// Whether the fact is open, unless it is listed behind those that were passed. Takes no memory.
    fn is_to_list(&self, facts: &Store, known: &Known, number: usize) -> bool
        requires { IsWayIndex self.now.ways.items self.now.index }
        ensures { result ≡ false → IsOpen self.now.ways.items facts.now (known_values known.now.constants (facts_of known.now.exposed))
            (facts_of known.now.exposed) number → Contains (drop self.now.passed self.now.listed.items) number }
    {
        if self.is_listed(number) {
            return false;
        }
        self.is_open(facts, known, number)
    }

    /// Whether the number stands at its place, behind those that were passed. Takes no memory.
    fn is_listed(&self, number: usize) -> bool
        ensures { result ≡ true → Contains (drop self.now.passed self.now.listed.items) number }
    {
        let place = place_of(self.places.as_slice(), number);
        if place < self.passed {
            return false;
        }
        has_at(self.listed.as_slice(), place, number)
    }

    /// Whether the fact is open. Takes no memory.
    fn is_open(&self, facts: &Store, known: &Known, number: usize) -> bool
        requires { IsWayIndex self.now.ways.items self.now.index }
        ensures { IsTrue result ↔ IsOpen self.now.ways.items facts.now
            (known_values known.now.constants (facts_of known.now.exposed)) (facts_of known.now.exposed) number }
    {
        match facts.get(number) {
            Some(fact) => !known.has(fact) && self.can_ask(known, fact),
            None => false,
        }
    }

    /// Whether some method can ask for the fact. Takes no memory.
    fn can_ask(&self, known: &Known, fact: &Ground) -> bool
        requires { IsWayIndex self.now.ways.items self.now.index }
        ensures { IsTrue result ↔ CanAsk self.now.ways.items (known_values known.now.constants (facts_of known.now.exposed)) fact.now }
    {
        let numbers = self.index.numbers(fact.rel);
        for number in numbers {
            if self.has_inputs(known, *number, fact) {
                return true;
            }
        }
        false
    }

    /// Whether the method's inputs are known in the fact. Takes no memory.
    fn has_inputs(&self, known: &Known, number: u32, fact: &Ground) -> bool
        ensures { IsTrue result ↔ ((way : TheWay) × (slice_get self.now.ways.items number ≡ Some way)
            × AreInputs (known_values known.now.constants (facts_of known.now.exposed)) way.inputs fact.now.vals) }
    {
        match self.way(number) {
            Some(way) => are_inputs(known, way.inputs.as_slice(), fact.vals.as_slice()),
            None => false,
        }
    }

    /// The first place behind those passed whose fact is not exposed. Takes no memory.
    fn next_open(&self, facts: &Store, known: &Known) -> usize
        ensures low { self.now.passed ≤ length self.now.listed.items → result ≤ length self.now.listed.items }
        ensures kept { (values : List TheVal) (n : ℕ) → IsOpen self.now.ways.items facts.now values (facts_of known.now.exposed) n →
            Contains (drop self.now.passed self.now.listed.items) n → Contains (drop result self.now.listed.items) n }
    {
        for place in self.passed..self.listed.len() {
            if !is_exposed(facts, known, self.listed[place]) {
                return place;
            }
        }
        self.listed.len()
    }
}

/// Whether each number is above the one before it. Takes no memory.
fn ascends(numbers: &[usize]) -> bool
    ensures { result ≡ true → IsStrictlyIncreasing numbers.now }
{
    for place in 1..numbers.len() {
        if numbers[place] <= numbers[place - 1] {
            return false;
        }
    }
    true
}

/// Places for so many facts, of which those with these numbers are listed in this order.
fn places_of(alloc: Global, count: usize, listed: &[usize]) -> Result<Vec<usize>, NoMemory> {
    let mut places = Vec::with_capacity(alloc, count)?;
    for _ in 0..count {
        places.push(0)?;
    }
    note_places(&mut places, 0, listed);
    Ok(places)
}

/// Notes the places of these numbers, which are listed behind the first `count`. Takes no memory.
fn note_places(places: &mut Vec<usize>, count: usize, numbers: &[usize]) {
    let mut next = count;
    for number in numbers {
        if let Some(place) = places.get_mut(*number) {
            *place = next;
        }
        next = next.saturating_add(1);
    }
}

/// The place of the number, or 0 where there is none. Takes no memory.
fn place_of(places: &[usize], number: usize) -> usize {
    match places.get(number) {
        Some(place) => *place,
        None => 0,
    }
}

/// Whether the number stands at the place. Takes no memory.
fn has_at(listed: &[usize], place: usize, number: usize) -> bool
    ensures { result ≡ true → slice_get listed.now place ≡ Some number }
{
    match listed.get(place) {
        Some(found) => *found == number,
        None => false,
    }
}

/// Whether the fact with this number is exposed, or there is none. Takes no memory.
fn is_exposed(facts: &Store, known: &Known, number: usize) -> bool
    ensures { IsTrue result → (fact : TheGround) → slice_get facts.now number ≡ Some fact → Contains (facts_of known.now.exposed) fact }
{
    match facts.get(number) {
        Some(fact) => known.has(fact),
        None => true,
    }
}

/// Puts what is kept into its place. Takes no memory.
pub(crate) fn put(place: &mut Option<Box<OpenFacts>>, kept: Option<Box<OpenFacts>>)
    ensures { place.new ≡ kept }
{
    *place = kept;
}
