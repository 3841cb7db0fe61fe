// The values that are known, and those of them that are new.
ghost use Rattle.std.specs.Prelude.{◌≡◌, ◌↔◌, [], Contains, IfOk, OnOk, length};
ghost use Rattle.std.specs.BTreeSet.{IsOrdered};
ghost use Rattle.std.specs.List.Sorted.{IsStrictlySortedBy};
ghost use Rattle.std.specs.Ordering.{nat_cmp};
ghost use Rattle.std.specs.Cmp.Lexicographic.{slice_cmp};
ghost use Rattle.meaning.specs.Values.{Value};
ghost use Rattle.crawl.specs.Knowing.{is_fresh, marked_of, TakesIn};

use crate::started::StartedText;
use lists::{Copies, NoMemory, Text};
use std::alloc::Global;
use std::collections::BTreeSet;

/// The values that a crawl knows, each once, and those of them that are new since the last round.
#[derive(Drop)]
pub struct KnownValues {
    all: BTreeSet<StartedText>,
    fresh: Vec<Text>,
}

impl KnownValues {
    /// No value. Takes no memory.
    pub fn new(alloc: Global) -> KnownValues
        ensures all { result.all.keys ≡ [] }
        ensures fresh { result.fresh.items ≡ [] }
    {
        KnownValues {
            all: BTreeSet::new(alloc),
            fresh: Vec::new(alloc),
        }
    }

    /// How many values are known.
    pub fn len(&self) -> usize
        ensures len { result ≡ length self.now.all.keys }
        ensures ordered { IsOrdered (slice_cmp nat_cmp) self.now.all }
    {
        self.all.len()
    }

    /// How many of them are new.
    pub fn fresh_len(&self) -> usize
        ensures { result ≡ length self.now.fresh.items }
    {
        self.fresh.len()
    }

    /// Takes values in, out of a list, which keeps its room. Each that was not known is new. Where memory is refused, some of them may have
    /// been taken in.
    pub fn take_in(&mut self, alloc: Global, values: &mut Vec<StartedText>) -> Result<(), NoMemory>
        ensures { OnOk result (TakesIn (Contains values.old.items) self.old self.new) }
    {
        while let Some(value) = values.pop() {
            self.take_one(alloc, value)?;
        }
        Ok(())
    }

    fn take_one(&mut self, alloc: Global, value: StartedText) -> Result<(), NoMemory>
        ensures { OnOk result (TakesIn (λ v. v ≡ value) self.old self.new) }
    {
        let fresh = value.text().copy(alloc)?;
        if !self.all.insert(value)? {
            return Ok(());
        }
        self.fresh.push(fresh)?;
        Ok(())
    }

    /// No value is new any more.
    pub fn settle(&mut self)
        ensures all { self.new.all.keys ≡ self.old.all.keys }
        ensures none { self.new.fresh.items ≡ [] }
    {
        self.fresh.clear();
    }

    /// Puts the new values into ascending order, each once.
    pub fn arrange(&mut self)
        ensures all { self.new.all.keys ≡ self.old.all.keys }
        ensures same { (v : Value) → Contains self.new.fresh.items v ↔ Contains self.old.fresh.items v }
        ensures ascend { IsStrictlySortedBy (slice_cmp nat_cmp) self.new.fresh.items }
    {
        self.fresh.sort_unstable();
        self.fresh.dedup();
    }

    /// The new values, lent.
    pub fn fresh(&self) -> &[Text]
        ensures { result.now ≡ self.now.fresh.items }
    {
        self.fresh.as_slice()
    }

    /// All values in ascending order, each with whether it is new. Each is compared with the new ones, which takes fewer steps than a
    /// round with two inputs has requests.
    pub fn marked(&self, alloc: Global) -> Result<Vec<(Text, bool)>, NoMemory>
        ensures { IfOk result (λ values. values.items ≡ marked_of self.now) }
    {
        let mut values = Vec::with_capacity(alloc, self.all.len())?;
        for value in &self.all {
            let text = value.text();
            values.push((text.copy(alloc)?, self.is_fresh(text)))?;
        }
        Ok(values)
    }

    fn is_fresh(&self, value: &Text) -> bool
        ensures { result ≡ is_fresh self.now value.now }
    {
        self.fresh.as_slice().contains(value)
    }
}
