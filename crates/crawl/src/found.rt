// The values that come in a round.
ghost use Rattle.std.specs.Prelude.{◌≡◌, ◌↔◌, ◌<◌, [], Contains, IfOk, IfSome, OnOk, Some, length, slice_get};
ghost use Rattle.std.specs.List.Sorted.{IsStrictlySortedBy};
ghost use Rattle.std.specs.Ordering.{nat_cmp};
ghost use Rattle.std.specs.Cmp.Lexicographic.{slice_cmp};
ghost use Rattle.meaning.specs.Values.{Value};
ghost use Rattle.crawl.specs.Finding.{Finds};

use crate::started::StartedText;
use lists::{Copies, NoMemory, Row, Text};
use row_text::LentRow;
use std::alloc::Global;

/// Values as often as they came, in a list that is sorted before they are looked up: those that stand beside each other are then
/// found at one place of the known ones.
#[derive(Drop)]
pub struct FoundValues {
    pub list: Vec<StartedText>,
}

impl FoundValues {
    /// No value. Takes no memory.
    pub fn new(alloc: Global) -> FoundValues
        ensures { result.list.items ≡ [] }
    {
        FoundValues {
            list: Vec::new(alloc),
        }
    }

    /// These values.
    pub fn of(alloc: Global, values: &[Text]) -> Result<FoundValues, NoMemory>
        ensures { IfOk result (λ found. found.list.items ≡ values.now) }
    {
        let mut list = Vec::with_capacity(alloc, values.len())?;
        for value in values {
            list.push(StartedText::new(value.copy(alloc)?))?;
        }
        Ok(FoundValues { list })
    }

    /// Forgets all values. Their room is kept.
    pub fn clear(&mut self)
        ensures { self.new.list.items ≡ [] }
    {
        self.list.clear();
    }

    /// Puts the values into ascending order, each once.
    pub fn arrange(&mut self)
        ensures same { (v : Value) → Contains self.new.list.items v ↔ Contains self.old.list.items v }
        ensures ascend { IsStrictlySortedBy (slice_cmp nat_cmp) self.new.list.items }
    {
        self.list.sort_unstable();
        self.list.dedup();
    }

    /// Takes the values of a row, but for those that are shared ones, and copies the row. A value that is a shared one shares its
    /// bytes. Where memory is refused, some of the values may have been taken.
    pub fn take_row(
        &mut self,
        alloc: Global,
        shared: &[Text],
        row: &LentRow<'_>,
    ) -> Result<Row, NoMemory>
        ensures finds { OnOk result (Finds shared.now (Contains row.now) self.old.list.items self.new.list.items) }
        ensures row { IfOk result (λ copy. copy ≡ row.now) }
    {
        let mut copy = Vec::with_capacity(alloc, row.len())?;
        for column in 0..row.len() {
            copy.push(self.take_text(alloc, shared, value_at(row, column))?)?;
        }
        Ok(Row::from_vec(copy))
    }

    fn take_text(&mut self, alloc: Global, shared: &[Text], value: &str) -> Result<Text, NoMemory>
        ensures finds { OnOk result (Finds shared.now (λ v. v ≡ value.now) self.old.list.items self.new.list.items) }
        ensures text { IfOk result (λ text. text ≡ value.now) }
    {
        if let Some(text) = find(shared, value) {
            return text.copy(alloc);
        }
        let text = Text::from_str(alloc, value)?;
        self.list.push(StartedText::new(text.copy(alloc)?))?;
        Ok(text)
    }
}

// The first of the texts with these characters.
fn find<'a>(texts: &'a [Text], value: &str) -> Option<&'a Text>
    ensures { IfSome result (λ text. (text.now ≡ value.now) × Contains texts.now text.now) }
{
    for text in texts {
        if text.as_str() == value {
            return Some(text);
        }
    }
    None
}

// The value in a column that the row has.
fn value_at<'a>(row: &LentRow<'a>, column: usize) -> &'a str
    requires { column < length row.now }
    ensures { slice_get row.now column ≡ Some result.now }
{
    match row.value(column) {
        Some(value) => value,
        None => unreachable!(),
    }
}
