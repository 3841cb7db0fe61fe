// A row of packed rows, lent.
ghost use Rattle.std.specs.Prelude.{◌≡◌, ◌≤◌, ◌-◌, ◌++◌, ◌↔◌, Some, IsTrue, IfOk, OnOk, length, map, drop, take, option_map, refl, slice_get, slice_index_or, []};
ghost use Rattle.std.specs.Cmp.{partial_equiv_from_equiv, po};
ghost use Rattle.std.specs.Cmp.Lexicographic.{lists_equiv, lists_ties, lists_total, nat_list_cmp_total, nat_list_eq_equiv, slice_cmp, texts_ties};
ghost use Rattle.std.specs.Ordering.{nat_cmp};
ghost use Rattle.csv.specs.Records.{fields_of};
ghost use Rattle.row_text.specs.RowText.{row_cmp, row_eq};

use csv::StringRecord;
use lists::{Row, Text};
use std::alloc::{AllocError, Global};
use std::cmp::Ordering;
use std::marker::Model;

/// The values of one row, which lie beside each other in the buffer of its rows.
#[derive(Drop)]
pub struct LentRow<'a> {
    values: &'a StringRecord,
    start: usize,
    end: usize,
}

impl<'a> Model for LentRow<'a> {
    ghost use Rattle.std.specs.Prelude.{◌-◌, ◌≤◌, List, ℕ, drop, length, take};
    ghost use Rattle.csv.specs.Records.{fields_of};

    ghost Value = { List (List ℕ) };

    ghost view = { λ r. take (r.end - r.start) (drop r.start (fields_of r.values.now)) };

    ghost invariant = { λ r. (r.start ≤ r.end) × (r.end ≤ length (fields_of r.values.now)) };
}

impl<'a> LentRow<'a> {
    pub(crate) fn new(values: &'a StringRecord, start: usize, end: usize) -> LentRow<'a>
        requires order { start ≤ end }
        requires within { end ≤ length (fields_of values.now) }
        ensures { result ≡ take (end - start) (drop start (fields_of values.now)) }
    {
        LentRow { values, start, end }
    }

    /// How many values it has.
    pub fn len(&self) -> usize
        ensures { result ≡ length self.now }
    {
        self.end - self.start
    }

    /// The value in a column, if the row has one there.
    pub fn value(&self, column: usize) -> Option<&'a str>
        ensures { option_map (λ s. s.now) result ≡ slice_get self.now column }
    {
        if column < self.end - self.start {
            Some(text_at(self.values, self.start + column))
        } else {
            None
        }
    }

    /// Adds its values behind the texts that are there.
    pub fn add_to(&self, texts: &mut Vec<&'a str>) -> Result<(), AllocError>
        ensures { OnOk result (map (λ s. s.now) texts.new.items ≡ map (λ s. s.now) texts.old.items ++ self.now) }
    {
        add_texts(self.values, self.start, self.end, texts)
    }

    // Adds its values behind the fields that are there.
    pub(crate) fn add_to_record(&self, fields: &mut StringRecord) -> Result<(), AllocError>
        ensures { OnOk result (fields_of fields.new ≡ fields_of fields.old ++ self.now) }
    {
        add_fields(self.values, self.start, self.end, fields)
    }

    /// A copy with memory of its own.
    pub fn copy(&self, alloc: Global) -> Result<Row, AllocError>
        ensures { IfOk result (λ row. row ≡ self.now) }
    {
        let row = copy_values(alloc, self.values, self.start, self.end)?;
        Ok(Row::from_vec(row))
    }

    /// Whether its values are these texts.
    pub fn is(&self, texts: &[&str]) -> bool
        ensures { IsTrue result ↔ (self.now ≡ map (λ s. s.now) texts.now) }
    {
        let mut column = 0;
        let mut left = texts;
        while let ([text, rest @ ..], Some(value)) = (left, self.value(column)) {
            if value != *text {
                return false;
            }
            column += 1;
            left = rest;
        }
        left.is_empty() && column == self.len()
    }
}

impl<'a> PartialEq for LentRow<'a> {
    ghost eq = { row_eq };

    ghost laws = { partial_equiv_from_equiv (lists_equiv nat_list_eq_equiv) };

    fn eq(&self, other: &LentRow<'a>) -> bool {
        compare(self, other).is_eq()
    }
}

impl<'a> Eq for LentRow<'a> {
    ghost laws = { lists_equiv nat_list_eq_equiv };
}

impl<'a> PartialOrd for LentRow<'a> {
    ghost partial_cmp = { λ x y. Some (row_cmp x y) };

    ghost laws = { po (lists_total nat_list_cmp_total) (lists_ties (slice_cmp nat_cmp) texts_ties) };

    fn partial_cmp(&self, other: &LentRow<'a>) -> Option<Ordering> {
        Some(self.cmp(other))
    }
}

impl<'a> Ord for LentRow<'a> {
    ghost cmp = { row_cmp };

    ghost total = { lists_total nat_list_cmp_total };

    ghost matches_partial_cmp = { λ x y. refl };

    ghost matches_eq = { lists_ties (slice_cmp nat_cmp) texts_ties };

    fn cmp(&self, other: &LentRow<'a>) -> Ordering {
        compare(self, other)
    }
}

// Compares the rows column by column.
fn compare(left: &LentRow<'_>, right: &LentRow<'_>) -> Ordering
    ensures { result ≡ row_cmp left.now right.now }
{
    let count = left.len();
    let mut column = 0;
    while let (Some(value), Some(other)) = (left.value(column), right.value(column)) {
        match value.cmp(other) {
            Ordering::Equal => {}
            unequal => return unequal,
        }
        column += 1;
    }
    count.cmp(&right.len())
}

// The field at a place; the empty text where there is none.
fn text_at(values: &StringRecord, place: usize) -> &str
    ensures { result.now ≡ slice_index_or (fields_of values.now) place [] }
{
    match values.get(place) {
        Some(text) => text,
        None => "",
    }
}

// Adds the values from a place up to another behind the texts that are there.
fn add_texts<'a>(
    values: &'a StringRecord,
    start: usize,
    end: usize,
    texts: &mut Vec<&'a str>,
) -> Result<(), AllocError>
    requires order { start ≤ end }
    requires within { end ≤ length (fields_of values.now) }
    ensures { OnOk result (map (λ s. s.now) texts.new.items ≡ map (λ s. s.now) texts.old.items ++ take (end - start) (drop start (fields_of values.now))) }
{
    for place in start..end {
        texts.push(text_at(values, place))?;
    }
    Ok(())
}

// Adds the values from a place up to another behind the fields that are there.
fn add_fields(
    values: &StringRecord,
    start: usize,
    end: usize,
    fields: &mut StringRecord,
) -> Result<(), AllocError>
    requires order { start ≤ end }
    requires within { end ≤ length (fields_of values.now) }
    ensures { OnOk result (fields_of fields.new ≡ fields_of fields.old ++ take (end - start) (drop start (fields_of values.now))) }
{
    for place in start..end {
        fields.push_field(text_at(values, place))?;
    }
    Ok(())
}

// Copies of the values from a place up to another.
fn copy_values(
    alloc: Global,
    values: &StringRecord,
    start: usize,
    end: usize,
) -> Result<Vec<Text>, AllocError>
    requires order { start ≤ end }
    requires within { end ≤ length (fields_of values.now) }
    ensures { IfOk result (λ row. row.items ≡ take (end - start) (drop start (fields_of values.now))) }
{
    let mut row = Vec::with_capacity(alloc, end - start)?;
    for place in start..end {
        row.push(Text::from_str(alloc, text_at(values, place))?)?;
    }
    Ok(row)
}
