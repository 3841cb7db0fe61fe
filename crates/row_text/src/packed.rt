// Rows that hold their values one after another in one buffer.
ghost use Rattle.std.specs.Prelude.{◌≡◌, ◌<◌, ◌++◌, ◌∷◌, [], List, ℕ, length, map, slice_get, slice_index, slice_index_or, IfOk, OnOk};
ghost use Rattle.csv.specs.Records.{fields_of, prev};
ghost use Rattle.std.specs.List.{AllByRecursion};
ghost use Rattle.row_text.specs.Packed.{values_of};

use crate::lent::LentRow;
use csv::StringRecord;
use lists::{Row, Text};
use std::alloc::{AllocError, Global};
use std::marker::Model;

/// Rows, whose values lie in one buffer. A row has no memory of its own: it is lent, or copied out where that is asked for.
/// A call that adds a row takes the rows and gives them back with it, so that a refused one leaves none half added.
#[derive(Drop)]
pub struct PackedRows {
    // the values of all rows, one after another
    values: StringRecord,
    // how many values there are up to the end of each row
    ends: Vec<usize>,
}

impl Model for PackedRows {
    ghost use Rattle.std.specs.Prelude.{List, ℕ, length};
    ghost use Rattle.csv.specs.Records.{fields_of};
    ghost use Rattle.row_text.specs.Packed.{AreEnds, cut_at};

    ghost Value = { List (List (List ℕ)) };

    ghost view = { λ p. cut_at 0 p.ends.items (fields_of p.values) };

    ghost invariant = { λ p. AreEnds 0 p.ends.items (length (fields_of p.values)) };
}

impl PackedRows {
    /// No rows. Takes no memory.
    pub fn new(alloc: Global) -> PackedRows
        ensures { result ≡ [] }
    {
        PackedRows {
            values: StringRecord::new(alloc),
            ends: Vec::new(alloc),
        }
    }

    /// No rows, with room for copies of these.
    pub fn room_alike(&self, alloc: Global) -> Result<PackedRows, AllocError>
        ensures { IfOk result (λ room. room ≡ []) }
    {
        let bytes = byte_count(&self.values);
        let room = with_room(alloc, self.len(), self.values.len(), bytes)?;
        Ok(room)
    }

    /// No rows, with room for the rows of another list, each behind a row of these that is as long as they are on average.
    pub fn room_beside(&self, alloc: Global, others: &PackedRows) -> Result<PackedRows, AllocError>
        ensures { IfOk result (λ room. room ≡ []) }
    {
        let count = others.len();
        let values = share(self.values.len(), self.len(), count);
        let bytes = share(byte_count(&self.values), self.len(), count);
        let room = with_room(
            alloc,
            count,
            values.saturating_add(others.values.len()),
            bytes.saturating_add(byte_count(&others.values)),
        )?;
        Ok(room)
    }

    /// No rows, with room for so many that are as long as these are on average.
    pub fn room_for(&self, alloc: Global, count: usize) -> Result<PackedRows, AllocError>
        ensures { IfOk result (λ room. room ≡ []) }
    {
        let values = share(self.values.len(), self.len(), count);
        let bytes = share(byte_count(&self.values), self.len(), count);
        let room = with_room(alloc, count, values, bytes)?;
        Ok(room)
    }

    /// These rows, copied.
    pub fn from_rows(alloc: Global, rows: &[Row]) -> Result<PackedRows, AllocError>
        ensures { IfOk result (λ packed. packed ≡ rows.now) }
    {
        let mut packed = PackedRows::new(alloc);
        for row in rows {
            packed = packed.with_row(row.as_slice())?;
        }
        Ok(packed)
    }

    /// Rows of so many values each, of which these are the values, one row after another.
    pub fn of_width(
        alloc: Global,
        values: StringRecord,
        width: usize,
    ) -> Result<PackedRows, AllocError>
        requires { 0 < width }
        ensures { (rows : List (List (List ℕ))) → values_of rows ≡ fields_of values → AllByRecursion (λ row. length row ≡ width) rows
            → IfOk result (λ packed. packed ≡ rows) }
    {
        let count = values.len();
        let mut ends = Vec::with_capacity(alloc, count / width)?;
        let mut end = 0;
        while end < count {
            end += width.min(count - end);
            ends.push(end)?;
        }
        Ok(PackedRows { values, ends })
    }

    /// The rows and one more, of these values.
    pub fn with_row(self, row: &[Text]) -> Result<PackedRows, AllocError>
        ensures { IfOk result (λ more. more ≡ self ++ row.now ∷ []) }
    {
        let PackedRows {
            mut values,
            mut ends,
        } = self;
        push_values(&mut values, row)?;
        ends.push(values.len())?;
        Ok(PackedRows { values, ends })
    }

    /// The rows and one more, of these texts.
    pub fn with_texts(self, texts: &[&str]) -> Result<PackedRows, AllocError>
        ensures { IfOk result (λ more. more ≡ self ++ map (λ s. s.now) texts.now ∷ []) }
    {
        let PackedRows {
            mut values,
            mut ends,
        } = self;
        push_texts(&mut values, texts)?;
        ends.push(values.len())?;
        Ok(PackedRows { values, ends })
    }

    /// The rows and one more, copied from one that is lent.
    pub fn with_lent(self, row: &LentRow<'_>) -> Result<PackedRows, AllocError>
        ensures { IfOk result (λ more. more ≡ self ++ row.now ∷ []) }
    {
        let PackedRows {
            mut values,
            mut ends,
        } = self;
        row.add_to_record(&mut values)?;
        ends.push(values.len())?;
        Ok(PackedRows { values, ends })
    }

    /// The rows, and those of another list behind them. These are taken and not copied where no row stands before them.
    pub fn with_all(self, rows: PackedRows) -> Result<PackedRows, AllocError>
        ensures { IfOk result (λ more. more ≡ self ++ rows) }
    {
        if self.len() == 0 {
            return Ok(rows);
        }
        let mut more = self;
        for number in 0..rows.len() {
            more = more.with_lent(&rows.at(number))?;
        }
        Ok(more)
    }

    /// How many rows there are.
    pub fn len(&self) -> usize
        ensures { result ≡ length self.now }
    {
        self.ends.len()
    }

    /// The row of a number, lent.
    pub fn at(&self, number: usize) -> LentRow<'_>
        requires { number < length self.now }
        ensures { result ≡ slice_index_or self.now number [] }
    {
        let (start, end) = bounds(&self.ends, number);
        LentRow::new(&self.values, start, end)
    }

    /// A copy of the rows.
    pub fn copy(&self, alloc: Global) -> Result<PackedRows, AllocError>
        ensures { IfOk result (λ same. same ≡ self.now) }
    {
        Ok(PackedRows {
            values: self.values.clone()?,
            ends: Vec::from_slice(alloc, self.ends.as_slice())?,
        })
    }

    /// Copies of all rows, in order, each with memory of its own.
    pub fn rows(&self, alloc: Global) -> Result<Vec<Row>, AllocError>
        ensures { IfOk result (λ rows. rows.items ≡ self.now) }
    {
        let mut rows = Vec::with_capacity(alloc, self.len())?;
        for number in 0..self.len() {
            rows.push(self.at(number).copy(alloc)?)?;
        }
        Ok(rows)
    }
}

// No rows, with room for so many rows with so many values, whose texts have so many bytes.
fn with_room(
    alloc: Global,
    rows: usize,
    values: usize,
    bytes: usize,
) -> Result<PackedRows, AllocError>
    ensures { IfOk result (λ room. room ≡ []) }
{
    Ok(PackedRows {
        values: StringRecord::with_capacity(alloc, bytes, values)?,
        ends: Vec::with_capacity(alloc, rows)?,
    })
}

// How many bytes the values have.
fn byte_count(values: &StringRecord) -> usize {
    values.as_byte_record().as_slice().len()
}

// What `count` members have, where `of` members have this much.
fn share(total: usize, of: usize, count: usize) -> usize {
    if of == 0 {
        return 0;
    }
    (total / of).saturating_add(1).saturating_mul(count)
}

// Adds values behind those that are there.
fn push_values(values: &mut StringRecord, row: &[Text]) -> Result<(), AllocError>
    ensures { OnOk result (fields_of values.new ≡ fields_of values.old ++ row.now) }
{
    for value in row {
        values.push_field(value.as_str())?;
    }
    Ok(())
}

// Adds texts behind the values that are there.
fn push_texts(values: &mut StringRecord, texts: &[&str]) -> Result<(), AllocError>
    ensures { OnOk result (fields_of values.new ≡ fields_of values.old ++ map (λ s. s.now) texts.now) }
{
    for text in texts {
        values.push_field(text)?;
    }
    Ok(())
}

/// How many members there are up to the start of a part, and up to its end.
pub(crate) fn bounds(ends: &Vec<usize>, number: usize) -> (usize, usize)
    requires { number < length ends.now.items }
    ensures start { result.0 ≡ prev 0 ends.now.items number }
    ensures end { result.1 ≡ slice_index ends.now.items number }
{
    let start = if number == 0 { 0 } else { ends[number - 1] };
    (start, ends[number])
}
