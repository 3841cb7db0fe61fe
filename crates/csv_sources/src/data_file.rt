// The rows of a data file.
ghost use Rattle.std.specs.Prelude.{◌≡◌, ◌≤◌, ◌<◌, ◌+◌, ◌++◌, ◌^◌, drop, length, slice_index_or, IfOk, IfErr, OnOk, [], List, ℕ, Ok, None, Some};
ghost use Rattle.csv.specs.Reading.{default_config, records};
ghost use Rattle.csv.specs.Records.{AllText, fields_of, partial_of};
ghost use Rattle.row_text.specs.Packed.{values_of};
ghost use Rattle.source_trait.specs.Asking.{HaveArity};
ghost use Rattle.csv_sources.specs.Records.{IsReading, records_left};
ghost use Rattle.csv_sources.specs.DataFile.{AreText, after_marks, fields_at, file_offer, row_fault, rows_at};

use crate::folder::FILE_LIMIT;
use crate::header::{header_fault, places_of};
use crate::plain::{behind_first, is_plain, plain_rows};
use crate::records::{next_record, open};
use csv::{ByteRecord, Reader, StringRecord};
use lists::{NoMemory, Texts};
use memchr::memchr_iter;
use row_text::PackedRows;
use source_trait::AttachFault;
use std::alloc::Global;

/// What the bytes of a file offer to a relation with these columns: its rows, or what is wrong with the bytes.
pub(crate) fn read_offer(
    alloc: Global,
    bytes: &[u8],
    columns: &Texts,
) -> Result<Result<PackedRows, AttachFault>, NoMemory>
    requires some { 1 ≤ length columns.now }
    requires few { length columns.now ≤ 64 }
    requires small { length bytes.now ≤ FILE_LIMIT }
    ensures offer { IfOk result (λ offer. offer ≡ file_offer bytes.now columns.now) }
    ensures fit { IfOk result (λ offer. IfOk offer (HaveArity (length columns.now))) }
{
    let text = behind_marks(bytes);
    let mut reader = open(alloc, text);
    let mut header = ByteRecord::new(alloc);
    if !next_record(&mut reader, &mut header)? {
        return Ok(Err(AttachFault::BadHeader { column: 0 }));
    }
    match header_fault(&header, columns.as_slice()) {
        Some(fault) => Ok(Err(fault)),
        None => {
            let places = places_of(alloc, &header, columns.as_slice())?;
            rows_behind(alloc, text, &mut reader, header.len(), places.as_slice())
        }
    }
}

// The bytes behind every byte order mark at the beginning.
fn behind_marks(bytes: &[u8]) -> &[u8]
    ensures { result.now ≡ after_marks bytes.now }
{
    let mut left = bytes;
    while let [a, b, c, rest @ ..] = left {
        if !(*a == 0xEF && *b == 0xBB && *c == 0xBF) {
            break;
        }
        left = rest;
    }
    left
}

// What a text offers behind its header, which the reader has taken: the fields at the places of every other record, in order, or what is wrong
// with the first that is no row of this width. A text that is plain is cut, and the kit's reader goes over any other.
fn rows_behind(
    alloc: Global,
    text: &[u8],
    reader: &mut Reader<&[u8]>,
    width: usize,
    places: &[usize],
) -> Result<Result<PackedRows, AttachFault>, NoMemory>
    requires reading { IsReading reader.old }
    requires behind { records_left reader.old ≡ drop 1 (records default_config text.now) }
    requires few { length (records_left reader.old) < 2 ^ 32 }
    requires some { 1 ≤ length places.now }
    ensures offer { IfOk result (λ offer. offer ≡ rows_at width places.now (records_left reader.old)) }
    ensures fit { IfOk result (λ offer. IfOk offer (HaveArity (length places.now))) }
{
    let count = value_count(text, places.len());
    if !text.is_ascii() {
        let values = StringRecord::with_capacity(alloc, text.len(), count)?;
        return text_rows(alloc, reader, width, places, values);
    }
    if is_plain(text) {
        let rows = behind_first(alloc, text)?;
        let values = ByteRecord::with_capacity(alloc, text.len(), count)?;
        return plain_rows(alloc, rows, width, places, values);
    }
    let values = ByteRecord::with_capacity(alloc, text.len(), count)?;
    ascii_rows(alloc, reader, width, places, values)
}

// About how many values so many columns have in the lines of a text.
fn value_count(text: &[u8], columns: usize) -> usize {
    let lines = memchr_iter(b'\n', text).count();
    lines.saturating_mul(columns).min(text.len())
}

// The fields at the places of every record that is left, in order, or what is wrong with the first that is no row of this width. The
// fields are text, as those of a file of ASCII are; they are gathered in `values`, which has none, one row after another.
fn ascii_rows(
    alloc: Global,
    reader: &mut Reader<&[u8]>,
    width: usize,
    places: &[usize],
    values: ByteRecord,
) -> Result<Result<PackedRows, AttachFault>, NoMemory>
    requires reading { IsReading reader.old }
    requires few { length (records_left reader.old) < 2 ^ 32 }
    requires text { AreText (records_left reader.old) }
    requires some { 1 ≤ length places.now }
    requires none { fields_of values ≡ [] }
    requires fresh { partial_of values ≡ [] }
    ensures offer { IfOk result (λ offer. offer ≡ rows_at width places.now (records_left reader.old)) }
    ensures fit { IfOk result (λ offer. IfOk offer (HaveArity (length places.now))) }
{
    let mut values = values;
    let mut record = ByteRecord::new(alloc);
    let mut number: u32 = 0;
    while next_record(reader, &mut record)? {
        number += 1;
        if record.len() != width {
            return Ok(Err(AttachFault::BadRow { number }));
        }
        push_fields(&mut values, &record, places)?;
    }
    let rows = packed(alloc, values, places.len())?;
    Ok(Ok(rows))
}

// The same of records that may be no text.
fn text_rows(
    alloc: Global,
    reader: &mut Reader<&[u8]>,
    width: usize,
    places: &[usize],
    values: StringRecord,
) -> Result<Result<PackedRows, AttachFault>, NoMemory>
    requires reading { IsReading reader.old }
    requires few { length (records_left reader.old) < 2 ^ 32 }
    requires some { 1 ≤ length places.now }
    requires none { fields_of values ≡ [] }
    ensures offer { IfOk result (λ offer. offer ≡ rows_at width places.now (records_left reader.old)) }
    ensures fit { IfOk result (λ offer. IfOk offer (HaveArity (length places.now))) }
{
    let mut values = values;
    let mut record = ByteRecord::new(alloc);
    let mut number: u32 = 0;
    while next_record(reader, &mut record)? {
        number += 1;
        let row = match text_row(record, width, number) {
            Ok(row) => row,
            Err(fault) => return Ok(Err(fault)),
        };
        push_texts(&mut values, &row, places)?;
        record = row.into_byte_record();
    }
    let rows = PackedRows::of_width(alloc, values, places.len())?;
    Ok(Ok(rows))
}

// The row of this number as text, or what is wrong with it. Takes no memory.
fn text_row(row: ByteRecord, width: usize, number: u32) -> Result<StringRecord, AttachFault>
    ensures same { IfOk result (λ text. fields_of text ≡ fields_of row) }
    ensures whole { OnOk result (row_fault width number (fields_of row) ≡ None) }
    ensures fault { IfErr result (λ fault. row_fault width number (fields_of row) ≡ Some fault) }
{
    if row.len() != width {
        return Err(AttachFault::BadRow { number });
    }
    match StringRecord::from_byte_record(row) {
        Ok(text) => Ok(text),
        Err(_) => Err(AttachFault::NotUtf8 { number }),
    }
}

// Adds the fields of a row at the places behind the values that are there; a field that is not there is empty.
fn push_fields(values: &mut ByteRecord, row: &ByteRecord, places: &[usize]) -> Result<(), NoMemory>
    requires { partial_of values.old ≡ [] }
    ensures fields { OnOk result (fields_of values.new ≡ fields_of values.old ++ fields_at places.now (fields_of row.now)) }
    ensures whole { OnOk result (partial_of values.new ≡ []) }
{
    for place in places {
        values.push_field(field_at(row, *place))?;
    }
    Ok(())
}

fn field_at(row: &ByteRecord, place: usize) -> &[u8]
    ensures { result.now ≡ slice_index_or (fields_of row.now) place [] }
{
    match row.get(place) {
        Some(field) => field,
        None => b"",
    }
}

// The same of texts.
fn push_texts(
    values: &mut StringRecord,
    row: &StringRecord,
    places: &[usize],
) -> Result<(), NoMemory>
    ensures { OnOk result (fields_of values.new ≡ fields_of values.old ++ fields_at places.now (fields_of row.now)) }
{
    for place in places {
        values.push_field(text_at(row, *place))?;
    }
    Ok(())
}

fn text_at(row: &StringRecord, place: usize) -> &str
    ensures { result.now ≡ slice_index_or (fields_of row.now) place [] }
{
    match row.get(place) {
        Some(field) => field,
        None => "",
    }
}

/// The rows of so many values each, of which these are the values.
pub(crate) fn packed(
    alloc: Global,
    values: ByteRecord,
    width: usize,
) -> Result<PackedRows, NoMemory>
    requires some { 1 ≤ width }
    requires text { AllText (fields_of values) }
    ensures { (rows : List (List (List ℕ))) → values_of rows ≡ fields_of values → HaveArity width rows → IfOk result (λ packed. packed ≡ rows) }
{
    match StringRecord::from_byte_record(values) {
        Ok(values) => PackedRows::of_width(alloc, values, width),
        Err(_) => unreachable!(),
    }
}
