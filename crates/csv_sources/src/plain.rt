// Plain texts, which commas and line feeds alone cut into fields and records.
ghost use Rattle.std.specs.Prelude.{◌≡◌, ◌↔◌, ◌≤◌, ◌<◌, ◌++◌, ◌∷◌, ◌^◌, [], drop, length, map, slice_index_or, IfOk, IsTrue, MatchOption, OnOk};
ghost use Rattle.csv.specs.Reading.{default_config, records};
ghost use Rattle.csv.specs.Records.{fields_of, partial_of};
ghost use Rattle.source_trait.specs.Asking.{HaveArity};
ghost use Rattle.csv_sources.specs.DataFile.{AreText, fields_at, rows_at};
ghost use Rattle.csv_sources.specs.Plain.{IsPlain};

use crate::data_file::packed;
use csv::ByteRecord;
use lists::NoMemory;
use memchr::{memchr2, memchr2_iter};
use row_text::PackedRows;
use source_trait::AttachFault;
use std::alloc::Global;

/// Whether a text has neither a quote nor a carriage return.
pub(crate) fn is_plain(text: &[u8]) -> bool
    ensures { IsTrue result → IsPlain text.now }
{
    memchr2(b'"', b'\r', text).is_none()
}

/// What stands behind the first record of a plain text.
pub(crate) fn behind_first(alloc: Global, text: &[u8]) -> Result<&[u8], NoMemory>
    requires { IsPlain text.now }
    ensures plain { IfOk result (λ rest. IsPlain rest.now) }
    ensures rest { IfOk result (λ rest. records default_config rest.now ≡ drop 1 (records default_config text.now)) }
{
    let mut first = Vec::new(alloc);
    match cut_record(text, &mut first)? {
        Some(rest) => Ok(rest),
        None => Ok(&[]),
    }
}

/// The fields at the places of every record of a plain text, in order, or what is wrong with the first that is no row of this width. The
/// fields are text; they are gathered in `values`, which has none, one row after another.
pub(crate) fn plain_rows(
    alloc: Global,
    text: &[u8],
    width: usize,
    places: &[usize],
    values: ByteRecord,
) -> Result<Result<PackedRows, AttachFault>, NoMemory>
    requires plain { IsPlain text.now }
    requires few { length (records default_config text.now) < 2 ^ 32 }
    requires text { AreText (records default_config text.now) }
    requires some { 1 ≤ length places.now }
    requires none { fields_of values ≡ [] }
    requires fresh { partial_of values ≡ [] }
    ensures offer { IfOk result (λ offer. offer ≡ rows_at width places.now (records default_config text.now)) }
    ensures fit { IfOk result (λ offer. IfOk offer (HaveArity (length places.now))) }
{
    let mut values = values;
    let mut fields = Vec::with_capacity(alloc, width)?;
    let mut left = text;
    let mut number: u32 = 0;
    while let Some(rest) = cut_record(left, &mut fields)? {
        left = rest;
        number += 1;
        if fields.len() != width {
            return Ok(Err(AttachFault::BadRow { number }));
        }
        push_slices(&mut values, fields.as_slice(), places)?;
    }
    let rows = packed(alloc, values, places.len())?;
    Ok(Ok(rows))
}

// Takes the fields of the first record of a plain text into `fields`, and answers what stands behind it, if there is a record. A line without
// a byte is none.
fn cut_record<'t>(text: &'t [u8], fields: &mut Vec<&'t [u8]>) -> Result<Option<&'t [u8]>, NoMemory>
    requires { IsPlain text.now }
    ensures { IfOk result (λ rest. MatchOption rest (records default_config text.now ≡ [])
        (λ r. IsPlain r.now × (records default_config text.now ≡ map (λ f. f.now) fields.new.items ∷ records default_config r.now))) }
{
    fields.clear();
    let mut start = 0;
    let mut separators = memchr2_iter(b',', b'\n', text);
    while let Some(place) = separators.next() {
        let field = &text[start..place];
        start = place + 1;
        if text[place] == b',' {
            fields.push(field)?;
        } else if !is_blank(fields.as_slice(), field) {
            fields.push(field)?;
            return Ok(Some(&text[start..]));
        }
    }
    let field = &text[start..];
    if is_blank(fields.as_slice(), field) {
        return Ok(None);
    }
    fields.push(field)?;
    Ok(Some(&[]))
}

// Whether neither a field nor a byte of the next one stands on a line.
fn is_blank(line: &[&[u8]], field: &[u8]) -> bool
    ensures { IsTrue result ↔ (length line.now ≡ 0) × (length field.now ≡ 0) }
{
    line.is_empty() && field.is_empty()
}

// Adds the fields at the places behind the values that are there; a field that is not there is empty.
fn push_slices(values: &mut ByteRecord, fields: &[&[u8]], places: &[usize]) -> Result<(), NoMemory>
    requires { partial_of values.old ≡ [] }
    ensures fields { OnOk result (fields_of values.new ≡ fields_of values.old ++ fields_at places.now (map (λ f. f.now) fields.now)) }
    ensures whole { OnOk result (partial_of values.new ≡ []) }
{
    for place in places {
        values.push_field(slice_at(fields, *place))?;
    }
    Ok(())
}

fn slice_at<'t>(fields: &[&'t [u8]], place: usize) -> &'t [u8]
    ensures { result.now ≡ slice_index_or (map (λ f. f.now) fields.now) place [] }
{
    match fields.get(place) {
        Some(field) => field,
        None => &[],
    }
}
