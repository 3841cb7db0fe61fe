// The header of a data file.
ghost use Rattle.std.specs.Prelude.{◌≡◌, ◌≤◌, length, map, IfOk};
ghost use Rattle.csv.specs.Records.{fields_of};
ghost use Rattle.csv_sources.specs.DataFile.{all_text, bad_column, header_fault, place_in, times_in};

use csv::ByteRecord;
use lists::{NoMemory, Text};
use source_trait::AttachFault;
use std::alloc::Global;

/// What is wrong with a header for these columns.
pub(crate) fn header_fault(header: &ByteRecord, columns: &[Text]) -> Option<AttachFault>
    requires { length columns.now ≤ 64 }
    ensures { result ≡ header_fault (fields_of header.now) columns.now }
{
    if !is_text(header) {
        return Some(AttachFault::NotUtf8 { number: 0 });
    }
    match bad_column(header, columns) {
        Some(column) => Some(AttachFault::BadHeader { column }),
        None => None,
    }
}

/// Whether each field is text.
pub(crate) fn is_text(row: &ByteRecord) -> bool
    ensures { result ≡ all_text (fields_of row.now) }
{
    let mut place = 0;
    while let Some(field) = row.get(place) {
        match str::from_utf8(field) {
            Ok(_) => place += 1,
            Err(_) => return false,
        }
    }
    true
}

// The first column whose name does not stand in the header exactly once.
fn bad_column(header: &ByteRecord, columns: &[Text]) -> Option<u32>
    requires { length columns.now ≤ 64 }
    ensures { result ≡ bad_column (fields_of header.now) 0 columns.now }
{
    let mut column: u32 = 0;
    let mut left = columns;
    while let [name, rest @ ..] = left {
        if times_in(header, name.as_bytes()) != 1 {
            return Some(column);
        }
        column += 1;
        left = rest;
    }
    None
}

// How often a name stands in the header.
fn times_in(header: &ByteRecord, name: &[u8]) -> usize
    ensures { result ≡ times_in (fields_of header.now) name.now }
{
    let mut times: usize = 0;
    let mut place = 0;
    while let Some(field) = header.get(place) {
        if field == name {
            times += 1;
        }
        place += 1;
    }
    times
}

/// The place of each column's name in the header.
pub(crate) fn places_of(
    alloc: Global,
    header: &ByteRecord,
    columns: &[Text],
) -> Result<Vec<usize>, NoMemory>
    ensures { IfOk result (λ places. places.items ≡ map (place_in (fields_of header.now)) columns.now) }
{
    let mut places = Vec::with_capacity(alloc, columns.len())?;
    for name in columns {
        places.push(place_in(header, name.as_bytes()))?;
    }
    Ok(places)
}

// The place of the first field that is the name; the number of fields where there is none.
fn place_in(header: &ByteRecord, name: &[u8]) -> usize
    ensures { result ≡ place_in (fields_of header.now) name.now }
{
    let mut place = 0;
    while let Some(field) = header.get(place) {
        if field == name {
            return place;
        }
        place += 1;
    }
    place
}
