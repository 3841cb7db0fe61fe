// The records of a text, one after the other.
ghost use Rattle.std.specs.Prelude.{◌≡◌, ◌∷◌, [], IfOk, OnOk, true, false};
ghost use Rattle.csv.specs.Reading.{default_config, records, strip_bom};
ghost use Rattle.csv.specs.Records.{fields_of};
ghost use Rattle.csv_sources.specs.Records.{IsReading, records_left};

use csv::{ByteRecord, Reader, ReaderBuilder};
use lists::NoMemory;
use std::alloc::Global;

/// A reader of every record of a text, of any length, the first among them.
pub(crate) fn open(alloc: Global, text: &[u8]) -> Reader<&[u8]>
    ensures reading { IsReading result }
    ensures records { records_left result ≡ records default_config (strip_bom text.now) }
{
    ReaderBuilder::new()
        .has_headers(false)
        .flexible(true)
        .from_reader(alloc, text)
}

/// Takes the next record into `row`, and says whether there was one. Each fault of the reader is taken for want of
/// memory, since a text in memory has no other.
///
/// It is not inlined, so that the reader's own read, which it alone calls, is inlined here.
#[inline(never)]
pub(crate) fn next_record(
    reader: &mut Reader<&[u8]>,
    row: &mut ByteRecord,
) -> Result<bool, NoMemory>
    requires { IsReading reader.old }
    ensures reading { OnOk result (IsReading reader.new) }
    ensures taken { IfOk result (λ found. found ≡ true → records_left reader.old ≡ fields_of row.new ∷ records_left reader.new) }
    ensures end { IfOk result (λ found. found ≡ false → records_left reader.old ≡ []) }
{
    match reader.read_byte_record(row) {
        Ok(found) => Ok(found),
        Err(_) => Err(NoMemory),
    }
}
