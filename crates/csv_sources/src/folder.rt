// A source over the CSV files of a folder.
ghost use Rattle.std.specs.Prelude.{◌≡◌, ◌≤◌, ◌+◌, Some, false, length, sum, if◌then◌else◌, IfOk, IsErrOf};
ghost use Rattle.source_trait.specs.Causes.{Rose};
ghost use Rattle.source_trait.specs.Asking.{AttachGives, CallGives, HaveArity};
ghost use Rattle.source_trait.specs.Holding.{facts_held, attached_in, loads_of, sizes_of};
ghost use Rattle.csv_sources.specs.DataFile.{file_offer};
ghost use Rattle.csv_sources.specs.Folder.{CountsBytes, CountsData, IsFresh, offer_beside, offers, passes_beside, passes_limit, told_bytes};
ghost use Rattle.csv_sources.specs.Loading.{LoadGives};

use crate::data_file::read_offer;
use lists::{NoMemory, Places, Row, Text, Texts};
use row_text::PackedRows;
use source_trait::{AttachFault, CallFault, FileFault, Files, Holding, RequestLog, Source};
use std::alloc::Global;

/// The most bytes that a data file may have.
pub const FILE_LIMIT: u64 = 8388608;

/// The most bytes that the files of all attached relations may have together; each relation counts its file.
pub const SUM_LIMIT: u64 = 16777216;

// The rows of a file, and how many bytes it has.
#[derive(Drop)]
struct Loaded {
    rows: PackedRows,
    size: u64,
}

/// A source that takes a locator as the name of a data file, and keeps the rows of what is attached.
///
/// A file is CSV in UTF-8, behind any number of byte order marks. Its header has each column's name exactly once, in any
/// order and beside other names, and each row has as many fields as the header. Files longer than `FILE_LIMIT`, or
/// than `SUM_LIMIT` together with those of the other attached relations, are too large.
#[derive(Drop)]
pub struct CsvFolder<F> {
    files: F,
    holding: Holding,
    asked: RequestLog,
    data_faults: u64,
}

impl<F: Files + Send + Drop> CsvFolder<F> {
    /// A folder of these files to which nothing is attached yet.
    pub fn new(alloc: Global, files: F) -> CsvFolder<F>
        ensures { IsFresh (⟦<CsvFolder<F> as Source>⟧.seen result) (F.contents files) (F.faults files) }
    {
        CsvFolder {
            files,
            holding: Holding::new(alloc),
            asked: RequestLog::new(alloc),
            data_faults: 0,
        }
    }
}

impl<F: Files + Send + Drop> Source for CsvFolder<F> {
    ghost seen = { λ c. record {
      held = Some (facts_held c.holding);
      offer = offers (F.contents c.files);
      passes = passes_limit (loads_of c.holding) (F.contents c.files);
      asked = Some c.asked;
      attached = attached_in c.holding;
      faults = F.faults c.files + c.data_faults;
      never_fails = false;
    } };

    fn attach(
        &mut self,
        alloc: Global,
        rel: u32,
        columns: &Texts,
        locator: &Text,
    ) -> Result<(), AttachFault>
        requires some { 1 ≤ length columns.now }
        requires few { length columns.now ≤ 64 }
        ensures gives { AttachGives (⟦<CsvFolder<F> as Source>⟧.seen self.old) (⟦<CsvFolder<F> as Source>⟧.seen self.new) rel columns.now locator.now result }
        ensures counts { CountsData (told_bytes (F.contents self.old.files) locator.now) (Rose (F.faults self.old.files) (F.faults self.new.files)) result self.old.data_faults self.new.data_faults }
        ensures bytes { CountsBytes (told_bytes (F.contents self.old.files) locator.now) rel result self.old.holding self.new.holding }
    {
        self.holding.detach(rel);
        match load(
            alloc,
            &mut self.files,
            &mut self.data_faults,
            &self.holding,
            columns,
            locator,
        ) {
            Ok(loaded) => {
                match self
                    .holding
                    .take(alloc, rel, columns, locator, loaded.rows, loaded.size)
                {
                    Ok(()) => Ok(()),
                    Err(_) => Err(AttachFault::NoMemory),
                }
            }
            Err(fault) => Err(fault),
        }
    }

    fn call(
        &mut self,
        alloc: Global,
        rel: u32,
        positions: &Places,
        values: &Row,
    ) -> Result<PackedRows, CallFault>
        ensures gives { CallGives (⟦<CsvFolder<F> as Source>⟧.seen self.old) (⟦<CsvFolder<F> as Source>⟧.seen self.new) rel positions.now values.now result }
        ensures works { ¬ (IsErrOf result CallFault.Failed) }
        ensures faults { (⟦<CsvFolder<F> as Source>⟧.seen self.new).faults ≡ (⟦<CsvFolder<F> as Source>⟧.seen self.old).faults }
    {
        let rows = match self
            .holding
            .ask(alloc, rel, positions.as_slice(), values.as_slice())
        {
            Ok(rows) => rows,
            Err(_) => return Err(CallFault::NoMemory),
        };
        match self.asked.push(alloc, rel, positions, values) {
            Ok(()) => Ok(rows),
            Err(_) => Err(CallFault::NoMemory),
        }
    }

    fn told(&self) -> Option<&RequestLog> {
        Some(&self.asked)
    }
}

// The rows of a file that are taken beside what is held, and every fault of the data counted.
fn load<F: Files>(
    alloc: Global,
    files: &mut F,
    data_faults: &mut u64,
    holding: &Holding,
    columns: &Texts,
    locator: &Text,
) -> Result<Loaded, AttachFault>
    requires some { 1 ≤ length columns.now }
    requires few { length columns.now ≤ 64 }
    ensures gives { LoadGives (offer_beside (sum (sizes_of holding.now)) (F.contents files.old) columns.now locator.now) (told_bytes (F.contents files.old) locator.now) (length columns.now) (Rose (F.faults files.old + data_faults.old) (F.faults files.new + data_faults.new)) result }
    ensures counts { CountsData (told_bytes (F.contents files.old) locator.now) (Rose (F.faults files.old) (F.faults files.new)) result data_faults.old data_faults.new }
    ensures files_later { F.faults files.old ≤ F.faults files.new }
    ensures data_later { data_faults.old ≤ data_faults.new }
    ensures same { F.contents files.new ≡ F.contents files.old }
{
    let bytes = match files.read(alloc, locator, FILE_LIMIT) {
        Ok(bytes) => bytes,
        Err(FileFault::Missing) => return Err(AttachFault::Missing),
        Err(FileFault::TooLarge) => return Err(AttachFault::TooLarge),
        Err(FileFault::Failed) => return Err(AttachFault::Failed),
        Err(FileFault::NoMemory) => return Err(AttachFault::NoMemory),
    };
    match offer_within(alloc, holding, bytes.as_slice(), columns) {
        Ok(Ok(rows)) => Ok(Loaded {
            rows,
            size: bytes.len() as u64,
        }),
        Ok(Err(fault)) => {
            *data_faults = data_faults.saturating_add(1);
            Err(fault)
        }
        Err(_) => Err(AttachFault::NoMemory),
    }
}

// What the bytes of a file offer beside what is held: nothing of them is looked at where they pass the limit.
fn offer_within(
    alloc: Global,
    holding: &Holding,
    bytes: &[u8],
    columns: &Texts,
) -> Result<Result<PackedRows, AttachFault>, NoMemory>
    requires some { 1 ≤ length columns.now }
    requires few { length columns.now ≤ 64 }
    requires small { length bytes.now ≤ FILE_LIMIT }
    ensures offer { IfOk result (λ offer. offer ≡ (if passes_beside (sum (sizes_of holding.now)) (Some bytes.now) then Err AttachFault.TooLarge else file_offer bytes.now columns.now)) }
    ensures fit { IfOk result (λ offer. IfOk offer (HaveArity (length columns.now))) }
{
    if !holding.has_room(bytes.len() as u64, SUM_LIMIT) {
        return Ok(Err(AttachFault::TooLarge));
    }
    read_offer(alloc, bytes, columns)
}
