// Files in memory, which tell everything and fail at the listed reads.
ghost use Rattle.std.specs.Prelude.{◌≡◌, ◌≤◌, ◌<◌, ◌↔◌, Some, None, IsTrue, IsErrOf, option_copied, length, IfOk, IfSome, IsSomeAnd, MatchOption};
ghost use Rattle.source_trait.specs.Causes.{Rose};
ghost use Rattle.source_trait.specs.Outside.{bytes_of, NamesDiffer};
ghost use Rattle.source_trait.specs.Failing.{FailsAsListed};
ghost use Rattle.source_trait.specs.Memory.{entries};

use crate::failing::FailingCalls;
use crate::files::{FileFault, Files};
use lists::{Bytes, Copies, Numbers, Seq, Text};
use std::alloc::Global;

/// A file in memory.
#[derive(Drop)]
pub struct NamedFile {
    pub name: Text,
    pub bytes: Bytes,
}

/// Files in memory.
pub type NamedBytes = Seq<NamedFile>;

/// Files in memory, of which the listed reads fail.
#[derive(Drop)]
pub struct MemoryFiles {
    files: Seq<NamedFile>,
    reads: FailingCalls,
    failures: u64,
}

impl MemoryFiles {
    /// The files, of which the reads with these numbers, counted from 1, are to fail. Takes no memory.
    pub fn new(_alloc: Global, files: NamedBytes, failing: Numbers) -> MemoryFiles
        requires { NamesDiffer (entries files) }
        ensures files { result.files ≡ files }
        ensures reads { result.reads ≡ record { numbers = failing; made = 0 } }
        ensures failures { result.failures ≡ 0 }
    {
        MemoryFiles {
            files,
            reads: FailingCalls::new(failing),
            failures: 0,
        }
    }
}

/// Whether no two files have one name.
pub fn names_differ(files: &NamedBytes) -> bool
    ensures { IsTrue result ↔ NamesDiffer (entries files.now) }
{
    let mut left = files.as_slice();
    while let [file, rest @ ..] = left {
        if find(rest, &file.name).is_some() {
            return false;
        }
        left = rest;
    }
    true
}

// The bytes under a name.
fn find<'a>(files: &'a [NamedFile], name: &Text) -> Option<&'a Bytes>
    ensures { option_copied result ≡ bytes_of (entries files.now) name.now }
{
    let mut left = files;
    while let [file, rest @ ..] = left {
        if file.name == *name {
            return Some(&file.bytes);
        }
        left = rest;
    }
    None
}

impl Files for MemoryFiles {
    ghost contents = { λ m. Some (entries m.files) };

    ghost faults = { λ m. m.failures };

    fn read(&mut self, alloc: Global, name: &Text, limit: u64) -> Result<Bytes, FileFault>
        ensures turn { FailsAsListed self.old.reads self.new.reads self.old.failures self.new.failures (IsErrOf result FileFault.Failed) ⊥ }
        ensures files { self.new.files ≡ self.old.files }
        ensures size { IfOk result (λ bytes. length bytes ≤ limit) }
        ensures bytes { IfOk result (λ bytes. bytes_of (entries self.old.files) name.now ≡ Some bytes) }
        ensures missing { IsErrOf result FileFault.Missing → bytes_of (entries self.old.files) name.now ≡ None }
        ensures too_large { IsErrOf result FileFault.TooLarge → IsSomeAnd (bytes_of (entries self.old.files) name.now) (λ bytes. limit < length bytes) }
    {
        if self.reads.fails_next() {
            self.failures = self.failures.saturating_add(1);
            return Err(FileFault::Failed);
        }
        match find(self.files.as_slice(), name) {
            None => Err(FileFault::Missing),
            Some(bytes) => {
                if bytes.len() as u64 > limit {
                    return Err(FileFault::TooLarge);
                }
                match bytes.copy(alloc) {
                    Ok(copy) => Ok(copy),
                    Err(_) => Err(FileFault::NoMemory),
                }
            }
        }
    }
}
