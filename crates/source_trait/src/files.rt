// Files, by their names and bytes.
ghost use Rattle.std.specs.Prelude.{◌≡◌, ◌<◌, ◌≤◌, List, ℕ, Option, None, Some, length, IfOk, IfSome, IsSomeAnd, IsErrOf, MatchOption};
ghost use Rattle.source_trait.specs.Causes.{Rose};
ghost use Rattle.source_trait.specs.Outside.{bytes_of};

use lists::{Bytes, Text};
use std::alloc::Global;

/// Why a file is not read.
#[derive(Clone, Copy, Debug, PartialEq, Eq)]
pub enum FileFault {
    Missing,
    TooLarge,
    Failed,
    NoMemory,
}

/// Files that can be read by name.
pub trait Files {
    /// The names and their bytes, where they are told.
    ghost contents: { Self → Option (List (List ℕ × List ℕ)) };

    /// How often a read failed.
    ghost faults: { Self → ℕ };

    /// The bytes under a name, if there are at most `limit`.
    fn read(&mut self, alloc: Global, name: &Text, limit: u64) -> Result<Bytes, FileFault>
        ensures size { IfOk result (λ bytes. length bytes ≤ limit) }
        ensures bytes { IfOk result (λ bytes. IfSome (contents self.old) (λ files. bytes_of files name.now ≡ Some bytes)) }
        ensures missing { IsErrOf result FileFault.Missing
            → MatchOption (contents self.old) (Rose (faults self.old) (faults self.new)) (λ files. bytes_of files name.now ≡ None) }
        ensures too_large { IsErrOf result FileFault.TooLarge
            → MatchOption (contents self.old) (Rose (faults self.old) (faults self.new)) (λ files. IsSomeAnd (bytes_of files name.now) (λ bytes. limit < length bytes)) }
        ensures failed { IsErrOf result FileFault.Failed → Rose (faults self.old) (faults self.new) }
        ensures later { faults self.old ≤ faults self.new }
        ensures same { contents self.new ≡ contents self.old };
}
