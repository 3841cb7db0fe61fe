// A sink in memory, which keeps what it takes and fails at the listed writes.
ghost use Rattle.std.specs.Prelude.{◌≡◌, ◌≤◌, ◌<◌, ◌++◌, Some, [], min, take, length, IsErrOf, IfOk, OnErr};
ghost use Rattle.source_trait.specs.Failing.{FailsAsListed};

use crate::failing::FailingCalls;
use crate::sink::{Sink, SinkFault};
use lists::Numbers;
use std::alloc::Global;

/// A sink in memory that takes at most so many bytes a call, and of which the listed writes fail.
#[derive(Drop)]
pub struct MemorySink {
    most: usize,
    writes: FailingCalls,
    failures: u64,
    bytes: Vec<u8>,
    ghost some: { 1 ≤ most },
}

impl MemorySink {
    /// A sink that took nothing yet, of which the writes with these numbers, counted from 1, are to fail. Takes no memory.
    pub fn new(alloc: Global, most: usize, failing: Numbers) -> MemorySink
        requires { 1 ≤ most }
        ensures most { result.most ≡ most }
        ensures writes { result.writes ≡ record { numbers = failing; made = 0 } }
        ensures failures { result.failures ≡ 0 }
        ensures bytes { result.bytes.items ≡ [] }
    {
        MemorySink {
            most,
            writes: FailingCalls::new(failing),
            failures: 0,
            bytes: Vec::new(alloc),
        }
    }

    /// The bytes that it took so far. Takes no memory.
    pub fn bytes(&self) -> &[u8]
        ensures { ⟦<MemorySink as Sink>⟧.taken self.now ≡ Some result.now }
    {
        self.bytes.as_slice()
    }
}

impl Sink for MemorySink {
    ghost taken = { λ s. Some s.bytes.items };

    ghost faults = { λ s. s.failures };

    fn write(&mut self, piece: &[u8]) -> Result<usize, SinkFault>
        ensures turn { FailsAsListed self.old.writes self.new.writes self.old.failures self.new.failures (IsErrOf result SinkFault.Failed) ⊥ }
        ensures most { self.new.most ≡ self.old.most }
        ensures count { IfOk result (λ n. n ≡ min (length piece.now) self.old.most) }
        ensures taken { IfOk result (λ n. self.new.bytes.items ≡ self.old.bytes.items ++ take n piece.now) }
        ensures refused { OnErr result (self.new.bytes.items ≡ self.old.bytes.items) }
    {
        if self.writes.fails_next() {
            self.failures = self.failures.saturating_add(1);
            return Err(SinkFault::Failed);
        }
        let count = piece.len().min(self.most);
        match self.bytes.extend_from_slice(&piece[..count]) {
            Ok(()) => Ok(count),
            Err(_) => Err(SinkFault::NoMemory),
        }
    }
}
