// A source in memory that tells nothing.
ghost use Rattle.std.specs.Prelude.{◌≡◌, ◌≤◌, ◌+◌, None, false, length, IsErrOf};
ghost use Rattle.source_trait.specs.Asking.{AttachGives, CallGives, CanAsk};
ghost use Rattle.source_trait.specs.Failing.{CountsRefusal, FailsAsListed};

use crate::memory_source::MemorySource;
use crate::request_log::RequestLog;
use crate::source::{AttachFault, CallFault, Source};
use lists::{Places, Row, Text, Texts};
use row_text::PackedRows;
use std::alloc::Global;

/// A source in memory that tells nothing: attaches and calls are passed on, and what it holds, offers and was asked is not told.
///
/// For tests, and for callers who want to see what holds of every source.
#[derive(Drop)]
pub struct Untold {
    inner: MemorySource,
    // the refusals of an attach that it passed on, but for failures, which the source below counts, and want of memory
    refusals: u64,
}

impl Untold {
    /// The source below, of which nothing is told from here on. Takes no memory.
    pub fn new(inner: MemorySource) -> Untold
        ensures inner { result.inner ≡ inner }
        ensures refusals { result.refusals ≡ 0 }
    {
        Untold { inner, refusals: 0 }
    }
}

impl Source for Untold {
    ghost seen = { λ u. let below = ⟦<MemorySource as Source>⟧.seen u.inner in record {
      held = None;
      offer = λ rel columns locator. None;
      passes = λ list. false;
      asked = None;
      attached = below.attached;
      faults = below.faults + u.refusals;
      never_fails = false;
    } };

    fn attach(
        &mut self,
        alloc: Global,
        rel: u32,
        columns: &Texts,
        locator: &Text,
    ) -> Result<(), AttachFault>
        requires some { 1 ≤ length columns.now }
        requires few { length columns.now ≤ 64 }
        ensures gives { AttachGives (⟦<Untold as Source>⟧.seen self.old) (⟦<Untold as Source>⟧.seen self.new) rel columns.now locator.now result }
        ensures inner { AttachGives (⟦<MemorySource as Source>⟧.seen self.old.inner) (⟦<MemorySource as Source>⟧.seen self.new.inner) rel columns.now locator.now result }
        ensures turn { FailsAsListed self.old.inner.attaches self.new.inner.attaches self.old.inner.failures self.new.inner.failures (IsErrOf result AttachFault.Failed) ⊥ }
        ensures counts { CountsRefusal result self.old.refusals self.new.refusals }
    {
        match self.inner.attach(alloc, rel, columns, locator) {
            Ok(()) => Ok(()),
            Err(AttachFault::Failed) => Err(AttachFault::Failed),
            Err(AttachFault::NoMemory) => Err(AttachFault::NoMemory),
            Err(fault) => {
                self.refusals = self.refusals.saturating_add(1);
                Err(fault)
            }
        }
    }

    fn call(
        &mut self,
        alloc: Global,
        rel: u32,
        positions: &Places,
        values: &Row,
    ) -> Result<PackedRows, CallFault>
        requires { CanAsk ((⟦<Untold as Source>⟧.seen self.old).attached rel) positions.now values.now }
        ensures gives { CallGives (⟦<Untold as Source>⟧.seen self.old) (⟦<Untold as Source>⟧.seen self.new) rel positions.now values.now result }
        ensures inner { CallGives (⟦<MemorySource as Source>⟧.seen self.old.inner) (⟦<MemorySource as Source>⟧.seen self.new.inner) rel positions.now values.now result }
        ensures turn { FailsAsListed self.old.inner.calls self.new.inner.calls self.old.inner.failures self.new.inner.failures (IsErrOf result CallFault.Failed) (IsErrOf result CallFault.NoMemory) }
        ensures refusals { self.new.refusals ≡ self.old.refusals }
    {
        self.inner.call(alloc, rel, positions, values)
    }

    fn told(&self) -> Option<&RequestLog> {
        None
    }
}
