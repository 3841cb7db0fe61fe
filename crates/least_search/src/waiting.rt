// Paths that wait to be looked at, the least sum first.
ghost use Rattle.std.specs.Prelude.{◌≡◌, ◌⊎◌, ◌+◌, ◌≤◌, [], Contains, length};
ghost use Rattle.std.specs.Result.{OnOk};
ghost use Rattle.std.specs.Option.{IfSome, IfNone, OnSome};
ghost use Rattle.least_search.specs.declared.waiting.Waiter.{Waiter as TheWaiter};

use lists::NoMemory;
use std::alloc::Global;
use std::cmp::Reverse;
use std::collections::BinaryHeap;
use std::marker::Model;

/// The number of a path that waits, with what is still to be paid at its set, and the sum of that and its cost. The least sum comes first,
/// and of equal sums the greatest cost. Of two that cost the same the first made comes first: paths that go on from one path follow one
/// another.
#[derive(Clone, Copy, Debug, PartialEq, Eq, PartialOrd, Ord)]
pub(crate) struct Waiter {
    pub(crate) sum: u64,
    pub(crate) rest: u64,
    pub(crate) number: usize,
}

/// Paths that wait, in a heap.
#[derive(Drop)]
pub(crate) struct Waiting {
    heap: BinaryHeap<Reverse<Waiter>>,
}

impl Model for Waiting {
    ghost use Rattle.std.specs.Prelude.{List};
    ghost use Rattle.std.specs.BinaryHeap.{IsHeap, heap_items};
    ghost use Rattle.least_search.specs.declared.waiting.Waiter.{Waiter};
    ghost use Rattle.least_search.specs.Queues.{waiters_of, turned_cmp};

    ghost Value = { List Waiter };

    ghost view = { λ x. waiters_of (heap_items x.heap) };

    ghost invariant = { λ x. IsHeap turned_cmp (heap_items x.heap) };
}

impl Waiting {
    pub(crate) fn new(alloc: Global) -> Self
        ensures { result ≡ [] }
    {
        Waiting {
            heap: BinaryHeap::new(alloc),
        }
    }

    pub(crate) fn push(&mut self, waiter: Waiter) -> Result<(), NoMemory>
        ensures only { OnOk result ((other : TheWaiter) → Contains self.new other → (waiter ≡ other) ⊎ Contains self.old other) }
        ensures waiter { OnOk result (Contains self.new waiter) }
        ensures kept { OnOk result ((other : TheWaiter) → Contains self.old other → Contains self.new other) }
    {
        self.heap.push(Reverse(waiter))?;
        Ok(())
    }

    /// Takes a waiter with the least sum.
    pub(crate) fn pop(&mut self) -> Option<Waiter>
        ensures among { IfSome result (λ waiter. Contains self.old waiter) }
        ensures least { IfSome result (λ waiter. (other : TheWaiter) → Contains self.new other → waiter.sum ≤ other.sum) }
        ensures stay { IfSome result (λ waiter. (other : TheWaiter) → Contains self.old other → (waiter ≡ other) ⊎ Contains self.new other) }
        ensures only { IfSome result (λ waiter. (other : TheWaiter) → Contains self.new other → Contains self.old other) }
        ensures shorter { OnSome result (length self.new + 1 ≡ length self.old) }
        ensures none { IfNone result (self.old ≡ []) }
    {
        let Reverse(waiter) = self.heap.pop()?;
        Some(waiter)
    }
}
