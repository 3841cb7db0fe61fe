// What works an item.
use std::alloc::Global;

/// A worker works items one after another, and may change with each.
pub trait Worker: Send {
    type Item;

    type Answer;

    /// Whether the worker may work the item.
    ghost ready: { Self → Self.Item → Type 0 };

    /// What became of the worker before, the item, the answer and the worker after.
    ghost did: { Self → Self.Item → Self.Answer → Self → Type 0 };

    /// Works the item. Want of memory is a part of the answer.
    fn work(&mut self, alloc: Global, item: &Self::Item) -> Self::Answer
        requires { ready self.old item.now }
        ensures did { did self.old item.now result self.new }
        ensures ready { (x : Self.Item) → ready self.old x → ready self.new x };
}
