// Sets of facts, each with a path of moves that leads to it.
ghost use Rattle.std.specs.Prelude.{◌≡◌, slice_set, true};
ghost use Rattle.std.specs.Result.{IfOk};
ghost use Rattle.least_search.specs.Walks.{no_facts};
ghost use Rattle.least_search.specs.Ways.{set_after};
ghost use Rattle.least_search.specs.Packing.{packed};

use crate::set_key::SetKey;
use crate::space::Move;
use lists::NoMemory;
use std::alloc::Global;

/// A set of facts as one mark for each fact, with a path of moves that leads to it from the empty set, and their cost.
#[derive(Drop)]
pub struct Node {
    pub path: Vec<Move>,
    pub set: Vec<bool>,
    pub cost: u64,
}

/// A set of facts, and its key.
#[derive(Drop)]
pub(crate) struct Marked {
    pub(crate) set: Vec<bool>,
    pub(crate) key: SetKey,
}

/// The set that a path leads to from the empty set of so many facts.
pub(crate) fn set_along(alloc: Global, facts: usize, path: &[Move]) -> Result<Marked, NoMemory>
    ensures set { IfOk result (λ made. made.set.items ≡ set_after (no_facts facts) path.now) }
    ensures key { IfOk result (λ made. made.key ≡ packed made.set.items) }
{
    let mut made = empty_set(alloc, facts)?;
    for step in path {
        mark(&mut made, step.fact);
    }
    Ok(made)
}

/// The empty set of so many facts.
fn empty_set(alloc: Global, facts: usize) -> Result<Marked, NoMemory>
    ensures set { IfOk result (λ made. made.set.items ≡ no_facts facts) }
    ensures key { IfOk result (λ made. made.key ≡ packed made.set.items) }
{
    Ok(Marked {
        set: vec![in alloc; false; facts]?,
        key: SetKey::empty(alloc, facts)?,
    })
}

/// The set with the fact, if it is one of its facts. Takes no memory.
fn mark(made: &mut Marked, fact: usize)
    requires key { made.old.key ≡ packed made.old.set.items }
    ensures set { made.new.set.items ≡ slice_set made.old.set.items fact true }
    ensures key { made.new.key ≡ packed made.new.set.items }
{
    if fact < made.set.len() && !made.set[fact] {
        made.set[fact] = true;
        made.key.mark(fact);
    }
}
