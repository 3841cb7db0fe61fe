// What a search keeps of paths and sets.
ghost use Rattle.std.specs.Prelude.{◌≡◌, ◌⊎◌, ◌≤◌, ◌+◌, ◌<◌, ◌^◌, ℕ, [], ◌↔◌, Contains, Some, length, true, false, slice_get};
ghost use Rattle.std.specs.Result.{IfOk, OnOk};
ghost use Rattle.std.specs.Option.{MatchOption};
ghost use Rattle.least_search.specs.declared.table.Seen.TheVariants as seen;
ghost use Rattle.least_search.specs.declared.waiting.Waiter.{Waiter as TheWaiter};
ghost use Rattle.least_search.specs.Walks.{no_facts, with_fact};
ghost use Rattle.least_search.specs.Cuts.{holding, rest};
ghost use Rattle.least_search.specs.Ways.{Way, way_along};
ghost use Rattle.least_search.specs.Packing.{packed};
ghost use Rattle.least_search.specs.Frontier.{way_of, way_at, looked_in, waiting_in, IsFrontier, AreLooked, IsTakenFrom, IsTaken, IsAdded, IsWaiterOf};

use crate::cuts::Cut;
use crate::node::{Marked, Node, set_along};
use crate::paths::Paths;
use crate::rest::{held_marks, rest_below, rest_with};
use crate::set_key::SetKey;
use crate::space::Move;
use crate::table::{Seen, SetTable};
use crate::waiting::{Waiter, Waiting};
use lists::NoMemory;
use std::alloc::Global;

/// The paths that a search over so many facts made below a bound, those of them that wait, the numbers of those that were looked at, and
/// what is known of each set. The cuts say what is still to be paid at a set.
#[derive(Drop)]
pub(crate) struct Frontier<'a> {
    facts: usize,
    cuts: &'a [Cut],
    bound: u64,
    paths: Paths,
    waiting: Waiting,
    looked: Vec<usize>,
    table: SetTable,
}

/// A node, with the number of its path, the key of its set, and which cuts hold it.
#[derive(Drop)]
pub(crate) struct Taken {
    pub(crate) number: usize,
    pub(crate) node: Node,
    pub(crate) key: SetKey,
    pub(crate) held: Vec<bool>,
}

impl<'a> Frontier<'a> {
    /// The path without moves waits, if what is to be paid at the empty set is below the bound.
    pub(crate) fn start(
        alloc: Global,
        facts: usize,
        cuts: &'a [Cut],
        bound: u64,
    ) -> Result<Frontier<'a>, NoMemory>
        ensures sound { IfOk result IsFrontier }
        ensures facts { IfOk result (λ frontier. frontier.facts ≡ facts) }
        ensures cuts { IfOk result (λ frontier. frontier.cuts.now ≡ cuts.now) }
        ensures bound { IfOk result (λ frontier. frontier.bound ≡ bound) }
        ensures looked { IfOk result (λ frontier. looked_in frontier ≡ []) }
        ensures here { IfOk result (λ frontier. rest cuts.now (no_facts facts) < bound → Contains (waiting_in frontier) (way_along facts [])) }
        ensures only { IfOk result (λ frontier. (way : Way) → Contains (waiting_in frontier) way → way_along facts [] ≡ way) }
    {
        Ok(Frontier {
            facts,
            cuts,
            bound,
            paths: Paths::new(alloc),
            waiting: first_waiting(alloc, facts, cuts, bound)?,
            looked: Vec::new(alloc),
            table: SetTable::new(alloc),
        })
    }

    /// Takes the path with the least sum that waits to a set that was not looked at, and looks at it.
    pub(crate) fn take(&mut self, alloc: Global) -> Result<Option<Taken>, NoMemory>
        requires { IsFrontier self.old }
        ensures { IfOk result (λ found. MatchOption found (AreLooked (looked_in self.old) (waiting_in self.old)) (IsTaken self.old self.new)) }
    {
        while let Some(waiter) = self.waiting.pop() {
            let taken = self.along(alloc, &waiter)?;
            if !is_looked(self.table.get(&taken.key)) {
                let key = taken.key.copy(alloc)?;
                self.looked.push(waiter.number)?;
                self.table.put(key, Seen::Looked)?;
                return Ok(Some(taken));
            }
        }
        Ok(None)
    }

    /// The node of a path that waits, with its key.
    fn along(&self, alloc: Global, waiter: &Waiter) -> Result<Taken, NoMemory>
        requires within { waiter.now.number < length self.now.paths }
        requires sum { waiter.now.sum ≡ (way_at self.now.facts self.now.paths waiter.now.number).cost + waiter.now.rest }
        ensures number { IfOk result (λ taken. taken.number ≡ waiter.now.number) }
        ensures way { IfOk result (λ taken. way_of taken.node ≡ way_at self.now.facts self.now.paths waiter.now.number) }
        ensures key { IfOk result (λ taken. taken.key ≡ packed taken.node.set.items) }
        ensures held { IfOk result (λ taken. taken.held.items ≡ holding self.now.cuts.now taken.node.set.items) }
    {
        let path = self.paths.get(alloc, waiter.number)?;
        let Marked { set, key } = set_along(alloc, self.facts, &path)?;
        let held = held_marks(alloc, self.cuts, &set)?;
        Ok(Taken {
            number: waiter.number,
            node: Node {
                path,
                set,
                cost: waiter.sum - waiter.rest,
            },
            key,
            held,
        })
    }

    /// Lets the path that was taken wait with one more move, unless its sum reaches the bound, or its set was looked at or waits at no
    /// greater cost. The key is that of the set with the move's fact.
    pub(crate) fn add(
        &mut self,
        alloc: Global,
        taken: &Taken,
        step: Move,
        key: &SetKey,
    ) -> Result<(), NoMemory>
        requires sound { IsFrontier self.old }
        requires from { IsTakenFrom self.old taken.now }
        requires low { taken.now.node.cost < self.old.bound }
        requires free { slice_get taken.now.node.set.items step.fact ≡ Some false }
        requires key { key.now ≡ packed (with_fact taken.now.node.set.items step) }
        ensures sound { OnOk result (IsFrontier self.new) }
        ensures added { OnOk result (IsAdded self.old self.new taken.now step) }
    {
        let price = u64::from(step.cost);
        if price >= self.bound - taken.node.cost {
            return Ok(());
        }
        let cost = taken.node.cost + price;
        let Some(rest) = rest_with(self.cuts, &taken.held, step.fact, self.bound - cost) else {
            return Ok(());
        };
        if is_covered(self.table.get(key), cost) {
            return Ok(());
        }
        let kept = key.copy(alloc)?;
        let number = self.paths.push(taken.number, step)?;
        let sum = cost + rest;
        self.waiting.push(Waiter { sum, rest, number })?;
        self.table.put(kept, Seen::Waits { cost })?;
        Ok(())
    }
}

/// The path without moves waits, which has the number 0, if what is to be paid at the empty set is below the bound.
fn first_waiting(alloc: Global, facts: usize, cuts: &[Cut], bound: u64) -> Result<Waiting, NoMemory>
    ensures only { IfOk result (λ waiting. (waiter : TheWaiter) → Contains waiting waiter → (waiter.number ≡ 0) × IsWaiterOf cuts.now bound (way_along facts []) waiter) }
    ensures here { IfOk result (λ waiting. rest cuts.now (no_facts facts) < bound → (waiter : TheWaiter) × Contains waiting waiter × (waiter.number ≡ 0)) }
{
    let mut waiting = Waiting::new(alloc);
    let empty = vec![in alloc; false; facts]?;
    let Some(rest) = rest_below(cuts, &empty, bound) else {
        return Ok(waiting);
    };
    waiting.push(Waiter {
        sum: rest,
        rest,
        number: 0,
    })?;
    Ok(waiting)
}

/// Whether the set was looked at.
fn is_looked(known: Option<Seen>) -> bool
    ensures yes { result ≡ true → known ≡ Some seen.Looked }
    ensures no { result ≡ false → known ≡ Some seen.Looked → ⊥ }
{
    match known {
        Some(Seen::Looked) => true,
        Some(Seen::Waits { .. }) => false,
        None => false,
    }
}

/// Whether the set was looked at, or waits at no greater cost.
fn is_covered(known: Option<Seen>, cost: u64) -> bool
    ensures yes { result ≡ true → (known ≡ Some seen.Looked) ⊎ ((least : ℕ) × (known ≡ Some (seen.Waits least)) × (least ≤ cost)) }
    ensures no { result ≡ false → known ≡ Some seen.Looked → ⊥ }
{
    match known {
        Some(Seen::Looked) => true,
        Some(Seen::Waits { cost: least }) => least <= cost,
        None => false,
    }
}
