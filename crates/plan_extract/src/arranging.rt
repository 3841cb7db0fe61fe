// The order in which the accesses of a branch weigh the least, as far as a short search sees.
//
// The order of accesses is sought by growing sets of them. Of each number of accesses 16 sets are kept, those that weigh the least
// in the order in which they were reached.

use crate::exposures::Exposure;
use crate::weighing::{Access, Set, accesses, alone, blocks, is_possible, weight};
use lists::NoMemory;
use meaning::types::Val;
use std::alloc::Global;

/// How many sets of one size are kept.
const KEPT: usize = 16;

/// The most accesses that are arranged, as a set has a bit for each.
const MOST_ACCESSES: usize = 64;

/// A set of accesses that was reached: by which access last, and from which of the sets reached before.
#[derive(Clone, Copy, PartialEq, Eq, PartialOrd, Ord)]
struct Reached {
    weight: u64,
    before: usize,
    last: usize,
    set: Set,
}

/// A rank for each exposure, in an order that weighs less than the one in which they stand, where one is found.
pub fn ranks(
    alloc: Global,
    exposures: &[Exposure<'_>],
    head: &[Val],
) -> Result<Option<Vec<usize>>, NoMemory> {
    if exposures.len() < 2 || exposures.len() > MOST_ACCESSES {
        return Ok(None);
    }
    let accesses = accesses(alloc, exposures, head)?;
    let found = lighter(alloc, accesses.as_slice());
    drop(accesses);
    found
}

fn lighter(alloc: Global, accesses: &[Access]) -> Result<Option<Vec<usize>>, NoMemory> {
    let reached = search(alloc, accesses)?;
    let standing = weight_as_they_stand(alloc, accesses)?;
    match reached.as_slice().last() {
        Some(end) if end.weight < standing => {
            Ok(Some(ranks_of(alloc, reached.as_slice(), accesses.len())?))
        }
        _ => Ok(None),
    }
}

/// The weight of the order in which the accesses stand.
fn weight_as_they_stand(alloc: Global, accesses: &[Access]) -> Result<u64, NoMemory> {
    let mut total: u64 = 0;
    let mut set = 0;
    for (number, access) in accesses.iter().enumerate() {
        let blocks = blocks(alloc, accesses, set)?;
        total = total.saturating_add(weight(access, blocks.as_slice()));
        set |= alone(number);
    }
    Ok(total)
}

/// The sets that were kept, with those of fewer accesses first. Those of one size are in the order of their accesses' numbers.
fn search(alloc: Global, accesses: &[Access]) -> Result<Vec<Reached>, NoMemory> {
    let mut reached = Vec::new(alloc);
    reached.push(Reached {
        weight: 0,
        before: 0,
        last: 0,
        set: 0,
    })?;
    let mut from = 0;
    for _ in 0..accesses.len() {
        let mut next = next_sets(alloc, accesses, reached.as_slice(), from)?;
        next.sort_unstable();
        from = reached.len();
        keep_least(alloc, &mut reached, next.as_slice())?;
    }
    Ok(reached)
}

/// The sets of one access more than those from that number on.
fn next_sets(
    alloc: Global,
    accesses: &[Access],
    reached: &[Reached],
    from: usize,
) -> Result<Vec<Reached>, NoMemory> {
    let mut next = Vec::new(alloc);
    for before in from..reached.len() {
        add_next(alloc, &mut next, accesses, &reached[before], before)?;
    }
    Ok(next)
}

/// Adds the sets of one access more than this one, which has that number.
fn add_next(
    alloc: Global,
    next: &mut Vec<Reached>,
    accesses: &[Access],
    reached: &Reached,
    before: usize,
) -> Result<(), NoMemory> {
    let blocks = blocks(alloc, accesses, reached.set)?;
    for (last, access) in accesses.iter().enumerate() {
        if reached.set & alone(last) == 0 && is_possible(access, reached.set) {
            next.push(Reached {
                weight: reached
                    .weight
                    .saturating_add(weight(access, blocks.as_slice())),
                before,
                last,
                set: reached.set | alone(last),
            })?;
        }
    }
    Ok(())
}

/// Adds the first of these with different sets, by the numbers of their accesses.
fn keep_least(alloc: Global, reached: &mut Vec<Reached>, next: &[Reached]) -> Result<(), NoMemory> {
    let mut kept = Vec::with_capacity(alloc, KEPT)?;
    for one in next {
        if kept.len() < KEPT && !has_set(kept.as_slice(), one.set) {
            kept.push(*one)?;
        }
    }
    kept.sort_unstable_by_key(|one| (one.before, one.last));
    for one in kept.as_slice() {
        reached.push(*one)?;
    }
    Ok(())
}

fn has_set(kept: &[Reached], set: Set) -> bool {
    for one in kept {
        if one.set == set {
            return true;
        }
    }
    false
}

/// The ranks of so many accesses in the order in which the last set was reached.
fn ranks_of(alloc: Global, reached: &[Reached], count: usize) -> Result<Vec<usize>, NoMemory> {
    let mut ranks = Vec::with_capacity(alloc, count)?;
    for _ in 0..count {
        ranks.push(0)?;
    }
    let mut at = reached.len().saturating_sub(1);
    for rank in (0..count).rev() {
        let Some(one) = reached.get(at) else {
            return Ok(ranks);
        };
        if let Some(place) = ranks.as_mut_slice().get_mut(one.last) {
            *place = rank;
        }
        at = one.before;
    }
    Ok(ranks)
}
