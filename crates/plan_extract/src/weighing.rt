// What an order of accesses weighs: an estimate without statistics.
//
// It is as if each table had 2^8 rows, and each value stood in 2^2 of them. All sizes are exponents of 2. An access without a known
// place multiplies rows by a table, one with a known place by the rows of a value, and each further known place filters. Accesses
// that share labels, directly or through others, make a block; blocks that share none are crossed by the next access.

use crate::exposures::Exposure;
use lists::NoMemory;
use meaning::types::{Ground, Method, Val};
use std::alloc::Global;
use std::collections::BTreeMap;

/// The size of a table.
const TABLE: u64 = 8;

/// The size of the rows in which a value stands.
const VALUE: u64 = 2;

/// The greatest size that is told apart from others.
const MOST: u64 = 60;

/// Accesses, by the bits of their numbers.
pub type Set = u64;

/// A label of an access.
#[derive(Clone, Copy)]
struct Naming {
    /// The accesses that have the label.
    holders: Set,
    in_head: bool,
    is_input: bool,
}

/// An access, as it is weighed.
#[derive(Drop)]
pub struct Access {
    /// How many places have a constant, or a label that another place has too, each label being left out once.
    fixed: u64,
    /// Each label once.
    labels: Vec<Naming>,
    /// The accesses that share a label with it, and itself.
    beside: Set,
}

/// Accesses of a set that share labels, directly or through others of it.
#[derive(Clone, Copy)]
pub struct Block {
    members: Set,
    size: u64,
}

/// By how much an access multiplies rows: so much more, and then so much less.
#[derive(Clone, Copy)]
struct Growth {
    more: u64,
    less: u64,
}

/// The access with that number alone. Numbers are below 64.
pub fn alone(number: usize) -> Set {
    1 << (number % 64) as u64
}

/// The exposures of a branch with this head, as they are weighed.
pub fn accesses(
    alloc: Global,
    exposures: &[Exposure<'_>],
    head: &[Val],
) -> Result<Vec<Access>, NoMemory> {
    let holders = holders(alloc, exposures)?;
    let mut accesses = Vec::with_capacity(alloc, exposures.len())?;
    for exposure in exposures {
        accesses.push(weighed(alloc, &holders, exposure, head)?)?;
    }
    Ok(accesses)
}

/// The accesses that have each label.
fn holders(alloc: Global, exposures: &[Exposure<'_>]) -> Result<BTreeMap<u32, Set>, NoMemory> {
    let mut holders = BTreeMap::new(alloc);
    for (number, exposure) in exposures.iter().enumerate() {
        note_holder(&mut holders, exposure.fact, alone(number))?;
    }
    Ok(holders)
}

fn note_holder(
    holders: &mut BTreeMap<u32, Set>,
    fact: &Ground,
    holder: Set,
) -> Result<(), NoMemory> {
    for value in fact.vals.as_slice() {
        if let Val::Label(label) = value {
            let others = holders.get(label).copied().unwrap_or(0);
            holders.insert(*label, others | holder)?;
        }
    }
    Ok(())
}

/// An exposure, as it is weighed.
fn weighed(
    alloc: Global,
    holders: &BTreeMap<u32, Set>,
    exposure: &Exposure<'_>,
    head: &[Val],
) -> Result<Access, NoMemory> {
    let different = labels_of(alloc, exposure.fact)?;
    let mut labels = Vec::with_capacity(alloc, different.len())?;
    let mut beside = 0;
    for label in different.as_slice() {
        let holders = holders.get(label).copied().unwrap_or(0);
        beside |= holders;
        labels.push(Naming {
            holders,
            in_head: is_in(head, *label),
            is_input: is_at_input(exposure.method, exposure.fact, *label),
        })?;
    }
    let fixed = exposure.fact.vals.len().saturating_sub(labels.len()) as u64;
    Ok(Access {
        fixed,
        labels,
        beside,
    })
}

/// The labels of a fact, each once.
fn labels_of(alloc: Global, fact: &Ground) -> Result<Vec<u32>, NoMemory> {
    let mut labels = Vec::new(alloc);
    for value in fact.vals.as_slice() {
        if let Val::Label(label) = value {
            labels.push(*label)?;
        }
    }
    labels.sort_unstable();
    labels.dedup();
    Ok(labels)
}

/// Whether the label is one of the values. Takes no memory.
fn is_in(vals: &[Val], label: u32) -> bool {
    for value in vals {
        if is_label(value, label) {
            return true;
        }
    }
    false
}

/// Whether the label stands at an input of the method. Takes no memory.
fn is_at_input(method: &Method, fact: &Ground, label: u32) -> bool {
    let vals = fact.vals.as_slice();
    for place in method.inputs.as_slice() {
        if let Some(value) = vals.get(*place as usize) {
            if is_label(value, label) {
                return true;
            }
        }
    }
    false
}

fn is_label(value: &Val, label: u32) -> bool {
    match value {
        Val::Label(other) => *other == label,
        Val::Const(_) => false,
    }
}

/// Whether each label at an input of the access is one of an access of the set. Takes no memory.
pub fn is_possible(access: &Access, set: Set) -> bool {
    for label in access.labels.as_slice() {
        if label.is_input && label.holders & set == 0 {
            return false;
        }
    }
    true
}

/// The growth of an access where those of the set are known. Takes no memory.
fn growth_of(access: &Access, set: Set) -> Growth {
    let mut known = access.fixed;
    for label in access.labels.as_slice() {
        if label.holders & set != 0 {
            known = known.saturating_add(1);
        }
    }
    if known == 0 {
        Growth {
            more: TABLE,
            less: 0,
        }
    } else {
        Growth {
            more: TABLE + VALUE,
            less: known.saturating_mul(TABLE),
        }
    }
}

/// The blocks of a set.
pub fn blocks(alloc: Global, accesses: &[Access], set: Set) -> Result<Vec<Block>, NoMemory> {
    let mut blocks = Vec::new(alloc);
    let mut passed = 0;
    for number in 0..accesses.len() {
        if set & !passed & alone(number) != 0 {
            let members = block_of(accesses, set, number);
            passed |= members;
            let size = size(accesses, set, members);
            blocks.push(Block { members, size })?;
        }
    }
    Ok(blocks)
}

/// The accesses of the set that share labels with this one, directly or through others of it. Takes no memory.
fn block_of(accesses: &[Access], set: Set, number: usize) -> Set {
    let mut members = alone(number);
    let mut passed = 0;
    for _ in 0..accesses.len() {
        let next = (members & !passed).trailing_zeros() as usize;
        // none is left where this is 64
        let Some(access) = accesses.get(next) else {
            return members;
        };
        passed |= alone(next);
        members |= access.beside & set;
    }
    members
}

/// The size of a block: the growths of its accesses, one after another, and at most a table for each label that is still named.
/// Takes no memory.
fn size(accesses: &[Access], set: Set, members: Set) -> u64 {
    let mut passed = 0;
    let mut more: u64 = 0;
    let mut less: u64 = 0;
    let mut still_named: u64 = 0;
    for (number, access) in accesses.iter().enumerate() {
        if members & alone(number) != 0 {
            let growth = growth_of(access, passed);
            more = more.saturating_add(growth.more);
            less = less.saturating_add(growth.less);
            still_named = still_named.saturating_add(named_later(access, passed, set));
            passed |= alone(number);
        }
    }
    more.saturating_sub(less)
        .min(still_named.saturating_mul(TABLE))
}

/// How many labels of the access that none of those passed has are named by the head or by an access outside the set. Takes no memory.
fn named_later(access: &Access, passed: Set, set: Set) -> u64 {
    let mut count: u64 = 0;
    for label in access.labels.as_slice() {
        if label.holders & passed == 0 && (label.in_head || label.holders & !set != 0) {
            count = count.saturating_add(1);
        }
    }
    count
}

/// The weight of an access after the set of these blocks: the rows after it, and its requests. Takes no memory.
pub fn weight(access: &Access, blocks: &[Block]) -> u64 {
    let mut set = 0;
    let mut apart: u64 = 0;
    let mut met: u64 = 0;
    let mut requests: u64 = 0;
    for block in blocks {
        set |= block.members;
        if access.beside & block.members == 0 {
            apart = apart.saturating_add(block.size);
        } else {
            met = met.saturating_add(block.size);
        }
        let asked = inputs_in(access, block.members).saturating_mul(TABLE);
        requests = requests.saturating_add(block.size.min(asked));
    }
    let growth = growth_of(access, set);
    let grown = met.saturating_add(growth.more).saturating_sub(growth.less);
    power(apart.saturating_add(grown)).saturating_add(power(requests))
}

/// How many labels at inputs of the access are ones of a block. Takes no memory.
fn inputs_in(access: &Access, members: Set) -> u64 {
    let mut count: u64 = 0;
    for label in access.labels.as_slice() {
        if label.is_input && label.holders & members != 0 {
            count = count.saturating_add(1);
        }
    }
    count
}

fn power(size: u64) -> u64 {
    1 << size.min(MOST)
}
