// What is still to be paid at a set.
ghost use Rattle.std.specs.Prelude.{◌≡◌, ◌<◌, ◌≤◌, length, slice_index_or, false};
ghost use Rattle.std.specs.Result.{IfOk};
ghost use Rattle.std.specs.Option.{MatchOption};
ghost use Rattle.least_search.specs.Cuts.{holding, is_within, rest, rest_of};

use crate::cuts::Cut;
use lists::NoMemory;
use std::alloc::Global;

/// What is still to be paid at the set, which is the sum of the weights of the cuts that hold it. None: that reaches `below`.
pub(crate) fn rest_below(cuts: &[Cut], set: &[bool], below: u64) -> Option<u64>
    ensures { MatchOption result (below ≤ rest cuts.now set.now) (λ due. (due ≡ rest cuts.now set.now) × (due < below)) }
{
    if below == 0 {
        return None;
    }
    let mut due = 0;
    for cut in cuts {
        if is_within(set, &cut.set) {
            if cut.weight >= below - due {
                return None;
            }
            due += cut.weight;
        }
    }
    Some(due)
}

/// The same at the set with one more fact, where `held` says which of the cuts hold the set.
pub(crate) fn rest_with(cuts: &[Cut], held: &[bool], fact: usize, below: u64) -> Option<u64>
    requires { length held.now ≡ length cuts.now }
    ensures { MatchOption result (below ≤ rest_of cuts.now held.now fact) (λ due. (due ≡ rest_of cuts.now held.now fact) × (due < below)) }
{
    if below == 0 {
        return None;
    }
    let mut due = 0;
    for (number, cut) in cuts.iter().enumerate() {
        if held[number] && is_marked(&cut.set, fact) {
            if cut.weight >= below - due {
                return None;
            }
            due += cut.weight;
        }
    }
    Some(due)
}

/// Which of the cuts hold the set.
pub(crate) fn held_marks(alloc: Global, cuts: &[Cut], set: &[bool]) -> Result<Vec<bool>, NoMemory>
    ensures { IfOk result (λ held. held.items ≡ holding cuts.now set.now) }
{
    let mut held = Vec::new(alloc);
    for cut in cuts {
        held.push(is_within(set, &cut.set))?;
    }
    Ok(held)
}

/// Whether the set has the fact.
fn is_marked(set: &[bool], fact: usize) -> bool
    ensures { result ≡ slice_index_or set.now fact false }
{
    fact < set.len() && set[fact]
}

/// Whether each mark of the first set is one of the second.
fn is_within(set: &[bool], larger: &[bool]) -> bool
    ensures { result ≡ is_within set.now larger.now }
{
    let mut left = set;
    let mut right = larger;
    while let [small, smalls @ ..] = left {
        let [large, larges @ ..] = right else {
            return false;
        };
        if *small && !*large {
            return false;
        }
        left = smalls;
        right = larges;
    }
    right.is_empty()
}
