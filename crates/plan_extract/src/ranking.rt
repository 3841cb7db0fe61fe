// Exposures in an order that is aimed at, where it is possible.
ghost use Rattle.std.specs.Prelude.{◌≡◌, ◌<◌, ℕ, [], true, IfOk, IsPermutation, Some, Contains, map, slice_get};
ghost use Rattle.std.specs.Ordering.{nat_cmp};
ghost use Rattle.std.specs.BTreeMap.{get};
ghost use Rattle.meaning.specs.declared.types.Val.TheVariants.{Label};
ghost use Rattle.plan_extract.specs.Lent.{exposures_of};
ghost use Rattle.plan_extract.specs.Arranged.{AreKnown};

use crate::arranging::ranks;
use crate::exposures::Exposure;
use crate::origins::{Origins, origins};
use lists::NoMemory;
use meaning::types::Val;
use std::alloc::Global;

/// The exposures in an order in which few rows are expected to come together, each input still known.
pub fn arranged<'a>(
    alloc: Global,
    kept: Vec<Exposure<'a>>,
    head: &[Val],
) -> Result<Vec<Exposure<'a>>, NoMemory>
    requires known { AreKnown [] (exposures_of kept.items) }
    ensures same { IfOk result (λ list. IsPermutation (exposures_of kept.entry.items) (exposures_of list.items)) }
    ensures known { IfOk result (λ list. AreKnown [] (exposures_of list.items)) }
{
    let Some(ranks) = ranks(alloc, kept.as_slice(), head)? else {
        return Ok(kept);
    };
    let list = by_rank(alloc, kept.as_slice(), ranks.as_slice())?;
    if are_known(alloc, list.as_slice())? {
        Ok(list)
    } else {
        Ok(kept)
    }
}

/// An exposure, and its place in the order that is aimed at.
#[derive(Clone, Copy)]
struct Ranked<'a> {
    rank: usize,
    exposure: Exposure<'a>,
}

/// The exposures by their ranks. One without a rank comes first.
fn by_rank<'a>(
    alloc: Global,
    exposures: &[Exposure<'a>],
    ranks: &[usize],
) -> Result<Vec<Exposure<'a>>, NoMemory>
    ensures { IfOk result (λ list. IsPermutation exposures.now list.items) }
{
    let mut ranked = with_ranks(alloc, exposures, ranks)?;
    ranked.sort_unstable_by_key(|one| one.rank);
    exposures_alone(alloc, ranked.as_slice())
}

fn with_ranks<'a>(
    alloc: Global,
    exposures: &[Exposure<'a>],
    ranks: &[usize],
) -> Result<Vec<Ranked<'a>>, NoMemory>
    ensures { IfOk result (λ ranked. map (λ one. one.exposure) ranked.items ≡ exposures.now) }
{
    let mut ranked = Vec::with_capacity(alloc, exposures.len())?;
    for (number, exposure) in exposures.iter().enumerate() {
        let rank = ranks.get(number).copied().unwrap_or(0);
        ranked.push(Ranked {
            rank,
            exposure: *exposure,
        })?;
    }
    Ok(ranked)
}

fn exposures_alone<'a>(alloc: Global, ranked: &[Ranked<'a>]) -> Result<Vec<Exposure<'a>>, NoMemory>
    ensures { IfOk result (λ exposures. exposures.items ≡ map (λ one. one.exposure) ranked.now) }
{
    let mut exposures = Vec::with_capacity(alloc, ranked.len())?;
    for one in ranked {
        exposures.push(one.exposure)?;
    }
    Ok(exposures)
}

/// Whether each label at an input of an exposure is one of an exposure before it.
fn are_known(alloc: Global, exposures: &[Exposure<'_>]) -> Result<bool, NoMemory>
    ensures { IfOk result (λ known. known ≡ true → AreKnown [] (exposures_of exposures.now)) }
{
    let origins = origins(alloc, exposures)?;
    for number in 0..exposures.len() {
        if !inputs_known(&origins, &exposures[number], number) {
            return Ok(false);
        }
    }
    Ok(true)
}

/// Whether each label at an input of the method has an origin before that number. Takes no memory.
fn inputs_known(origins: &Origins, exposure: &Exposure<'_>, number: usize) -> bool
    ensures { result ≡ true → (place label : ℕ) → Contains exposure.now.method.now.inputs place →
        slice_get exposure.now.fact.now.vals place ≡ Some (Label label) →
        (first : ℕ) × (get nat_cmp origins.now label ≡ Some first) × (first < number) }
{
    let vals = exposure.fact.vals.as_slice();
    let inputs = exposure.method.inputs.as_slice();
    for place in inputs {
        if !is_known(origins, vals, *place, number) {
            return false;
        }
    }
    true
}

/// Whether the value at the place is no label, or one that has an origin before that number. Takes no memory.
fn is_known(origins: &Origins, vals: &[Val], place: u32, number: usize) -> bool
    ensures { result ≡ true → (label : ℕ) → slice_get vals.now place ≡ Some (Label label) →
        (first : ℕ) × (get nat_cmp origins.now label ≡ Some first) × (first < number) }
{
    match vals.get(place as usize) {
        Some(Val::Label(label)) => match origins.get(label) {
            Some(first) => *first < number,
            None => false,
        },
        _ => true,
    }
}
