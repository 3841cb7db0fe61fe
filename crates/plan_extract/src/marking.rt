// Which exposures a match rests on.
ghost use Rattle.std.specs.Prelude.{◌≡◌, ◌⊎◌, ◌<◌, ℕ, List, IfOk, IfSome, IfNone, Some, Contains, length};
ghost use Rattle.std.specs.Ordering.{nat_cmp};
ghost use Rattle.std.specs.BTreeMap.{get};
ghost use Rattle.meaning.specs.declared.types.Ground.{Ground};
ghost use Rattle.plan_extract.specs.Lent.{exposures_of};
ghost use Rattle.plan_extract.specs.Trimmed.{picked as picked_of};
ghost use Rattle.plan_extract.specs.Passes.{AreMarked, AreOrigins, HoldsWanted, AreClosed, IsMarked, IsOriginAt};

use crate::exposures::Exposure;
use crate::origins::{Origins, origins};
use homomorphism::Store;
use lists::NoMemory;
use meaning::types::Val;
use std::alloc::Global;

/// A mark for each exposure on which a match rests: those of wanted facts, and for each label at an input of one of them the first
/// exposure that has it.
pub fn marked(
    alloc: Global,
    exposures: &[Exposure<'_>],
    wanted: &Store,
) -> Result<Vec<bool>, NoMemory>
    ensures { IfOk result (λ marks. AreMarked (exposures_of exposures.now) wanted.now marks.items) }
{
    let origins = origins(alloc, exposures)?;
    let mut marks = wanted_marks(alloc, exposures, wanted)?;
    mark_origins(marks.as_mut_slice(), &origins, exposures);
    Ok(marks)
}

/// Marks, for each label at an input of an exposure that is marked, the first exposure that has the label. Takes no memory.
///
/// The exposures are read once, from the last one, as each comes behind those that it rests on.
fn mark_origins(marks: &mut [bool], origins: &Origins, exposures: &[Exposure<'_>])
    requires long { length marks.old ≡ length exposures.now }
    requires origins { AreOrigins (exposures_of exposures.now) origins.now }
    ensures held { (wanted : List Ground) → HoldsWanted (exposures_of exposures.now) wanted marks.old → HoldsWanted (exposures_of exposures.now) wanted marks.new }
    ensures closed { AreClosed (exposures_of exposures.now) 0 marks.new }
{
    let mut left = exposures.len();
    while left > 0 {
        left -= 1;
        if marks[left] {
            mark_inputs(marks, origins, &exposures[left]);
        }
    }
}

/// A mark for each exposure whose fact is wanted.
fn wanted_marks(
    alloc: Global,
    exposures: &[Exposure<'_>],
    wanted: &Store,
) -> Result<Vec<bool>, NoMemory>
    ensures { IfOk result (λ marks. HoldsWanted (exposures_of exposures.now) wanted.now marks.items) }
{
    let mut marks = Vec::with_capacity(alloc, exposures.len())?;
    for exposure in exposures {
        marks.push(wanted.contains(exposure.fact))?;
    }
    Ok(marks)
}

/// Marks the first exposure of each label at an input of the method. Takes no memory.
fn mark_inputs(marks: &mut [bool], origins: &Origins, exposure: &Exposure<'_>)
    requires { (label number : ℕ) → get nat_cmp origins.now label ≡ Some number → number < length marks.old }
    ensures stays { (k : ℕ) → IsMarked marks.old k → IsMarked marks.new k }
    ensures all { (place number : ℕ) → Contains exposure.now.method.now.inputs place →
        IsOriginAt origins.now exposure.now.fact.now.vals place number → IsMarked marks.new number }
    ensures only { (k : ℕ) → IsMarked marks.new k → IsMarked marks.old k
        ⊎ ((place : ℕ) × Contains exposure.now.method.now.inputs place × IsOriginAt origins.now exposure.now.fact.now.vals place k) }
{
    let vals = exposure.fact.vals.as_slice();
    let inputs = exposure.method.inputs.as_slice();
    for place in inputs {
        if let Some(number) = origin_at(origins, vals, *place) {
            marks[number] = true;
        }
    }
}

/// The first exposure of the label that stands at the place, if one does. Takes no memory.
fn origin_at(origins: &Origins, vals: &[Val], place: u32) -> Option<usize>
    ensures some { IfSome result (λ number. IsOriginAt origins.now vals.now place number) }
    ensures none { IfNone result ((number : ℕ) → IsOriginAt origins.now vals.now place number → ⊥) }
{
    match vals.get(place as usize) {
        Some(Val::Label(label)) => origins.get(label).copied(),
        _ => None,
    }
}

/// The exposures that are marked, in order.
pub fn picked<'a>(
    alloc: Global,
    exposures: &[Exposure<'a>],
    marks: &[bool],
) -> Result<Vec<Exposure<'a>>, NoMemory>
    requires { length marks.now ≡ length exposures.now }
    ensures { IfOk result (λ kept. exposures_of kept.items ≡ picked_of (exposures_of exposures.now) marks.now) }
{
    let mut kept = Vec::new(alloc);
    for number in 0..exposures.len() {
        if marks[number] {
            kept.push(exposures[number])?;
        }
    }
    Ok(kept)
}
