// The first exposure of each label.
ghost use Rattle.std.specs.Prelude.{◌≡◌, ◌⊎◌, ℕ, IfOk, OnOk, Some, None, Contains};
ghost use Rattle.std.specs.Ordering.{nat_cmp};
ghost use Rattle.std.specs.BTreeMap.{get};
ghost use Rattle.meaning.specs.declared.types.Val.TheVariants.{Label};
ghost use Rattle.plan_extract.specs.Lent.{exposures_of};
ghost use Rattle.plan_extract.specs.Passes.{AreOrigins};

use crate::exposures::Exposure;
use lists::NoMemory;
use meaning::types::Val;
use std::alloc::Global;
use std::collections::BTreeMap;

/// For each label of the exposed facts, by its number, the number of the first exposure that has it.
pub type Origins = BTreeMap<u32, usize>;

/// The first exposure of each label.
pub fn origins(alloc: Global, exposures: &[Exposure<'_>]) -> Result<Origins, NoMemory>
    ensures { IfOk result (AreOrigins (exposures_of exposures.now)) }
{
    let mut origins = BTreeMap::new(alloc);
    for (number, exposure) in exposures.iter().enumerate() {
        note_all(&mut origins, exposure.fact.vals.as_slice(), number)?;
    }
    Ok(origins)
}

/// Notes the number for each label of the values that has none.
fn note_all(origins: &mut Origins, vals: &[Val], number: usize) -> Result<(), NoMemory>
    ensures kept { OnOk result ((label n : ℕ) → get nat_cmp origins.old label ≡ Some n → get nat_cmp origins.new label ≡ Some n) }
    ensures all { OnOk result ((label : ℕ) → get nat_cmp origins.new label ≡ None → Contains vals.now (Label label) → ⊥) }
    ensures only { OnOk result ((label n : ℕ) → get nat_cmp origins.new label ≡ Some n →
        (get nat_cmp origins.old label ≡ Some n) ⊎ ((n ≡ number) × (get nat_cmp origins.old label ≡ None) × Contains vals.now (Label label))) }
{
    for value in vals {
        if let Val::Label(label) = value {
            note(origins, *label, number)?;
        }
    }
    Ok(())
}

/// Notes the number for the label if it has none.
fn note(origins: &mut Origins, label: u32, number: usize) -> Result<(), NoMemory>
    ensures kept { OnOk result ((q n : ℕ) → get nat_cmp origins.old q ≡ Some n → get nat_cmp origins.new q ≡ Some n) }
    ensures there { OnOk result (get nat_cmp origins.new label ≡ None → ⊥) }
    ensures only { OnOk result ((q n : ℕ) → get nat_cmp origins.new q ≡ Some n →
        (get nat_cmp origins.old q ≡ Some n) ⊎ ((n ≡ number) × (get nat_cmp origins.old q ≡ None) × (q ≡ label))) }
{
    if !origins.contains_key(&label) {
        origins.insert(label, number)?;
    }
    Ok(())
}
