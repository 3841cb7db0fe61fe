// The exposures that are active.
ghost use Rattle.std.specs.Prelude.{◌≡◌, ◌↔◌, ℕ, IsTrue, IfOk, OnOk, Contains, slice_get, Some};
ghost use Rattle.meaning.specs.declared.types.Ground.{Ground as TheGround};
ghost use Rattle.meaning.specs.declared.types.Method.{Method as TheMethod};
ghost use Rattle.meaning.specs.Search.{AreDistinct};
ghost use Rattle.access_schema.specs.Meaning.{meaning_of};
ghost use Rattle.accessible_copy.specs.Proving.{IsProofOf};
ghost use Rattle.accessible_copy.specs.Known.{known_values, facts_of};
ghost use Rattle.accessible_copy.specs.Methods.{IsMethodIndex};
ghost use Rattle.accessible_copy.specs.Ways.{ways_of};
ghost use Rattle.accessible_copy.specs.OpenFacts.{AreOpenFacts};
ghost use Rattle.accessible_copy.specs.Listing.{CanFire, AreExposures, AddsExposures, AreInputs, IsInput};

use crate::known::Known;
use crate::method_index::MethodIndex;
use crate::open_facts::OpenFacts;
use crate::proof::Proof;
use access_schema::Schema;
use lists::{Copies, NoMemory, Seq};
use meaning::types::{Firing, Firings, Ground, Val};
use std::alloc::Global;

/// Exactly the exposures that are active, each fact with each method, each once.
pub fn exposures(alloc: Global, proof: &Proof, schema: &Schema) -> Result<Firings, NoMemory>
    requires { IsProofOf (meaning_of schema.now) proof.now }
    ensures { IfOk result (λ found. AreExposures (meaning_of schema.now) proof.now proof.now.end.base found) }
{
    if let Some(kept) = &proof.open_facts {
        if kept.serves(schema) {
            return open_exposures(alloc, proof, schema, kept);
        }
    }
    let methods = MethodIndex::of(alloc, schema)?;
    indexed_exposures(alloc, proof, schema, &methods)
}

/// The active exposures, among the facts that are listed as open for the methods of this schema.
fn open_exposures(
    alloc: Global,
    proof: &Proof,
    schema: &Schema,
    kept: &OpenFacts,
) -> Result<Firings, NoMemory>
    requires run { IsProofOf (meaning_of schema.now) proof.now }
    requires ways { kept.now.ways.items ≡ ways_of schema.now.methods }
    requires kept { AreOpenFacts proof.now.end.base proof.now.constants proof.now.exposed kept.now }
    ensures { IfOk result (λ found. AreExposures (meaning_of schema.now) proof.now proof.now.end.base found) }
{
    if let Some(numbers) = kept.ascending() {
        return exposures_at(alloc, proof, schema, kept.methods(), numbers);
    }
    let numbers = kept.numbers(alloc)?;
    exposures_at(alloc, proof, schema, kept.methods(), numbers.as_slice())
}

/// The active exposures of the base facts with these numbers, among which is each that has one.
fn exposures_at(
    alloc: Global,
    proof: &Proof,
    schema: &Schema,
    methods: &MethodIndex,
    numbers: &[usize],
) -> Result<Firings, NoMemory>
    requires run { IsProofOf (meaning_of schema.now) proof.now }
    requires methods { IsMethodIndex schema.now.methods methods.now }
    requires once { AreDistinct numbers.now }
    requires all { (n number : ℕ) (fact : TheGround) → slice_get proof.now.end.base n ≡ Some fact →
        CanFire (meaning_of schema.now) proof.now number fact → Contains numbers.now n }
    ensures { IfOk result (λ found. AreExposures (meaning_of schema.now) proof.now proof.now.end.base found) }
{
    let mut found = Vec::with_capacity(alloc, numbers.len())?;
    for number in numbers {
        if let Some(fact) = proof.base(*number) {
            add_exposures(
                alloc,
                proof,
                schema,
                methods.numbers(fact.rel),
                fact,
                &mut found,
            )?;
        }
    }
    Ok(Seq::from_vec(found))
}

/// The same, with the index of the schema's methods at hand: each base fact that is not exposed is tried with the methods of
/// its relation alone.
pub fn indexed_exposures(
    alloc: Global,
    proof: &Proof,
    schema: &Schema,
    methods: &MethodIndex,
) -> Result<Firings, NoMemory>
    requires run { IsProofOf (meaning_of schema.now) proof.now }
    requires methods { IsMethodIndex schema.now.methods methods.now }
    ensures { IfOk result (λ found. AreExposures (meaning_of schema.now) proof.now proof.now.end.base found) }
{
    let mut found = Vec::new(alloc);
    for number in 0..proof.base.store().len() {
        if let Some(fact) = proof.base(number) {
            add_exposures(
                alloc,
                proof,
                schema,
                methods.numbers(fact.rel),
                fact,
                &mut found,
            )?;
        }
    }
    Ok(Seq::from_vec(found))
}

/// Puts the exposures of a base fact by these methods, each once, at the end of the list. Where memory is refused, some of them may
/// stand there.
fn add_exposures(
    alloc: Global,
    proof: &Proof,
    schema: &Schema,
    numbers: &[u32],
    fact: &Ground,
    found: &mut Vec<Firing>,
) -> Result<(), NoMemory>
    requires base { Contains proof.now.end.base fact.now }
    requires once { AreDistinct numbers.now }
    requires named { (number : ℕ) → Contains numbers.now number →
        (method : TheMethod) × (slice_get schema.now.methods number ≡ Some method) × (method.rel ≡ fact.now.rel) }
    ensures { OnOk result (AddsExposures (meaning_of schema.now) proof.now fact.now numbers.now found.old.items found.new.items) }
{
    if numbers.is_empty() || proof.known.has(fact) {
        return Ok(());
    }
    for number in numbers {
        if can_expose(proof, schema, *number, fact) {
            found.push(Firing::Expose {
                method: *number,
                fact: fact.copy(alloc)?,
            })?;
        }
    }
    Ok(())
}

/// Whether the method, which is one of the fact's relation, can expose the fact, which is not exposed.
fn can_expose(proof: &Proof, schema: &Schema, number: u32, fact: &Ground) -> bool
    requires base { Contains proof.now.end.base fact.now }
    requires new { Contains proof.now.end.exposed fact.now → ⊥ }
    requires named { (method : TheMethod) × (slice_get schema.now.methods number ≡ Some method) × (method.rel ≡ fact.now.rel) }
    ensures { IsTrue result ↔ CanFire (meaning_of schema.now) proof.now number fact.now }
{
    match schema.methods.get(number as usize) {
        Some(method) => are_inputs(&proof.known, method.inputs.as_slice(), fact.vals.as_slice()),
        None => false,
    }
}

/// Whether each input place has a value, which is known.
pub(crate) fn are_inputs(known: &Known, inputs: &[u32], vals: &[Val]) -> bool
    ensures { IsTrue result ↔ AreInputs (known_values known.now.constants (facts_of known.now.exposed)) inputs.now vals.now }
{
    for number in 0..inputs.len() {
        if !is_input(known, inputs[number], vals) {
            return false;
        }
    }
    true
}

/// Whether the place has a value, which is known.
fn is_input(known: &Known, place: u32, vals: &[Val]) -> bool
    ensures { IsTrue result ↔ IsInput (known_values known.now.constants (facts_of known.now.exposed)) vals.now place }
{
    match vals.get(place as usize) {
        Some(val) => known.knows(val),
        None => false,
    }
}
