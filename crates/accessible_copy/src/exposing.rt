// One more exposure.
ghost use Rattle.std.specs.Prelude.{◌≡◌, ◌≤◌, ◌++◌, ◌∷◌, [], List, length, IfOk, OnOk, OnErr, IfSome};
ghost use Rattle.meaning.specs.declared.types.Method.{Method};
ghost use Rattle.meaning.specs.Runs.{last_part, IsActiveExposure, IsBaseQuiet};
ghost use Rattle.access_schema.specs.Meaning.{meaning_of};
ghost use Rattle.accessible_copy.specs.Proving.{IsProofOf, IsOrdered, log_of};
ghost use Rattle.accessible_copy.specs.Exposing.{with_exposure};
ghost use Rattle.accessible_copy.specs.declared.entry.Exposed.{Exposed as TheExposed};
ghost use Rattle.accessible_copy.specs.Known.{known_values, facts_of};
ghost use Rattle.accessible_copy.specs.OpenFacts.{AreOpenFacts};

use crate::open_facts::{OpenFacts, put};
use crate::proof::Proof;
use access_schema::Schema;
use lists::{Copies, NoMemory};
use meaning::types::{Firing, Ground};
use std::alloc::Global;

/// Exposes a base fact by a method. Where memory is refused, nothing changes.
pub fn expose(
    alloc: Global,
    proof: &mut Proof,
    schema: &Schema,
    method: u32,
    fact: &Ground,
) -> Result<(), NoMemory>
    requires run { IsProofOf (meaning_of schema.now) proof.old }
    requires active { (of : Method) × IsActiveExposure (meaning_of schema.now) proof.old.constants proof.old.end method fact.now of }
    requires quiet { IsBaseQuiet (meaning_of schema.now) proof.old.end }
    requires part { last_part 0 (log_of proof.old) ≤ 1 }
    ensures run { IsProofOf (meaning_of schema.now) proof.new }
    ensures exposed { OnOk result (proof.new ≡ with_exposure proof.old method fact.now) }
    ensures ordered { IsOrdered (meaning_of schema.now) proof.old → IsOrdered (meaning_of schema.now) proof.new }
    ensures refused { OnErr result (proof.new ≡ proof.old) }
{
    let width = proof.known.width();
    let kept = taken_open(alloc, proof, schema);
    match add_exposure(alloc, proof, schema, method, fact) {
        Ok(()) => {
            let kept = followed(alloc, proof, kept, width);
            put(&mut proof.open_facts, kept);
            Ok(())
        }
        Err(fault) => {
            put(&mut proof.open_facts, kept);
            Err(fault)
        }
    }
}

/// What is kept of the open facts, taken out of the proof; where no fact is exposed yet, it is made. It may be lost.
fn taken_open(alloc: Global, proof: &mut Proof, schema: &Schema) -> Option<Box<OpenFacts>>
    ensures same { proof.new ≡ proof.old }
    ensures kept { IfSome result (λ kept. AreOpenFacts proof.old.end.base proof.old.constants proof.old.exposed kept.value) }
{
    if let Some(kept) = proof.open_facts.take() {
        return Some(kept);
    }
    if proof.known.len() > 0 {
        return None;
    }
    match opened(alloc, proof, schema) {
        Ok(kept) => Some(kept),
        Err(_) => None,
    }
}

/// The open facts of a proof without exposed facts.
fn opened(alloc: Global, proof: &Proof, schema: &Schema) -> Result<Box<OpenFacts>, NoMemory>
    requires { proof.now.exposed ≡ [] }
    ensures { IfOk result (λ kept. AreOpenFacts proof.now.end.base proof.now.constants proof.now.exposed kept.value) }
{
    let kept = OpenFacts::of(alloc, schema, proof.base.store(), &proof.known)?;
    Ok(Box::new(alloc, kept)?)
}

/// What is kept of the open facts after the last exposure, before which there were `width` known values. It may be lost.
fn followed(
    alloc: Global,
    proof: &Proof,
    kept: Option<Box<OpenFacts>>,
    width: usize,
) -> Option<Box<OpenFacts>>
    requires { IfSome kept (λ kept. (exposed : List TheExposed) × (one : TheExposed) × (proof.now.exposed ≡ exposed ++ one ∷ [])
        × (width ≡ length (known_values proof.now.constants (facts_of exposed)))
        × AreOpenFacts proof.now.end.base proof.now.constants exposed kept.value) }
    ensures { IfSome result (λ kept. AreOpenFacts proof.now.end.base proof.now.constants proof.now.exposed kept.value) }
{
    let Some(mut kept) = kept else {
        return None;
    };
    match kept.follow(alloc, proof.base.store(), &proof.known, width) {
        Ok(()) => Some(kept),
        Err(_) => None,
    }
}

/// Adds the fact to each list that an exposure makes longer. Where memory is refused, nothing changes.
fn add_exposure(
    alloc: Global,
    proof: &mut Proof,
    schema: &Schema,
    method: u32,
    fact: &Ground,
) -> Result<(), NoMemory>
    requires run { IsProofOf (meaning_of schema.now) proof.old }
    requires active { (of : Method) × IsActiveExposure (meaning_of schema.now) proof.old.constants proof.old.end method fact.now of }
    requires part { last_part 0 (log_of proof.old) ≤ 1 }
    ensures exposed { OnOk result (proof.new ≡ with_exposure proof.old method fact.now) }
    ensures refused { OnErr result (proof.new ≡ proof.old) }
{
    put(&mut proof.open_facts, None);
    let before = proof.sizes();
    let next = proof.base.next();
    let own = proof.copy.next();
    let shown = fact.copy(alloc)?;
    let firing = Firing::Expose {
        method,
        fact: fact.copy(alloc)?,
    };
    proof.known.push(alloc, method, fact)?;
    if let Err(fault) = proof.copy.insert(alloc, shown, next) {
        proof.known.truncate(before.exposed, before.known);
        return Err(fault);
    }
    if let Err(fault) = proof.history.push(firing, before) {
        proof.copy.cut_back(before.copy, own);
        proof.known.truncate(before.exposed, before.known);
        return Err(fault);
    }
    Ok(())
}
