// The moves from a set.
ghost use Rattle.std.specs.Prelude.{◌≡◌, ◌↔◌, ◌<◌, ◌≤◌, ℕ, IsTrue, Contains, IfOk, IfSome, IfNone, Some, slice_get, true, false};
ghost use Rattle.meaning.specs.declared.types.Method.{Method as TheMethod};
ghost use Rattle.meaning.specs.declared.types.Val.{Val as TheVal};
ghost use Rattle.meaning.specs.Runs.{IsActiveExposure};
ghost use Rattle.access_schema.specs.Meaning.{meaning_of};
ghost use Rattle.accessible_copy.specs.Known.{known_values};
ghost use Rattle.accessible_copy.specs.Listing.{AreInputs, IsInput};
ghost use Rattle.accessible_copy.specs.Methods.{methods_of, IsMethodIndex};
ghost use Rattle.accessible_copy.specs.Proving.{IsProofOf};
ghost use Rattle.least_search.specs.declared.space.Move.{Move as TheMove};
ghost use Rattle.exposure_search.specs.Tries.{IsMarked, Adds};
ghost use Rattle.exposure_search.specs.Making.{IsActiveMove, IsServed};

use crate::marks::{Marks, is_marked};
use access_schema::Schema;
use accessible_copy::{MethodIndex, Proof};
use least_search::Move;
use lists::NoMemory;
use meaning::types::{Ground, Val};
use std::alloc::Global;

/// For each relevant base fact that can be exposed at less than `below`, and gains something, a move by a method of least cost.
/// `facts` are the base facts.
///
/// A fact whose relation has no method at less than `below` is passed over before anything is looked up.
pub(crate) fn active_moves(
    alloc: Global,
    proof: &Proof,
    schema: &Schema,
    methods: &MethodIndex,
    facts: &[Ground],
    marks: &Marks,
    below: u64,
) -> Result<Vec<Move>, NoMemory>
    requires run { IsProofOf (meaning_of schema.now) proof.now }
    requires facts { facts.now ≡ proof.now.end.base }
    requires methods { IsMethodIndex schema.now.methods methods.now }
    ensures active { IfOk result (λ moves. (move : TheMove) → Contains moves.items move →
        IsActiveMove (meaning_of schema.now) proof.now move × IsMarked marks.now.relevant.items move.fact) }
    ensures all { IfOk result (λ moves. (move : TheMove) → IsActiveMove (meaning_of schema.now) proof.now move →
        IsMarked marks.now.relevant.items move.fact →
        Adds (known_values proof.now.constants proof.now.end.exposed) proof.now.end.base marks.now.needed.items move.fact →
        move.cost < below → IsServed moves.items move) }
{
    let mut moves = Vec::new(alloc);
    for (place, fact) in facts.iter().enumerate() {
        if let Some(step) = relevant_move(proof, schema, methods, marks, place, fact, below) {
            moves.push(step)?;
        }
    }
    Ok(moves)
}

/// The move that exposes the fact by a method of least cost, where it is relevant, one can at less than `below`, and it gains something.
fn relevant_move(
    proof: &Proof,
    schema: &Schema,
    methods: &MethodIndex,
    marks: &Marks,
    place: usize,
    fact: &Ground,
    below: u64,
) -> Option<Move>
    requires at { slice_get proof.now.end.base place ≡ Some fact.now }
    requires methods { IsMethodIndex schema.now.methods methods.now }
    ensures active { IfSome result (λ move. (move.fact ≡ place) × IsActiveMove (meaning_of schema.now) proof.now move
        × IsMarked marks.now.relevant.items place) }
    ensures least { IsMarked marks.now.relevant.items place →
        Adds (known_values proof.now.constants proof.now.end.exposed) proof.now.end.base marks.now.needed.items place →
        (number : ℕ) (method : TheMethod) → Contains (methods_of methods.now fact.now.rel) number →
        IsActiveExposure (meaning_of schema.now) proof.now.constants proof.now.end number fact.now method → method.cost < below →
        (move : TheMove) × (result ≡ Some move) × (move.cost ≤ method.cost) }
{
    if !is_marked(marks.relevant.as_slice(), place) {
        return None;
    }
    let step = cheapest_move(proof, schema, methods.numbers(fact.rel), place, fact, below)?;
    if gains(proof, marks.needed.as_slice(), place, fact) {
        Some(step)
    } else {
        None
    }
}

/// Whether the fact is not exposed, and is marked as needed or holds a value that is not known. A fact with such a value is not exposed,
/// so only a needed one is looked up.
fn gains(proof: &Proof, needed: &[bool], place: usize, fact: &Ground) -> bool
    requires { slice_get proof.now.end.base place ≡ Some fact.now }
    ensures yes { result ≡ true → Contains proof.now.end.exposed fact.now → ⊥ }
    ensures no { result ≡ false → (Contains proof.now.end.exposed fact.now → ⊥) →
        Adds (known_values proof.now.constants proof.now.end.exposed) proof.now.end.base needed.now place → ⊥ }
{
    if !is_marked(needed, place) {
        return has_unknown(proof, fact.vals.as_slice());
    }
    if proof.has_exposed(fact) {
        return false;
    }
    true
}

/// Whether one of the values is not known.
fn has_unknown(proof: &Proof, vals: &[Val]) -> bool
    ensures yes { result ≡ true → (v : TheVal) × Contains vals.now v × (Contains (known_values proof.now.constants proof.now.end.exposed) v → ⊥) }
    ensures no { result ≡ false → (v : TheVal) → Contains vals.now v → Contains (known_values proof.now.constants proof.now.end.exposed) v }
{
    for val in vals {
        if !proof.knows(val) {
            return true;
        }
    }
    false
}

/// The move that exposes the fact by a method of least cost, where one can at less than `below` if the fact is not exposed. These are
/// the numbers of the methods of the fact's relation.
fn cheapest_move(
    proof: &Proof,
    schema: &Schema,
    numbers: &[u32],
    place: usize,
    fact: &Ground,
    below: u64,
) -> Option<Move>
    requires at { slice_get proof.now.end.base place ≡ Some fact.now }
    requires named { (number : ℕ) → Contains numbers.now number →
        (method : TheMethod) × (slice_get schema.now.methods number ≡ Some method) × (method.rel ≡ fact.now.rel) }
    ensures active { (Contains proof.now.end.exposed fact.now → ⊥) →
        IfSome result (λ move. (move.fact ≡ place) × IsActiveMove (meaning_of schema.now) proof.now move) }
    ensures least { (number : ℕ) (method : TheMethod) → Contains numbers.now number →
        IsActiveExposure (meaning_of schema.now) proof.now.constants proof.now.end number fact.now method → method.cost < below →
        (move : TheMove) × (result ≡ Some move) × (move.cost ≤ method.cost) }
{
    let mut best = None;
    let mut limit = below;
    for &number in numbers {
        if let Some(cost) = cost_below(proof, schema, number, fact, limit) {
            best = Some(Move {
                fact: place,
                method: number,
                cost,
            });
            limit = u64::from(cost);
        }
    }
    best
}

/// The cost of the method, where it is less than `limit` and the fact's values at the inputs are known.
fn cost_below(proof: &Proof, schema: &Schema, number: u32, fact: &Ground, limit: u64) -> Option<u32>
    ensures some { IfSome result (λ cost. (method : TheMethod) × (slice_get schema.now.methods number ≡ Some method)
        × (cost ≡ method.cost) × (cost < limit)
        × AreInputs (known_values proof.now.constants proof.now.end.exposed) method.inputs fact.now.vals) }
    ensures none { IfNone result ((method : TheMethod) → slice_get schema.now.methods number ≡ Some method → method.cost < limit →
        AreInputs (known_values proof.now.constants proof.now.end.exposed) method.inputs fact.now.vals → ⊥) }
{
    let method = schema.methods.get(number as usize)?;
    if u64::from(method.cost) < limit
        && are_inputs(proof, method.inputs.as_slice(), fact.vals.as_slice())
    {
        return Some(method.cost);
    }
    None
}

/// Whether each input place has a value, which is known.
fn are_inputs(proof: &Proof, inputs: &[u32], vals: &[Val]) -> bool
    ensures { IsTrue result ↔ AreInputs (known_values proof.now.constants proof.now.end.exposed) inputs.now vals.now }
{
    for number in 0..inputs.len() {
        if !is_input(proof, inputs[number], vals) {
            return false;
        }
    }
    true
}

/// Whether the place has a value, which is known.
fn is_input(proof: &Proof, place: u32, vals: &[Val]) -> bool
    ensures { IsTrue result ↔ IsInput (known_values proof.now.constants proof.now.end.exposed) vals.now place }
{
    match vals.get(place as usize) {
        Some(val) => proof.knows(val),
        None => false,
    }
}
