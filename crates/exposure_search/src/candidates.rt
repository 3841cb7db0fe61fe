// Candidate moves with what they ask for and what they bring, and those that can be made from the facts of a path.
ghost use Rattle.std.specs.Prelude.{◌≡◌, ◌↔◌, ◌⊎◌, ◌≤◌, ℕ, List, [], Contains, IsTrue, IfOk, IfSome, IfNone, OnOk, Some, map, slice_get};
ghost use Rattle.meaning.specs.declared.types.Method.{Method as TheMethod};
ghost use Rattle.meaning.specs.declared.types.Ground.{Ground as TheGround};
ghost use Rattle.accessible_copy.specs.Known.{known_values};
ghost use Rattle.accessible_copy.specs.Listing.{AreInputs};
ghost use Rattle.accessible_copy.specs.Methods.{IsMethodIndex};
ghost use Rattle.least_search.specs.declared.space.Move.{Move as TheMove};
ghost use Rattle.exposure_search.specs.declared.candidates.Candidate.{Candidate as TheCandidate};
ghost use Rattle.exposure_search.specs.Making.{IsServed, fact_at};
ghost use Rattle.exposure_search.specs.Ahead.{facts_along};
ghost use Rattle.exposure_search.specs.Candidates.{IsHeld, AreHeld, AreKnown, IsCandidateOf, AreCandidates, CanBeMade, AreMovesFrom, IsMoveOf, IsOpenFrom, IsCandidateIndex};

use crate::candidate_index::CandidateIndex;
use crate::marks::{Marks, is_clear, is_marked};
use access_schema::Schema;
use accessible_copy::{MethodIndex, Proof};
use least_search::Move;
use lists::{Copies, Exact, NoMemory};
use meaning::types::{Ground, Val};
use std::alloc::Global;

/// A move, the values that it asks for and those that its fact brings, and whether a match can rest on the fact.
///
/// It asks for the fact's values at its method's inputs, and brings all of the fact's values, in both without those that are known
/// before anything is exposed.
#[derive(Drop)]
pub struct Candidate {
    pub step: Move,
    pub asks: Vec<Val>,
    pub brings: Vec<Val>,
    pub needed: bool,
}

/// For each fact that candidates can expose where the facts of the path are, a move of least cost. `facts` are the base facts.
pub(crate) fn moves_from(
    alloc: Global,
    candidates: &[Candidate],
    facts: &[Ground],
    path: &[Move],
    set: &[bool],
    below: u64,
) -> Result<Vec<Move>, NoMemory>
    ensures { IfOk result (λ moves. AreMovesFrom (facts_along facts.now path.now) set.now below candidates.now moves.items) }
{
    let mut moves = Vec::new(alloc);
    for candidate in candidates {
        if can_be_made(candidate, facts, path, set, below) {
            add_move(&mut moves, candidate.step)?;
        }
    }
    Ok(moves)
}

/// Adds the move. Where the last one exposes the same fact, the cheaper of both stays.
fn add_move(moves: &mut Vec<Move>, step: Move) -> Result<(), NoMemory>
    ensures each { OnOk result ((move : TheMove) → Contains moves.new.items move → Contains moves.old.items move ⊎ (move ≡ step)) }
    ensures served { OnOk result (IsServed moves.new.items step) }
    ensures stay { OnOk result ((move : TheMove) → IsServed moves.old.items move → IsServed moves.new.items move) }
{
    let Some(last) = moves.pop() else {
        moves.push(step)?;
        return Ok(());
    };
    if last.fact == step.fact {
        moves.push(cheaper(last, step))?;
        return Ok(());
    }
    moves.push(last)?;
    moves.push(step)?;
    Ok(())
}

/// The move of less cost.
fn cheaper(first: Move, second: Move) -> Move
    ensures one { (result ≡ first) ⊎ (result ≡ second) }
    ensures first { result.cost ≤ first.cost }
    ensures second { result.cost ≤ second.cost }
{
    if second.cost < first.cost {
        second
    } else {
        first
    }
}

/// Whether the move costs less than `below`, exposes a fact that the set lacks, asks for nothing that the facts of the path do not
/// hold, and gains something.
fn can_be_made(
    candidate: &Candidate,
    facts: &[Ground],
    path: &[Move],
    set: &[bool],
    below: u64,
) -> bool
    ensures { IsTrue result ↔ CanBeMade (facts_along facts.now path.now) set.now below candidate.now }
{
    if u64::from(candidate.step.cost) >= below || !is_clear(set, candidate.step.fact) {
        return false;
    }
    if !are_held(candidate.asks.as_slice(), facts, path) {
        return false;
    }
    candidate.needed || !are_held(candidate.brings.as_slice(), facts, path)
}

/// The moves of all candidates.
pub(crate) fn candidate_moves(
    alloc: Global,
    candidates: &[Candidate],
) -> Result<Vec<Move>, NoMemory>
    ensures { IfOk result (λ moves. moves.items ≡ map (λ (candidate : TheCandidate). candidate.step) candidates.now) }
{
    let mut moves = Vec::with_capacity(alloc, candidates.len())?;
    for candidate in candidates {
        moves.push(candidate.step)?;
    }
    Ok(moves)
}

/// Whether the set lacks the move's fact, and the facts of the path hold all that it asks for. Only the candidates of its fact are looked
/// at.
pub(crate) fn is_open(
    candidates: &[Candidate],
    index: &CandidateIndex,
    facts: &[Ground],
    path: &[Move],
    set: &[bool],
    step: &Move,
) -> bool
    requires { IsCandidateIndex candidates.now index.now }
    ensures { IsTrue result ↔ IsOpenFrom (facts_along facts.now path.now) set.now candidates.now step.now }
{
    if !is_clear(set, step.fact) {
        return false;
    }
    let numbers = index.numbers(step.fact);
    for &number in numbers {
        if let Some(candidate) = candidates.get(number) {
            if is_move_of(candidate, facts, path, step) {
                return true;
            }
        }
    }
    false
}

/// Whether the move is that of the candidate, and the facts of the path hold all that it asks for.
fn is_move_of(candidate: &Candidate, facts: &[Ground], path: &[Move], step: &Move) -> bool
    ensures { IsTrue result ↔ IsMoveOf (facts_along facts.now path.now) step.now candidate.now }
{
    candidate.step == *step && are_held(candidate.asks.as_slice(), facts, path)
}

/// Whether each of the values is held by a fact of the path.
fn are_held(vals: &[Val], facts: &[Ground], path: &[Move]) -> bool
    ensures { IsTrue result ↔ AreHeld (facts_along facts.now path.now) vals.now }
{
    for val in vals {
        if !is_held(val, facts, path) {
            return false;
        }
    }
    true
}

/// Whether a fact of the path holds the value.
fn is_held(val: &Val, facts: &[Ground], path: &[Move]) -> bool
    ensures { IsTrue result ↔ IsHeld (facts_along facts.now path.now) val.now }
{
    for step in path {
        if holds(val, facts, step.fact) {
            return true;
        }
    }
    false
}

/// Whether the fact with this number holds the value.
fn holds(val: &Val, facts: &[Ground], number: usize) -> bool
    ensures { IsTrue result ↔ Contains (fact_at facts.now number).vals val.now }
{
    match facts.get(number) {
        Some(fact) => is_among(val, fact.vals.as_slice()),
        None => false,
    }
}

/// Whether the value is one of these.
fn is_among(val: &Val, vals: &[Val]) -> bool
    ensures { IsTrue result ↔ Contains vals.now val.now }
{
    for other in vals {
        if other.same(val) {
            return true;
        }
    }
    false
}

/// The candidates that expose a relevant fact, by each method of its relation. `facts` are the base facts, none of which is exposed.
pub(crate) fn candidates_of(
    alloc: Global,
    proof: &Proof,
    schema: &Schema,
    methods: &MethodIndex,
    facts: &[Ground],
    marks: &Marks,
) -> Result<Vec<Candidate>, NoMemory>
    requires none { proof.now.end.exposed ≡ [] }
    requires methods { IsMethodIndex schema.now.methods methods.now }
    ensures { IfOk result (λ candidates. AreCandidates schema.now.methods proof.now.constants facts.now marks.now candidates.items) }
{
    let mut candidates = Vec::new(alloc);
    for (place, fact) in facts.iter().enumerate() {
        if is_marked(marks.relevant.as_slice(), place) {
            let needed = is_marked(marks.needed.as_slice(), place);
            let numbers = methods.numbers(fact.rel);
            add_candidates(
                alloc,
                &mut candidates,
                proof,
                schema,
                numbers,
                place,
                fact,
                needed,
            )?;
        }
    }
    Ok(candidates)
}

/// Adds the candidates that expose the fact by these methods of its relation.
fn add_candidates(
    alloc: Global,
    candidates: &mut Vec<Candidate>,
    proof: &Proof,
    schema: &Schema,
    numbers: &[u32],
    place: usize,
    fact: &Ground,
    needed: bool,
) -> Result<(), NoMemory>
    requires none { proof.now.end.exposed ≡ [] }
    requires named { (number : ℕ) → Contains numbers.now number →
        (method : TheMethod) × (slice_get schema.now.methods number ≡ Some method) × (method.rel ≡ fact.now.rel) }
    ensures each { OnOk result ((candidate : TheCandidate) → Contains candidates.new.items candidate → Contains candidates.old.items candidate
        ⊎ ((candidate.step.fact ≡ place) × (candidate.needed ≡ needed)
        × IsCandidateOf schema.now.methods proof.now.constants fact.now candidate)) }
    ensures stay { OnOk result ((candidate : TheCandidate) → Contains candidates.old.items candidate → Contains candidates.new.items candidate) }
    ensures all { OnOk result ((number : ℕ) (method : TheMethod) (exposed : List TheGround) → Contains numbers.now number →
        slice_get schema.now.methods number ≡ Some method → AreInputs (known_values proof.now.constants exposed) method.inputs fact.now.vals →
        (candidate : TheCandidate) × Contains candidates.new.items candidate
        × (candidate.step ≡ record { fact = place; method = number; cost = method.cost })) }
{
    for &number in numbers {
        if let Some(candidate) = candidate_of(alloc, proof, schema, number, place, fact, needed)? {
            candidates.push(candidate)?;
        }
    }
    Ok(())
}

/// The candidate that exposes the fact by this method of its relation. None comes only where an input has no value.
fn candidate_of(
    alloc: Global,
    proof: &Proof,
    schema: &Schema,
    number: u32,
    place: usize,
    fact: &Ground,
    needed: bool,
) -> Result<Option<Candidate>, NoMemory>
    requires none { proof.now.end.exposed ≡ [] }
    requires named { (method : TheMethod) × (slice_get schema.now.methods number ≡ Some method) × (method.rel ≡ fact.now.rel) }
    ensures is { IfOk result (λ made. IfSome made (λ candidate. (candidate.step.fact ≡ place) × (candidate.needed ≡ needed)
        × IsCandidateOf schema.now.methods proof.now.constants fact.now candidate)) }
    ensures step { IfOk result (λ made. IfSome made (λ candidate. (method : TheMethod) → slice_get schema.now.methods number ≡ Some method →
        candidate.step ≡ record { fact = place; method = number; cost = method.cost })) }
    ensures none { IfOk result (λ made. IfNone made ((method : TheMethod) (exposed : List TheGround) →
        slice_get schema.now.methods number ≡ Some method → AreInputs (known_values proof.now.constants exposed) method.inputs fact.now.vals → ⊥)) }
{
    let Some(method) = schema.methods.get(number as usize) else {
        return Ok(None);
    };
    let vals = fact.vals.as_slice();
    let Some(asks) = asked_values(alloc, proof, method.inputs.as_slice(), vals)? else {
        return Ok(None);
    };
    let brings = new_values(alloc, proof, vals)?;
    let step = Move {
        fact: place,
        method: number,
        cost: method.cost,
    };
    Ok(Some(Candidate {
        step,
        asks,
        brings,
        needed,
    }))
}

/// The values at the inputs that are not known, where each input has a value.
fn asked_values(
    alloc: Global,
    proof: &Proof,
    inputs: &[u32],
    vals: &[Val],
) -> Result<Option<Vec<Val>>, NoMemory>
    requires { proof.now.end.exposed ≡ [] }
    ensures some { IfOk result (λ asked. IfSome asked (λ asks. (exposed : List TheGround) → AreHeld exposed asks.items
        ↔ AreInputs (known_values proof.now.constants exposed) inputs.now vals.now)) }
    ensures none { IfOk result (λ asked. IfNone asked ((exposed : List TheGround) →
        AreInputs (known_values proof.now.constants exposed) inputs.now vals.now → ⊥)) }
{
    let mut asks = Vec::new(alloc);
    for &place in inputs {
        let Some(val) = vals.get(place as usize) else {
            return Ok(None);
        };
        add_new(alloc, &mut asks, proof, val)?;
    }
    Ok(Some(asks))
}

/// The values that are not known.
fn new_values(alloc: Global, proof: &Proof, vals: &[Val]) -> Result<Vec<Val>, NoMemory>
    requires { proof.now.end.exposed ≡ [] }
    ensures { IfOk result (λ brings. (exposed : List TheGround) → AreHeld exposed brings.items
        ↔ AreKnown (known_values proof.now.constants exposed) vals.now) }
{
    let mut brings = Vec::new(alloc);
    for val in vals {
        add_new(alloc, &mut brings, proof, val)?;
    }
    Ok(brings)
}

/// Adds the value, where it is not known.
fn add_new(alloc: Global, values: &mut Vec<Val>, proof: &Proof, val: &Val) -> Result<(), NoMemory>
    requires { proof.now.end.exposed ≡ [] }
    ensures { OnOk result ((exposed : List TheGround) → AreHeld exposed values.new.items
        ↔ (AreHeld exposed values.old.items × Contains (known_values proof.now.constants exposed) val.now)) }
{
    if proof.knows(val) {
        return Ok(());
    }
    values.push(val.copy(alloc)?)?;
    Ok(())
}
