// The accessible part of an instance.
ghost use Rattle.std.specs.Prelude.{◌≡◌, ◌↔◌, ◌<◌, ℕ, List, IsTrue, IfOk, IfSome, IfNone, Contains, slice_get, slice_index_or, Some, length};
ghost use Rattle.std.specs.List.{HoldsAt};
ghost use Rattle.meaning.specs.declared.types.Fact.{Fact};
ghost use Rattle.meaning.specs.Access.{IsAccessible, CanAccess, IsKnown};
ghost use Rattle.meaning.specs.Search.{AreDistinct};
ghost use Rattle.access_schema.specs.Meaning.{meaning_of};
ghost use Rattle.no_plan_witness.specs.Gathering.{KnowsAt, KnowsInputs, IsValueOf, Gathered};

use access_schema::Schema;
use lists::{Copies, Exact, NoMemory, Row, Seq, Text, Texts};
use meaning::types::{Fact, Instance};
use meaning_laws::laws::accessible_closed;
use std::alloc::Global;

/// The facts that the methods reach from the constants, each once.
pub fn accessible_part(
    alloc: Global,
    schema: &Schema,
    constants: &Texts,
    facts: &Instance,
) -> Result<Instance, NoMemory>
    ensures exactly { IfOk result (λ part. (fact : Fact) → Contains part fact ↔ IsAccessible (meaning_of schema.now) constants.now facts.now fact) }
    ensures once { IfOk result (λ part. AreDistinct part) }
{
    let mut waiting = facts.copy(alloc)?.into_vec();
    let mut part = Vec::new(alloc);
    while let Some(place) = first_accessible(
        schema,
        constants,
        part.as_slice(),
        waiting.as_slice(),
    ) {
        let fact = waiting.remove(place);
        if !has(part.as_slice(), &fact) {
            part.insert(0, fact)?;
        }
    }
    accessible_closed();
    Ok(Seq::from_vec(part))
}

/// The place of the first fact that can be accessed from the earlier ones, if there is one.
fn first_accessible(
    schema: &Schema,
    constants: &Texts,
    earlier: &[Fact],
    waiting: &[Fact],
) -> Option<usize>
    ensures some { IfSome result (λ place. HoldsAt (CanAccess (meaning_of schema.now) constants.now earlier.now) waiting.now place) }
    ensures place { IfSome result (λ place. place < length waiting.now) }
    ensures none { IfNone result ((fact : Fact) → Contains waiting.now fact → CanAccess (meaning_of schema.now) constants.now earlier.now fact → ⊥) }
{
    for (place, fact) in waiting.iter().enumerate() {
        if can_access(schema, constants, earlier, fact) {
            return Some(place);
        }
    }
    None
}

/// Whether some method gives the fact, with inputs that are known from the constants and the earlier facts.
fn can_access(schema: &Schema, constants: &Texts, earlier: &[Fact], fact: &Fact) -> bool
    ensures { IsTrue result ↔ CanAccess (meaning_of schema.now) constants.now earlier.now fact.now }
{
    for method in schema.methods.as_slice() {
        if method.rel == fact.rel
            && knows_inputs(constants, earlier, &fact.row, method.inputs.as_slice())
        {
            return true;
        }
    }
    false
}

/// Whether the row has known values at all of these positions.
fn knows_inputs(constants: &Texts, earlier: &[Fact], row: &Row, inputs: &[u32]) -> bool
    ensures { IsTrue result ↔ KnowsInputs constants.now earlier.now row.now inputs.now }
{
    for input in inputs {
        if !knows_at(constants, earlier, row, *input) {
            return false;
        }
    }
    true
}

/// Whether the row has a known value at the position.
fn knows_at(constants: &Texts, earlier: &[Fact], row: &Row, input: u32) -> bool
    ensures { IsTrue result ↔ KnowsAt constants.now earlier.now row.now input }
{
    match row.get(input as usize) {
        Some(value) => is_known(constants, earlier, value),
        None => false,
    }
}

/// Whether the value is one of the constants or stands in one of the facts.
fn is_known(constants: &Texts, facts: &[Fact], value: &Text) -> bool
    ensures { IsTrue result ↔ IsKnown constants.now facts.now value.now }
{
    has(constants.as_slice(), value) || is_value_of(facts, value)
}

/// Whether the value stands in one of the facts.
fn is_value_of(facts: &[Fact], value: &Text) -> bool
    ensures { IsTrue result ↔ IsValueOf facts.now value.now }
{
    for fact in facts {
        if has(fact.row.as_slice(), value) {
            return true;
        }
    }
    false
}

/// Whether the value is one of these.
pub fn has<T: Exact>(members: &[T], member: &T) -> bool
    ensures { IsTrue result ↔ Contains members.now member.now }
{
    let mut left = members;
    while let [other, rest @ ..] = left {
        if other.same(member) {
            return true;
        }
        left = rest;
    }
    false
}
