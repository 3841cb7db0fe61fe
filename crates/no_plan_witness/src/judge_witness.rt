// Whether a pair refutes every plan.
ghost use Rattle.std.specs.Prelude.{◌≡◌, ◌↔◌, IfOk, IfErr, IfSome, IfNone, OnOk, IsTrue, Contains};
ghost use Rattle.std.specs.List.{All};
ghost use Rattle.meaning.specs.Instances.{IsInstance};
ghost use Rattle.meaning.specs.Matching.{Meets};
ghost use Rattle.meaning.specs.Answers.{Answers};
ghost use Rattle.access_schema.specs.Meaning.{meaning_of};
ghost use Rattle.integer_laws.specs.Sorted.{AreSortedFacts};
ghost use Rattle.sql_conjunctive.specs.Rows.{FitsWithFew};
ghost use Rattle.no_plan_witness.specs.Judging.{known_of, IsFirstUnmet, IsIncluded, IsFirstMissing, IsFault};
ghost use Rattle.integer_laws.specs.Claimed.{RefutesSorted};

use crate::accessible::{accessible_part, has};
use crate::fault::{Which, WitnessFault};
use access_schema::Schema;
use data_verify::verify;
use findings::Witness;
use lists::{Copies, NoMemory, Row, Texts};
use meaning::types::{Fact, Instance, Statement};
use sql_conjunctive::answers;
use sql_select::known;
use std::alloc::Global;

/// Whether the pair refutes every plan for the statement: `Ok` exactly where it does, and otherwise the first fault.
///
/// Faults are looked for in the order of `WitnessFault`, the first instance before the second, and rules in the order of their numbers.
/// The known constants are those of the schema and of the statement.
pub fn check_witness(
    alloc: Global,
    schema: &Schema,
    statement: &Statement,
    pair: &Witness,
) -> Result<(), WitnessFault>
    requires statement { All (FitsWithFew (meaning_of schema.now)) statement.now.selects }
    requires first { IsInstance (meaning_of schema.now) pair.now.first }
    requires second { IsInstance (meaning_of schema.now) pair.now.second }
    requires first_sorted { AreSortedFacts (meaning_of schema.now) pair.now.first }
    requires second_sorted { AreSortedFacts (meaning_of schema.now) pair.now.second }
    ensures ok { OnOk result (RefutesSorted (meaning_of schema.now) (known_of schema.now statement.now) statement.now pair.now.first pair.now.second pair.now.answer) }
    ensures fault { IfErr result (IsFault (meaning_of schema.now) (known_of schema.now statement.now) statement.now pair.now) }
{
    if let Some(rule) = first_unmet(alloc, schema, &pair.first)? {
        return Err(WitnessFault::RuleBroken {
            rule,
            which: Which::First,
        });
    }
    if let Some(rule) = first_unmet(alloc, schema, &pair.second)? {
        return Err(WitnessFault::RuleBroken {
            rule,
            which: Which::Second,
        });
    }
    let constants = known(alloc, schema, statement)?;
    if let Some(fact) = first_missing(alloc, schema, &constants, pair)? {
        return Err(WitnessFault::NotIncluded { fact });
    }
    if !is_answer(alloc, schema, statement, &pair.first, &pair.answer)? {
        return Err(WitnessFault::NotAnswered);
    }
    if is_answer(alloc, schema, statement, &pair.second, &pair.answer)? {
        return Err(WitnessFault::StillAnswered);
    }
    Ok(())
}

/// The number of the first rule that the facts do not meet.
fn first_unmet(alloc: Global, schema: &Schema, facts: &Instance) -> Result<Option<u32>, NoMemory>
    ensures some { IfOk result (λ found. IfSome found (IsFirstUnmet (meaning_of schema.now) facts.now)) }
    ensures none { IfOk result (λ found. IfNone found (Meets facts.now (meaning_of schema.now))) }
{
    match verify(alloc, schema, facts)? {
        Some(broken) => Ok(Some(broken.rule)),
        None => Ok(None),
    }
}

/// The first fact that is accessible of the first instance and not of the second.
fn first_missing(
    alloc: Global,
    schema: &Schema,
    constants: &Texts,
    pair: &Witness,
) -> Result<Option<Fact>, NoMemory>
    ensures some { IfOk result (λ found. IfSome found (IsFirstMissing (meaning_of schema.now) constants.now pair.now.first pair.now.second)) }
    ensures none { IfOk result (λ found. IfNone found (IsIncluded (meaning_of schema.now) constants.now pair.now.first pair.now.second)) }
{
    let first = accessible_part(alloc, schema, constants, &pair.first)?;
    let second = accessible_part(alloc, schema, constants, &pair.second)?;
    for fact in pair.first.as_slice() {
        if has(first.as_slice(), fact) && !has(second.as_slice(), fact) {
            return Ok(Some(fact.copy(alloc)?));
        }
    }
    Ok(None)
}

/// Whether the row is an answer of the statement.
fn is_answer(
    alloc: Global,
    schema: &Schema,
    statement: &Statement,
    facts: &Instance,
    row: &Row,
) -> Result<bool, NoMemory>
    requires statement { All (FitsWithFew (meaning_of schema.now)) statement.now.selects }
    requires facts { IsInstance (meaning_of schema.now) facts.now }
    ensures { IfOk result (λ is. IsTrue is ↔ Answers statement.now facts.now row.now) }
{
    let rows = answers(alloc, statement, schema, facts)?;
    Ok(has(rows.as_slice(), row))
}
