// The first rule that an instance does not meet.
ghost use Rattle.std.specs.Prelude.{◌≡◌, ◌↔◌, ℕ, IfOk, IfSome, IsNone, IsTrue, slice_get, Some};
ghost use Rattle.meaning.specs.declared.types.Rule.{Rule as TheRule};
ghost use Rattle.meaning.specs.Matching.{Meets};
ghost use Rattle.access_schema.specs.Meaning.{meaning_of};
ghost use Rattle.data_verify.specs.Breaking.{IsFirstBroken};
ghost use Rattle.data_verify.specs.Finding.{IsRule, IsInclusion, IsOpen, Finds};

use crate::broken::Broken;
use crate::inclusion::{is_inclusion, least_without};
use crate::least::least_unmet;
use access_schema::Schema;
use homomorphism::Store;
use lists::{Copies, NoMemory};
use meaning::types::{Fact, Instance, Rule};
use std::alloc::Global;

/// The first rule of the schema that the instance does not meet, with the least facts that break it. None comes exactly
/// where the instance meets every rule.
pub fn verify(
    alloc: Global,
    schema: &Schema,
    instance: &Instance,
) -> Result<Option<Broken>, NoMemory>
    ensures met { IfOk result (λ found. IsNone found ↔ Meets instance.now (meaning_of schema.now)) }
    ensures broken { IfOk result (λ found. IfSome found (IsFirstBroken instance.now schema.now.rules)) }
{
    let found = first_inclusion(alloc, schema, instance.as_slice())?;
    if !has_open(schema.rules.as_slice(), &found) {
        return Ok(found);
    }
    first_of_all(alloc, schema, instance.copy(alloc)?, found)
}

/// The same of an instance that is used up, which takes half the memory where some rule is no inclusion dependency.
pub fn verify_taken(
    alloc: Global,
    schema: &Schema,
    instance: Instance,
) -> Result<Option<Broken>, NoMemory>
    ensures met { IfOk result (λ found. IsNone found ↔ Meets instance (meaning_of schema.now)) }
    ensures broken { IfOk result (λ found. IfSome found (IsFirstBroken instance schema.now.rules)) }
{
    let found = first_inclusion(alloc, schema, instance.as_slice())?;
    if !has_open(schema.rules.as_slice(), &found) {
        return Ok(found);
    }
    first_of_all(alloc, schema, instance, found)
}

/// The first inclusion dependency that the instance does not meet.
fn first_inclusion(
    alloc: Global,
    schema: &Schema,
    instance: &[Fact],
) -> Result<Option<Broken>, NoMemory>
    ensures { IfOk result (Finds IsInclusion instance.now schema.now.rules) }
{
    for (number, rule) in schema.rules.as_slice().iter().enumerate() {
        if is_inclusion(rule) {
            if let Some(rows) = least_without(alloc, rule, instance)? {
                return Ok(Some(Broken {
                    rule: number as u32,
                    rows,
                }));
            }
        }
    }
    Ok(None)
}

/// Whether some rule is open after the search for an inclusion dependency. Takes no memory.
fn has_open(rules: &[Rule], found: &Option<Broken>) -> bool
    ensures { IsTrue result ↔ ((k : ℕ) × (rule : TheRule) × (slice_get rules.now k ≡ Some rule) × IsOpen found.now k rule) }
{
    for (number, rule) in rules.iter().enumerate() {
        if is_open(rule, number, found) {
            return true;
        }
    }
    false
}

/// Whether the rule with this number is no inclusion dependency, and stands before the one that was found, if one was.
fn is_open(rule: &Rule, number: usize, found: &Option<Broken>) -> bool
    ensures { IsTrue result ↔ IsOpen found.now number rule.now }
{
    match found {
        None => !is_inclusion(rule),
        Some(broken) => !is_inclusion(rule) && number < broken.rule as usize,
    }
}

/// The first rule that the instance, which is used up, does not meet, where this is the first inclusion dependency.
fn first_of_all(
    alloc: Global,
    schema: &Schema,
    instance: Instance,
    found: Option<Broken>,
) -> Result<Option<Broken>, NoMemory>
    requires { Finds IsInclusion instance schema.now.rules found }
    ensures { IfOk result (Finds IsRule instance schema.now.rules) }
{
    match first_open(alloc, schema, instance, &found)? {
        Some(earlier) => Ok(Some(earlier)),
        None => Ok(found),
    }
}

/// The first open rule that the instance, which is used up, does not meet: its facts are put into a store with an index.
fn first_open(
    alloc: Global,
    schema: &Schema,
    instance: Instance,
    found: &Option<Broken>,
) -> Result<Option<Broken>, NoMemory>
    ensures { IfOk result (Finds (IsOpen found.now) instance schema.now.rules) }
{
    let store = Store::for_rules(alloc, instance, schema.rules.as_slice())?;
    for (number, rule) in schema.rules.as_slice().iter().enumerate() {
        if is_open(rule, number, found) {
            if let Some(rows) = least_unmet(alloc, rule, &store)? {
                return Ok(Some(Broken {
                    rule: number as u32,
                    rows,
                }));
            }
        }
    }
    Ok(None)
}
