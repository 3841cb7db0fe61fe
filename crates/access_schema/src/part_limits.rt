// The limits that a part passes.
ghost use Rattle.std.specs.Prelude.{◌≡◌, ◌++◌, ◌∷◌, [], length, not, nat_lt, filter, IfOk, IsTrue};
ghost use Rattle.access_schema.specs.Lists.{once_after};
ghost use Rattle.access_schema.specs.Content.{variables_of, part_constants};
ghost use Rattle.access_schema.specs.Faults.{is_relation, is_method, is_rule, is_outside, has_many_constants, relation_limit, method_limit, rule_limit, key_limit, passed_limit};

use crate::collect::{Wanted, add_rule};
use crate::fault::Limit;
use crate::limits::{
    MOST_BODY_ATOMS, MOST_COLUMNS, MOST_CONSTANTS, MOST_COST, MOST_HEAD_ATOMS, MOST_METHODS,
    MOST_RELATIONS, MOST_RULES, MOST_VARIABLES,
};
use crate::names::add_once;
use crate::part::{NamedAtom, Part};
use crate::part_faults::{is_method, is_relation, is_rule};
use lists::Text;
use std::alloc::{AllocError, Global};

fn count_relations(parts: &[Part]) -> usize
    ensures { result ≡ length (filter is_relation parts.now) }
{
    let mut count = 0;
    let mut left = parts;
    while let [part, rest @ ..] = left {
        if is_relation(part) {
            count += 1;
        }
        left = rest;
    }
    count
}

fn count_methods(parts: &[Part]) -> usize
    ensures { result ≡ length (filter is_method parts.now) }
{
    let mut count = 0;
    let mut left = parts;
    while let [part, rest @ ..] = left {
        if is_method(part) {
            count += 1;
        }
        left = rest;
    }
    count
}

fn count_rules(parts: &[Part]) -> usize
    ensures { result ≡ length (filter is_rule parts.now) }
{
    let mut count = 0;
    let mut left = parts;
    while let [part, rest @ ..] = left {
        if is_rule(part) {
            count += 1;
        }
        left = rest;
    }
    count
}

fn is_outside(most: usize, count: usize) -> bool
    ensures { result ≡ is_outside most count }
{
    count == 0 || most < count
}

fn has_many_variables(
    alloc: Global,
    body: &[NamedAtom],
    head: &[NamedAtom],
) -> Result<bool, AllocError>
    ensures { IfOk result (λ many. many ≡ nat_lt MOST_VARIABLES (length (variables_of (body.now ++ head.now)))) }
{
    let mut known = Vec::new(alloc);
    let fits = add_rule(
        alloc,
        &mut known,
        Wanted::Variables,
        MOST_VARIABLES,
        body,
        head,
    )?;
    Ok(!fits)
}

/// Adds the constants of the part to the known ones, and says whether these are still within the limit.
pub fn add_constants(alloc: Global, known: &mut Vec<Text>, part: &Part) -> Result<bool, AllocError>
    ensures fits { IfOk result (λ fits. fits ≡ not (nat_lt MOST_CONSTANTS (length (once_after known.old.items (part_constants part.now))))) }
    ensures texts { IfOk result (λ fits. IsTrue fits → known.new.items ≡ once_after known.old.items (part_constants part.now)) }
{
    match part {
        Part::Constant { text } => {
            add_once(alloc, known, text)?;
            Ok(known.len() <= MOST_CONSTANTS)
        }
        Part::Rule { body, head, .. } => {
            let fits = add_rule(
                alloc,
                known,
                Wanted::Constants,
                MOST_CONSTANTS,
                body.as_slice(),
                head.as_slice(),
            )?;
            Ok(fits)
        }
        _ => Ok(known.len() <= MOST_CONSTANTS),
    }
}

fn rule_limit(
    alloc: Global,
    earlier: &[Part],
    body: &[NamedAtom],
    head: &[NamedAtom],
    many_constants: bool,
) -> Result<Option<Limit>, AllocError>
    ensures { IfOk result (λ limit. limit ≡ rule_limit earlier.now body.now head.now many_constants) }
{
    if MOST_RULES <= count_rules(earlier) {
        return Ok(Some(Limit::Rules));
    }
    if is_outside(MOST_BODY_ATOMS, body.len()) {
        return Ok(Some(Limit::BodyAtoms));
    }
    if is_outside(MOST_HEAD_ATOMS, head.len()) {
        return Ok(Some(Limit::HeadAtoms));
    }
    if has_many_variables(alloc, body, head)? {
        return Ok(Some(Limit::Variables));
    }
    if many_constants {
        return Ok(Some(Limit::Constants));
    }
    Ok(None)
}

/// The first limit that the part passes after the earlier ones, given whether the constants pass theirs.
pub fn passed_limit(
    alloc: Global,
    earlier: &[Part],
    part: &Part,
    many_constants: bool,
) -> Result<Option<Limit>, AllocError>
    requires { many_constants ≡ has_many_constants earlier.now part.now }
    ensures { IfOk result (λ limit. limit ≡ passed_limit earlier.now part.now) }
{
    match part {
        Part::Relation { columns, .. } => Ok(relation_limit(earlier, columns.len())),
        Part::Method { cost, .. } => Ok(method_limit(earlier, *cost)),
        Part::Rule { body, head, .. } => rule_limit(
            alloc,
            earlier,
            body.as_slice(),
            head.as_slice(),
            many_constants,
        ),
        Part::ForeignKey { .. } => Ok(key_limit(earlier)),
        Part::Constant { .. } => Ok(if many_constants {
            Some(Limit::Constants)
        } else {
            None
        }),
        Part::Source { .. } => Ok(None),
    }
}

fn relation_limit(earlier: &[Part], columns: usize) -> Option<Limit>
    ensures { result ≡ relation_limit earlier.now columns }
{
    if MOST_RELATIONS <= count_relations(earlier) {
        return Some(Limit::Relations);
    }
    if is_outside(MOST_COLUMNS, columns) {
        return Some(Limit::Columns);
    }
    None
}

fn method_limit(earlier: &[Part], cost: u64) -> Option<Limit>
    ensures { result ≡ method_limit earlier.now cost }
{
    if MOST_METHODS <= count_methods(earlier) {
        return Some(Limit::Methods);
    }
    if cost > MOST_COST as u64 {
        return Some(Limit::Cost);
    }
    None
}

fn key_limit(earlier: &[Part]) -> Option<Limit>
    ensures { result ≡ key_limit earlier.now }
{
    if MOST_RULES <= count_rules(earlier) {
        Some(Limit::Rules)
    } else {
        None
    }
}
