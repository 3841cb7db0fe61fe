// The relations on which a match can rest, beside the facts of its atoms, and the rules that can make what it rests on.
ghost use Rattle.std.specs.Prelude.{◌≡◌, ◌<◌, ℕ, Contains, IfOk, OnOk, Ok, length, true, false};
ghost use Rattle.meaning.specs.declared.types.Atom.{Atom as TheAtom};
ghost use Rattle.meaning.specs.declared.types.Ground.{Ground as TheGround};
ghost use Rattle.meaning.specs.declared.types.Query.{Query as TheQuery};
ghost use Rattle.accessible_copy.specs.Goals.{IsCounted};
ghost use Rattle.exposure_search.specs.Tries.{IsMarked};
ghost use Rattle.exposure_search.specs.Relevance.{Keeps, AllMarked, BodiesMarked, MakersMarked, AreFed, IsMade, IsImageOf, IsImageAmong, IsWanted, Makes};

use crate::images::head_bindings;
use crate::makers::serves_some;
use crate::marks::is_marked;
use lists::NoMemory;
use meaning::types::{Atom, Query, Rule, Val, Vals};
use std::alloc::Global;

/// A mark for each relation in the body of a rule that can make a fact of a query's atom, under these head values and with labels
/// from `next` on, or that has a marked relation in its head.
pub(crate) fn wanted_relations(
    alloc: Global,
    rules: &[Rule],
    next: u32,
    queries: &[Query],
    head: &Vals,
) -> Result<Vec<bool>, NoMemory>
    requires { (query : TheQuery) → Contains queries.now query → IsCounted query }
    ensures served { IfOk result (λ marks. BodiesMarked rules.now next (IsImageAmong queries.now head.now) marks.items) }
    ensures fed { IfOk result (λ marks. AreFed rules.now marks.items) }
{
    let mut marks = serving_relations(alloc, rules, next, queries, head)?;
    mark_bodies(&mut marks, rules)?;
    Ok(marks)
}

/// A mark for each relation in the body of a rule that can make a fact of a query's atom.
fn serving_relations(
    alloc: Global,
    rules: &[Rule],
    next: u32,
    queries: &[Query],
    head: &Vals,
) -> Result<Vec<bool>, NoMemory>
    requires { (query : TheQuery) → Contains queries.now query → IsCounted query }
    ensures { IfOk result (λ marks. BodiesMarked rules.now next (IsImageAmong queries.now head.now) marks.items) }
{
    let mut marks = Vec::new(alloc);
    for query in queries {
        mark_query(alloc, &mut marks, rules, next, query, head)?;
    }
    Ok(marks)
}

/// Marks the relations in the bodies of the rules that can make a fact of one of the query's atoms.
fn mark_query(
    alloc: Global,
    marks: &mut Vec<bool>,
    rules: &[Rule],
    next: u32,
    query: &Query,
    head: &Vals,
) -> Result<(), NoMemory>
    requires { IsCounted query.now }
    ensures stays { OnOk result (Keeps marks.old.items marks.new.items) }
    ensures served { OnOk result (BodiesMarked rules.now next (IsImageOf query.now head.now) marks.new.items) }
{
    match head_bindings(alloc, query, head)? {
        Some(given) => mark_servers(marks, rules, next, given.as_slice(), query.atoms.as_slice()),
        None => Ok(()),
    }
}

/// Marks the relations in the bodies of the rules that can make a fact of one of the atoms.
fn mark_servers(
    marks: &mut Vec<bool>,
    rules: &[Rule],
    next: u32,
    given: &[Option<Val>],
    atoms: &[Atom],
) -> Result<(), NoMemory>
    ensures stays { OnOk result (Keeps marks.old.items marks.new.items) }
    ensures served { OnOk result (BodiesMarked rules.now next (IsMade given.now atoms.now) marks.new.items) }
{
    for rule in rules {
        if serves_some(given, next, rule, atoms) {
            mark_all(marks, rule.body.as_slice())?;
        }
    }
    Ok(())
}

/// A mark for each rule that can make a fact of a query's atom, under these head values and with labels from `next` on, or that has
/// a wanted relation in its head.
pub(crate) fn making_rules(
    alloc: Global,
    rules: &[Rule],
    next: u32,
    queries: &[Query],
    head: &Vals,
    wanted: &[bool],
) -> Result<Vec<bool>, NoMemory>
    requires { (query : TheQuery) → Contains queries.now query → IsCounted query }
    ensures { IfOk result (λ makers. MakersMarked rules.now next (IsWanted queries.now head.now wanted.now) makers.items) }
{
    let mut makers = Vec::new(alloc);
    for rule in rules {
        let makes = makes_wanted(alloc, rule, next, queries, head, wanted)?;
        makers.push(makes)?;
    }
    Ok(makers)
}

/// Whether the rule can make a fact of a query's atom, or has a wanted relation in its head.
fn makes_wanted(
    alloc: Global,
    rule: &Rule,
    next: u32,
    queries: &[Query],
    head: &Vals,
    wanted: &[bool],
) -> Result<bool, NoMemory>
    requires { (query : TheQuery) → Contains queries.now query → IsCounted query }
    ensures { result ≡ Ok false → (fact : TheGround) → Makes next rule.now fact → IsWanted queries.now head.now wanted.now fact → ⊥ }
{
    if has_marked(wanted, rule.head.as_slice()) {
        return Ok(true);
    }
    makes_image(alloc, rule, next, queries, head)
}

/// Whether the rule can make a fact of a query's atom.
fn makes_image(
    alloc: Global,
    rule: &Rule,
    next: u32,
    queries: &[Query],
    head: &Vals,
) -> Result<bool, NoMemory>
    requires { (query : TheQuery) → Contains queries.now query → IsCounted query }
    ensures { result ≡ Ok false → (fact : TheGround) → Makes next rule.now fact → IsImageAmong queries.now head.now fact → ⊥ }
{
    for query in queries {
        if makes_image_of(alloc, rule, next, query, head)? {
            return Ok(true);
        }
    }
    Ok(false)
}

/// Whether the rule can make a fact of one of the query's atoms.
fn makes_image_of(
    alloc: Global,
    rule: &Rule,
    next: u32,
    query: &Query,
    head: &Vals,
) -> Result<bool, NoMemory>
    requires { IsCounted query.now }
    ensures { result ≡ Ok false → (fact : TheGround) → Makes next rule.now fact → IsImageOf query.now head.now fact → ⊥ }
{
    match head_bindings(alloc, query, head)? {
        Some(given) => Ok(serves_some(given.as_slice(), next, rule, query.atoms.as_slice())),
        None => Ok(false),
    }
}

/// Marks the relations of the bodies of all rules that have a marked relation in the head, until there are no more.
fn mark_bodies(marks: &mut Vec<bool>, rules: &[Rule]) -> Result<(), NoMemory>
    ensures stays { OnOk result (Keeps marks.old.items marks.new.items) }
    ensures closed { OnOk result (AreFed rules.now marks.new.items) }
{
    for _ in 0..usize::MAX {
        if !mark_round(marks, rules)? {
            return Ok(());
        }
    }
    // each round but the last sets a mark more, and memory has no room for so many
    Err(NoMemory)
}

/// Marks the relations of the body of each rule that has a marked relation in its head. Whether a mark was set.
fn mark_round(marks: &mut Vec<bool>, rules: &[Rule]) -> Result<bool, NoMemory>
    ensures stays { OnOk result (Keeps marks.old.items marks.new.items) }
    ensures closed { result ≡ Ok false → AreFed rules.now marks.new.items }
{
    let mut grew = false;
    for rule in rules {
        if has_marked(marks.as_slice(), rule.head.as_slice())
            && mark_all(marks, rule.body.as_slice())?
        {
            grew = true;
        }
    }
    Ok(grew)
}

/// Whether the relation of one of the atoms is marked. Takes no memory.
fn has_marked(marks: &[bool], atoms: &[Atom]) -> bool
    ensures { result ≡ false → (atom : TheAtom) → Contains atoms.now atom → IsMarked marks.now atom.rel → ⊥ }
{
    for atom in atoms {
        if is_marked(marks, atom.rel as usize) {
            return true;
        }
    }
    false
}

/// Marks the relations of the atoms. Whether a mark was set.
fn mark_all(marks: &mut Vec<bool>, atoms: &[Atom]) -> Result<bool, NoMemory>
    ensures stays { OnOk result (Keeps marks.old.items marks.new.items) }
    ensures all { OnOk result (AllMarked marks.new.items atoms.now) }
    ensures none { result ≡ Ok false → marks.new.items ≡ marks.old.items }
{
    let mut grew = false;
    for atom in atoms {
        if mark_one(marks, atom.rel)? {
            grew = true;
        }
    }
    Ok(grew)
}

/// Marks the relation. Whether a mark was set.
fn mark_one(marks: &mut Vec<bool>, rel: u32) -> Result<bool, NoMemory>
    ensures stays { OnOk result (Keeps marks.old.items marks.new.items) }
    ensures there { OnOk result (IsMarked marks.new.items rel) }
    ensures none { result ≡ Ok false → marks.new.items ≡ marks.old.items }
{
    if is_marked(marks.as_slice(), rel as usize) {
        return Ok(false);
    }
    lengthen(marks, rel as usize)?;
    marks[rel as usize] = true;
    Ok(true)
}

/// Makes the list longer by marks that are not set, until it has the number.
fn lengthen(marks: &mut Vec<bool>, number: usize) -> Result<(), NoMemory>
    ensures stays { Keeps marks.old.items marks.new.items }
    ensures long { OnOk result (number < length marks.new.items) }
{
    while marks.len() <= number {
        marks.push(false)?;
    }
    Ok(())
}
