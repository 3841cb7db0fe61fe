// More rules for a part of a schema, by what the facts ask for.
ghost use Rattle.std.specs.Prelude.{◌≡◌, length, IfOk, IfSome};
ghost use Rattle.meaning.specs.Triggers.{IsNumbered};

use crate::asking::asked_labels;
use crate::marks::is_marked;
use crate::matching::{is_narrow, is_wanting};
use crate::reaching::{are_marked, is_some_marked, mark_atoms, reachable};
use access_schema::{Rule, Schema};
use homomorphism::Store;
use lists::NoMemory;
use meaning::types::Queries;
use std::alloc::Global;

/// Which rules are added: those that make an input known; with them those that make facts of relations that are copied; or all that
/// are not met.
#[derive(Clone, Copy, Debug, PartialEq, Eq)]
pub enum Phase {
    Asked,
    Copied,
    Active,
}

/// A mark for each rule that is kept or added; none where no rule is added. The first `opening` facts are the query's.
///
/// `copied` has a mark for each relation whose facts are to be copied. It begins without marks, and gets the relations of the bodies
/// of the rules that are added for them.
pub fn grown(
    alloc: Global,
    schema: &Schema,
    queries: &Queries,
    facts: &Store,
    opening: usize,
    kept: &[bool],
    phase: Phase,
    copied: &mut Vec<bool>,
) -> Result<Option<Vec<bool>>, NoMemory>
    ensures { IfOk result (λ found. IfSome found (λ more. length more.items ≡ length schema.now.rules)) }
{
    if phase != Phase::Asked && copied.is_empty() {
        mark_queries(copied, queries)?;
    }
    let aim = aim_at(alloc, schema, facts, opening, phase, copied.as_slice())?;
    let more = with_more(alloc, schema, facts, kept, &aim, copied.as_slice())?;
    drop(aim);
    if !is_more(kept, more.as_slice()) {
        return Ok(None);
    }
    mark_bodies(copied, schema.rules.as_slice(), kept, more.as_slice())?;
    Ok(Some(more))
}

/// Marks the relations of the queries' atoms.
fn mark_queries(copied: &mut Vec<bool>, queries: &Queries) -> Result<(), NoMemory> {
    for query in queries.as_slice() {
        mark_atoms(copied, query.atoms.as_slice())?;
    }
    Ok(())
}

/// What rules are added for: the labels that are asked for, or any; the relations that facts can come to have; and how many facts
/// each relation has.
#[derive(Drop)]
struct Aim {
    any: bool,
    labels: Vec<bool>,
    reachable: Vec<bool>,
    counts: Vec<usize>,
}

fn aim_at(
    alloc: Global,
    schema: &Schema,
    facts: &Store,
    opening: usize,
    phase: Phase,
    copied: &[bool],
) -> Result<Aim, NoMemory> {
    Ok(Aim {
        any: phase == Phase::Active,
        labels: asked_labels(alloc, schema, facts, opening, copied)?,
        reachable: reachable(alloc, schema.rules.as_slice(), facts)?,
        counts: counted(alloc, facts)?,
    })
}

/// How many facts there are of each relation.
fn counted(alloc: Global, facts: &Store) -> Result<Vec<usize>, NoMemory> {
    let mut counts: Vec<usize> = Vec::new(alloc);
    for number in 0..facts.len() {
        if let Some(fact) = facts.get(number) {
            for _ in counts.len()..=fact.rel as usize {
                counts.push(0)?;
            }
            if let Some(count) = counts.get_mut(fact.rel as usize) {
                *count = count.saturating_add(1);
            }
        }
    }
    Ok(counts)
}

/// A mark for each rule that is kept or added.
fn with_more(
    alloc: Global,
    schema: &Schema,
    facts: &Store,
    kept: &[bool],
    aim: &Aim,
    copied: &[bool],
) -> Result<Vec<bool>, NoMemory>
    ensures { IfOk result (λ more. length more.items ≡ length schema.now.rules) }
{
    let mut more = Vec::new(alloc);
    for (number, rule) in schema.rules.as_slice().iter().enumerate() {
        let mark = is_marked(kept, number) || is_added(alloc, rule, facts, aim, copied)?;
        more.push(mark)?;
    }
    Ok(more)
}

/// Whether the rule makes facts that are copied, or is not met where it counts.
fn is_added(
    alloc: Global,
    rule: &Rule,
    facts: &Store,
    aim: &Aim,
    copied: &[bool],
) -> Result<bool, NoMemory>
    requires { IsNumbered rule.now }
{
    let body = rule.body.as_slice();
    if is_some_marked(copied, rule.head.as_slice()) && are_marked(aim.reachable.as_slice(), body) {
        return Ok(true);
    }
    if !is_narrow(aim.counts.as_slice(), body) {
        return Ok(false);
    }
    let labels = if aim.any {
        None
    } else {
        Some(aim.labels.as_slice())
    };
    is_wanting(alloc, rule, facts, labels)
}

/// Whether a rule is marked that is not kept. Takes no memory.
fn is_more(kept: &[bool], marks: &[bool]) -> bool {
    for (number, mark) in marks.iter().enumerate() {
        if *mark && !is_marked(kept, number) {
            return true;
        }
    }
    false
}

/// Marks the relations in the bodies of the rules that were added and make facts that are copied.
fn mark_bodies(
    copied: &mut Vec<bool>,
    rules: &[Rule],
    kept: &[bool],
    more: &[bool],
) -> Result<(), NoMemory> {
    for (number, rule) in rules.iter().enumerate() {
        let is_new = is_marked(more, number) && !is_marked(kept, number);
        if is_new && is_some_marked(copied.as_slice(), rule.head.as_slice()) {
            mark_atoms(copied, rule.body.as_slice())?;
        }
    }
    Ok(())
}
