// The relations that a plan accesses, and whether the lane has their sources.
ghost use Rattle.std.specs.Prelude.{◌≡◌, ◌↔◌, ◌⊎◌, ℕ, Contains, IfOk, OnOk};
ghost use Rattle.std.specs.List.Sorted.{IsStrictlyIncreasing};
ghost use Rattle.source_trait.specs.Lanes.{names_of};
ghost use Rattle.middleware.specs.PlanSources.{IsAccessed, line_for};
ghost use Rattle.middleware.specs.Sources.{StepAccesses, StepsAccess, first_lineless, has_place};

use crate::lookup::{find_line, find_method};
use access_schema::{Schema, SourceLine};
use meaning::types::{Plan, Step};
use source_trait::Lane;
use std::alloc::{AllocError, Global};

/// The relations that the plan's steps access, ascending, each once.
pub fn accessed(alloc: Global, schema: &Schema, plan: &Plan) -> Result<Vec<u32>, AllocError>
    ensures ascends { IfOk result (λ rels. IsStrictlyIncreasing rels.items) }
    ensures exactly { IfOk result (λ rels. (rel : ℕ) → Contains rels.items rel ↔ IsAccessed schema.now plan.now rel) }
{
    let mut rels = Vec::new(alloc);
    for branch in plan.branches.as_slice() {
        add_relations(schema, branch.steps.as_slice(), &mut rels)?;
    }
    rels.sort_unstable();
    rels.dedup();
    Ok(rels)
}

fn add_relations(schema: &Schema, steps: &[Step], into: &mut Vec<u32>) -> Result<(), AllocError>
    ensures { OnOk result ((rel : ℕ) → Contains into.new.items rel ↔ (Contains into.old.items rel ⊎ StepsAccess schema.now steps.now rel)) }
{
    for step in steps {
        add_relation(schema, step, into)?;
    }
    Ok(())
}

fn add_relation(schema: &Schema, step: &Step, into: &mut Vec<u32>) -> Result<(), AllocError>
    ensures { OnOk result ((rel : ℕ) → Contains into.new.items rel ↔ (Contains into.old.items rel ⊎ StepAccesses schema.now step.now rel)) }
{
    match find_method(schema, &step.method) {
        Some(method) => {
            into.push(method.rel)?;
            Ok(())
        }
        None => Ok(()),
    }
}

/// The first of the relations without a source line.
pub fn first_lineless(lines: &[SourceLine], rels: &[u32]) -> Option<u32>
    ensures { result ≡ first_lineless lines.now rels.now }
{
    let mut left = rels;
    while let [rel, rest @ ..] = left {
        if find_line(lines, *rel).is_none() {
            return Some(*rel);
        }
        left = rest;
    }
    None
}

/// Whether the lane has a source of the kind of the relation's source line.
pub fn has_source<S>(lane: &Lane<S>, lines: &[SourceLine], rel: u32) -> bool
    ensures { result ≡ has_place (names_of lane.now.kinds.items) (line_for rel lines.now) }
{
    match find_line(lines, rel) {
        Some(line) => lane.has_kind(&line.kind),
        None => false,
    }
}
