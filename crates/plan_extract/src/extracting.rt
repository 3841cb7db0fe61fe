// The branch of a proof in which a query has a match.
ghost use Rattle.std.specs.Prelude.{◌≡◌, ◌≤◌, ℕ, List, IfOk, Some, Contains, length, slice_get};
ghost use Rattle.meaning.specs.declared.types.Query.{Query};
ghost use Rattle.meaning.specs.declared.types.Ground.{Ground as TheGround};
ghost use Rattle.meaning.specs.Fitting.{QueryFits};
ghost use Rattle.access_schema.specs.Meaning.{meaning_of};
ghost use Rattle.rule_pass.specs.declared.pass.TheConstants.{MOST_FIRINGS};
ghost use Rattle.accessible_copy.specs.Goals.{IsGoal};
ghost use Rattle.accessible_copy.specs.Proving.{IsProofOf};
ghost use Rattle.plan_extract.specs.Branches.{IsBranchFor, IsProofFor};
ghost use Rattle.plan_extract.specs.Lent.{exposures_of};
ghost use Rattle.plan_extract.specs.Trimmed.{IsTrimmedBranch};
ghost use Rattle.plan_extract.specs.Arranged.{IsArrangedBranch};
ghost use Rattle.plan_extract.specs.Passes.{AreKept, IsReadOff, IsReadArranged};

use crate::branch::read_off;
use crate::exposures::Exposure;
use crate::marking::{marked, picked};
use crate::matched::facts_at;
use crate::ranking::arranged;
use crate::showing::shown;
use crate::wanting::wanted_facts;
use access_schema::Schema;
use accessible_copy::{Match, Proof};
use lists::NoMemory;
use meaning::types::{Branch, Ground, Queries, Vals};
use std::alloc::Global;

/// The branch of a proof of a query, with the frozen head, in whose copy facts one of the queries has this match.
///
/// The branch is lawful. On every instance that meets the rules, its rows are answers of the matched query, and each answer of the
/// proof's query is one of them. It has one step for each exposure that is kept, in order: those on which the match rests, by the
/// copy firings that made its facts and by the inputs of their methods. From these alone firings lead to the same match, and they
/// cost at most what all exposures of the proof cost.
pub fn extract(
    alloc: Global,
    proof: &Proof,
    schema: &Schema,
    queries: &Queries,
    head: &Vals,
    found: &Match,
) -> Result<Branch, NoMemory>
    requires proof { (query : Query) × IsProofFor (meaning_of schema.now) proof.now head.now query }
    requires few { length proof.now.entries ≤ MOST_FIRINGS }
    requires known { (c : List ℕ) → Contains schema.now.constants c → Contains proof.now.constants c }
    requires fits { (goal : Query) → Contains queries.now goal → QueryFits (meaning_of schema.now) goal }
    requires found { IsGoal queries.now proof.now.end.copy head.now found.now.select found.now.assignment.vals }
    ensures branch { IfOk result (λ branch. (query goal : Query) → IsProofFor (meaning_of schema.now) proof.now head.now query →
        slice_get queries.now found.now.select ≡ Some goal →
        IsBranchFor (meaning_of schema.now) proof.now.constants query goal branch) }
    ensures trimmed { IfOk result (IsTrimmedBranch (meaning_of schema.now) proof.now queries.now head.now found.now.select found.now.assignment.vals) }
    ensures few { IfOk result (λ branch. length branch.steps ≤ length proof.now.entries) }
{
    let query = &queries.as_slice()[found.select as usize];
    let values = found.assignment.vals.as_slice();
    let atoms = facts_at(alloc, query.atoms.as_slice(), values)?;
    read_kept(alloc, proof, schema, head, atoms)
}

/// The same, with the steps in an order in which few rows are expected to come together.
///
/// What is expected is an estimate from the schema and the proof alone. It picks one of the orders in which all inputs are known, so
/// nothing else depends on it: the accesses, the rows and the cost are those of `extract`.
pub fn extract_arranged(
    alloc: Global,
    proof: &Proof,
    schema: &Schema,
    queries: &Queries,
    head: &Vals,
    found: &Match,
) -> Result<Branch, NoMemory>
    requires proof { (query : Query) × IsProofFor (meaning_of schema.now) proof.now head.now query }
    requires few { length proof.now.entries ≤ MOST_FIRINGS }
    requires known { (c : List ℕ) → Contains schema.now.constants c → Contains proof.now.constants c }
    requires fits { (goal : Query) → Contains queries.now goal → QueryFits (meaning_of schema.now) goal }
    requires found { IsGoal queries.now proof.now.end.copy head.now found.now.select found.now.assignment.vals }
    ensures branch { IfOk result (λ branch. (query goal : Query) → IsProofFor (meaning_of schema.now) proof.now head.now query →
        slice_get queries.now found.now.select ≡ Some goal →
        IsBranchFor (meaning_of schema.now) proof.now.constants query goal branch) }
    ensures arranged { IfOk result (IsArrangedBranch (meaning_of schema.now) proof.now queries.now head.now found.now.select found.now.assignment.vals) }
    ensures few { IfOk result (λ branch. length branch.steps ≤ length proof.now.entries) }
{
    let query = &queries.as_slice()[found.select as usize];
    let values = found.assignment.vals.as_slice();
    let atoms = facts_at(alloc, query.atoms.as_slice(), values)?;
    read_arranged(alloc, proof, schema, head, atoms)
}

/// The branch of the exposures of a proof on which these copy facts rest.
fn read_kept(
    alloc: Global,
    proof: &Proof,
    schema: &Schema,
    head: &Vals,
    atoms: Vec<Ground>,
) -> Result<Branch, NoMemory>
    requires proof { (query : Query) × IsProofFor (meaning_of schema.now) proof.now head.now query }
    requires few { length proof.now.entries ≤ MOST_FIRINGS }
    requires known { (c : List ℕ) → Contains schema.now.constants c → Contains proof.now.constants c }
    requires there { (fact : TheGround) → Contains atoms.items fact → Contains proof.now.end.copy fact }
    ensures { IfOk result (IsReadOff (meaning_of schema.now) proof.now atoms.items head.now) }
{
    let kept = kept(alloc, proof, schema, atoms)?;
    read_off(alloc, kept.as_slice(), head.as_slice())
}

/// The same, with the exposures in an order in which few rows are expected to come together.
fn read_arranged(
    alloc: Global,
    proof: &Proof,
    schema: &Schema,
    head: &Vals,
    atoms: Vec<Ground>,
) -> Result<Branch, NoMemory>
    requires proof { (query : Query) × IsProofFor (meaning_of schema.now) proof.now head.now query }
    requires few { length proof.now.entries ≤ MOST_FIRINGS }
    requires known { (c : List ℕ) → Contains schema.now.constants c → Contains proof.now.constants c }
    requires there { (fact : TheGround) → Contains atoms.items fact → Contains proof.now.end.copy fact }
    ensures { IfOk result (IsReadArranged (meaning_of schema.now) proof.now atoms.items head.now) }
{
    let kept = kept(alloc, proof, schema, atoms)?;
    let list = arranged(alloc, kept, head.as_slice())?;
    read_off(alloc, list.as_slice(), head.as_slice())
}

/// The exposures of a proof on which these copy facts rest, in the proof's order.
fn kept<'a>(
    alloc: Global,
    proof: &'a Proof,
    schema: &'a Schema,
    atoms: Vec<Ground>,
) -> Result<Vec<Exposure<'a>>, NoMemory>
    requires run { IsProofOf (meaning_of schema.now) proof.now }
    requires there { (fact : TheGround) → Contains atoms.items fact → Contains proof.now.end.copy fact }
    ensures { IfOk result (λ kept. AreKept (meaning_of schema.now) proof.now atoms.items (exposures_of kept.items)) }
{
    let wanted = wanted_facts(alloc, schema, proof, atoms)?;
    let shown = shown(alloc, schema, proof)?;
    let marks = marked(alloc, shown.as_slice(), &wanted)?;
    picked(alloc, shown.as_slice(), marks.as_slice())
}
