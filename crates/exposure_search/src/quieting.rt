// What the relations of facts leave possible, and settling the copy where a rule on which a match can rest may fire.
ghost use Rattle.std.specs.Prelude.{◌≡◌, ◌≤◌, ◌⊎◌, max, length, slice_get, Contains, Ok, Some, true, false};
ghost use Rattle.meaning.specs.declared.types.Atom.{Atom as TheAtom};
ghost use Rattle.meaning.specs.declared.types.Rule.{Rule as TheRule};
ghost use Rattle.meaning.specs.Runs.{copy_state};
ghost use Rattle.meaning.specs.Triggers.{IsQuiet};
ghost use Rattle.access_schema.specs.Meaning.{meaning_of};
ghost use Rattle.rule_pass.specs.States.{SomeActive};
ghost use Rattle.rule_pass.specs.declared.pass.TheConstants.{MOST_FIRINGS};
ghost use Rattle.accessible_copy.specs.declared.settling.Round.TheVariants.{Quiet, Done, Spent};
ghost use Rattle.accessible_copy.specs.Proving.{IsProofOf};
ghost use Rattle.accessible_copy.specs.Settling.{Settles};
ghost use Rattle.exposure_search.specs.Making.{OnlyExposes, IsMissing, fact_at};
ghost use Rattle.exposure_search.specs.Ahead.{CannotMatch, CannotFire, facts_along};

use access_schema::Schema;
use accessible_copy::{Proof, Round, settle};
use least_search::Move;
use lists::NoMemory;
use meaning::types::{Atom, Ground, Query, Rule};
use std::alloc::Global;

/// Makes copy firings, while the log has fewer than `budget`. Where no rule on which a match can rest `fires`, nothing is tried.
pub(crate) fn settle_copy(
    alloc: Global,
    proof: &mut Proof,
    schema: &Schema,
    fires: bool,
    budget: u32,
) -> Result<Round, NoMemory>
    requires exposes { OnlyExposes (meaning_of schema.now) proof.old }
    requires budget { budget ≤ MOST_FIRINGS }
    ensures run { IsProofOf (meaning_of schema.now) proof.new }
    ensures more { Settles (meaning_of schema.now) true proof.old proof.new }
    ensures budget { length proof.new.entries ≤ max (length proof.old.entries) budget }
    ensures still { result ≡ Ok Quiet → IsQuiet schema.now.rules (copy_state proof.new.end) ⊎ ((fires ≡ false) × (proof.new ≡ proof.old)) }
    ensures spent { result ≡ Ok Spent → (budget ≤ length proof.new.entries) × SomeActive schema.now.rules (copy_state proof.new.end) }
    ensures going { result ≡ Ok Done → ⊥ }
{
    if !fires {
        return Ok(Round::Quiet);
    }
    settle(alloc, proof, schema, true, budget)
}

/// Whether the facts of the path have one of each relation of the body of some rule with one of these numbers. `facts` are the base
/// facts.
pub(crate) fn may_fire(rules: &[Rule], numbers: &[usize], facts: &[Ground], path: &[Move]) -> bool
    ensures { result ≡ false → CannotFire rules.now numbers.now (facts_along facts.now path.now) }
{
    for &number in numbers {
        if can_fire(rules, number, facts, path) {
            return true;
        }
    }
    false
}

/// Whether the facts of the path have one of each relation of the rule's body.
fn can_fire(rules: &[Rule], number: usize, facts: &[Ground], path: &[Move]) -> bool
    ensures { result ≡ false → (rule : TheRule) → slice_get rules.now number ≡ Some rule →
        (atom : TheAtom) × Contains rule.body atom × IsMissing (facts_along facts.now path.now) atom.rel }
{
    match rules.get(number) {
        Some(rule) => !lacks_some(rule.body.as_slice(), facts, path),
        None => false,
    }
}

/// Whether the facts of the path have one of each relation of some query's atoms. `facts` are the base facts.
pub(crate) fn may_match(queries: &[Query], facts: &[Ground], path: &[Move]) -> bool
    ensures { result ≡ false → CannotMatch queries.now (facts_along facts.now path.now) }
{
    for query in queries {
        if !lacks_some(query.atoms.as_slice(), facts, path) {
            return true;
        }
    }
    false
}

/// Whether the path has no fact of the relation of one of the atoms.
fn lacks_some(atoms: &[Atom], facts: &[Ground], path: &[Move]) -> bool
    ensures { result ≡ true → (atom : TheAtom) × Contains atoms.now atom × IsMissing (facts_along facts.now path.now) atom.rel }
{
    for atom in atoms {
        if lacks(atom.rel, facts, path) {
            return true;
        }
    }
    false
}

/// Whether the path has no fact of the relation.
fn lacks(rel: u32, facts: &[Ground], path: &[Move]) -> bool
    ensures { result ≡ true → IsMissing (facts_along facts.now path.now) rel }
{
    for step in path {
        if may_have(rel, facts, step.fact) {
            return false;
        }
    }
    true
}

/// Whether the fact with this number is one of the relation, or there is none.
fn may_have(rel: u32, facts: &[Ground], number: usize) -> bool
    ensures { result ≡ false → (fact_at facts.now number).rel ≡ rel → ⊥ }
{
    match facts.get(number) {
        Some(fact) => fact.rel == rel,
        None => true,
    }
}
