// The relations that lanes need, attached, and the rules tested on the rows of the first lane.
ghost use Rattle.std.specs.Prelude.{◌≡◌, [], ℕ, Contains, IsSome, slice_get};
ghost use Rattle.std.specs.List.Sorted.{IsStrictlyIncreasing};
ghost use Rattle.source_trait.specs.Lanes.{LanesStay};
ghost use Rattle.middleware.specs.Needs.{needed};
ghost use Rattle.rule_rows.specs.RuleRelations.{RulesName, needed_first};
ghost use Rattle.rule_rows.specs.Asking.{IsReady};
ghost use Rattle.rule_rows.specs.Verifying.{Tests, Verifies, used, others};

use crate::fault::{VerifyFault, WholeFault};
use crate::relations::rule_relations;
use crate::testing::test_rules;
use access_schema::Schema;
use data_verify::Broken;
use middleware::{RunFault, attach_needed};
use source_trait::{Lane, Source};
use std::alloc::Global;

/// Attaches the relations that some rule names on the first lane, asks for each of them whole, in ascending order, and gives the first rule
/// that the rows do not meet. The lanes behind the first stay. Fails where a relation cannot be attached, or where asking for it fails or
/// gives a bad number.
pub fn verify_rows<S: Source + Send + Drop>(
    alloc: Global,
    schema: &Schema,
    lanes: &mut [Lane<S>],
) -> Result<Option<Broken>, VerifyFault>
    ensures verifies { Verifies S.seen schema.now (needed_first schema.now) lanes.old lanes.new result }
    ensures others { others lanes.new ≡ others lanes.old }
    ensures lanes { LanesStay S.seen lanes.old lanes.new }
{
    match rule_relations(alloc, schema) {
        Ok(rels) => attach_and_test(alloc, schema, lanes, rels.as_slice(), &[]),
        Err(_) => Err(VerifyFault::NotAttached(RunFault::NoMemory)),
    }
}

/// Attaches the relations of `first` on the first lane and those of `others`, which are among them, on each further one. Then asks the first
/// lane for each of its relations whole, in order, and gives the first rule that the rows do not meet.
pub fn attach_and_test<S: Source + Send + Drop>(
    alloc: Global,
    schema: &Schema,
    lanes: &mut [Lane<S>],
    first: &[u32],
    others: &[u32],
) -> Result<Option<Broken>, VerifyFault>
    requires ascend { IsStrictlyIncreasing first.now × IsStrictlyIncreasing others.now }
    requires among { (rel : ℕ) → Contains others.now rel → Contains first.now rel }
    requires there { (rel : ℕ) → Contains first.now rel → IsSome (slice_get schema.now.relations rel) }
    requires rules { (rel : ℕ) → RulesName schema.now rel → Contains first.now rel }
    ensures verifies { Verifies S.seen schema.now (needed first.now others.now) lanes.old lanes.new result }
    ensures lanes { LanesStay S.seen lanes.old lanes.new }
{
    match attach_needed(alloc, schema, lanes, first, others) {
        Ok(()) => {}
        Err(fault) => return Err(VerifyFault::NotAttached(fault)),
    }
    match test_on_first(alloc, schema, lanes, first) {
        Ok(found) => Ok(found),
        Err(fault) => Err(VerifyFault::NotAsked(fault)),
    }
}

// Tests the rules on the rows of the first lane, which has attached these relations. Without a lane there are no relations.
fn test_on_first<S: Source + Send + Drop>(
    alloc: Global,
    schema: &Schema,
    lanes: &mut [Lane<S>],
    rels: &[u32],
) -> Result<Option<Broken>, WholeFault>
    requires ascend { IsStrictlyIncreasing rels.now }
    requires among { (rel : ℕ) → RulesName schema.now rel → Contains rels.now rel }
    requires ready { (rel : ℕ) → Contains rels.now rel → IsReady S.seen schema.now (used lanes.old) rel }
    ensures tests { Tests S.seen schema.now rels.now (used lanes.old) (used lanes.new) result }
    ensures others { others lanes.new ≡ others lanes.old }
    ensures lanes { LanesStay S.seen lanes.old lanes.new }
{
    if lanes.is_empty() {
        return test_alone::<S>(alloc, schema, rels);
    }
    let lane = &mut lanes[0];
    test_rules(alloc, schema, lane, rels)
}

// The same without a lane.
fn test_alone<S: Source + Send + Drop>(
    alloc: Global,
    schema: &Schema,
    rels: &[u32],
) -> Result<Option<Broken>, WholeFault>
    requires ascend { IsStrictlyIncreasing rels.now }
    requires among { (rel : ℕ) → RulesName schema.now rel → Contains rels.now rel }
    requires none { (rel : ℕ) → Contains rels.now rel → ⊥ }
    ensures { Tests S.seen schema.now rels.now [] [] result }
{
    let mut none: Lane<S> = Lane::new(Vec::new(alloc));
    test_rules(alloc, schema, &mut none, rels)
}
