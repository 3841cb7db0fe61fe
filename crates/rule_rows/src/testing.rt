// The rules tested on the rows of a lane.
ghost use Rattle.std.specs.Prelude.{ℕ, Contains};
ghost use Rattle.std.specs.List.Sorted.{IsStrictlyIncreasing};
ghost use Rattle.source_trait.specs.Lanes.{KindsStay};
ghost use Rattle.rule_rows.specs.RuleRelations.{RulesName};
ghost use Rattle.rule_rows.specs.Asking.{IsReady};
ghost use Rattle.rule_rows.specs.Verifying.{Tests};

use crate::ask::ask_all;
use crate::fault::WholeFault;
use access_schema::Schema;
use data_verify::{Broken, verify_taken};
use source_trait::{Lane, Source};
use std::alloc::Global;

/// Asks the lane for all rows of these relations, one after another, and gives the first rule of the schema that their facts do not meet.
/// The relations are attached, and among them is each that some rule names. Fails at the first whose call fails or which has a bad number.
pub fn test_rules<S: Source + Send + Drop>(
    alloc: Global,
    schema: &Schema,
    lane: &mut Lane<S>,
    rels: &[u32],
) -> Result<Option<Broken>, WholeFault>
    requires ascend { IsStrictlyIncreasing rels.now }
    requires among { (rel : ℕ) → RulesName schema.now rel → Contains rels.now rel }
    requires ready { (rel : ℕ) → Contains rels.now rel → IsReady S.seen schema.now lane.old.kinds.items rel }
    ensures tests { Tests S.seen schema.now rels.now lane.old.kinds.items lane.new.kinds.items result }
    ensures stays { KindsStay S.seen lane.old.kinds.items lane.new.kinds.items }
{
    let facts = ask_all(alloc, schema, lane, rels)?;
    match verify_taken(alloc, schema, facts) {
        Ok(found) => Ok(found),
        Err(_) => Err(WholeFault::NoMemory),
    }
}
