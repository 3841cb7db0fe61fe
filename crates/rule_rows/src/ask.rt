// Relations asked whole on a lane.
ghost use Rattle.std.specs.Prelude.{◌≡◌, ◌++◌, ℕ, List, [], ◌∷◌, Contains, IfErr, IfOk, OnOk};
ghost use Rattle.meaning.specs.declared.types.Fact.{Fact};
ghost use Rattle.source_trait.specs.Asking.{facts_of};
ghost use Rattle.source_trait.specs.Lanes.{KindsStay};
ghost use Rattle.rule_rows.specs.Asking.{IsReady, AsksOne, AsksInOrder, AskStop};

use crate::fault::WholeFault;
use access_schema::Schema;
use bad_numbers::bad_in_packed;
use lists::{NoMemory, Places, Row};
use meaning::types::{Fact, Instance};
use middleware::line_of;
use row_text::PackedRows;
use source_trait::{CallFault, Lane, Source, call_on};
use std::alloc::Global;

/// Asks for all rows of the relations, one after another; their facts, in the order in which they came. Where a relation has a bad number,
/// the next one is not asked.
pub fn ask_all<S: Source + Send + Drop>(
    alloc: Global,
    schema: &Schema,
    lane: &mut Lane<S>,
    rels: &[u32],
) -> Result<Instance, WholeFault>
    requires ready { (rel : ℕ) → Contains rels.now rel → IsReady S.seen schema.now lane.old.kinds.items rel }
    ensures asked { IfOk result (λ facts. AsksInOrder S.seen schema.now rels.now facts lane.old.kinds.items lane.new.kinds.items) }
    ensures stops { IfErr result (AskStop S.seen schema.now rels.now lane.old.kinds.items lane.new.kinds.items) }
    ensures stays { KindsStay S.seen lane.old.kinds.items lane.new.kinds.items }
{
    let mut facts = Instance::new(alloc);
    for rel in rels {
        ask_next(alloc, schema, lane, *rel, &mut facts)?;
    }
    Ok(facts)
}

// Asks for all rows of a relation, tests their numbers, and adds their facts.
fn ask_next<S: Source + Send + Drop>(
    alloc: Global,
    schema: &Schema,
    lane: &mut Lane<S>,
    rel: u32,
    facts: &mut Instance,
) -> Result<(), WholeFault>
    requires { IsReady S.seen schema.now lane.old.kinds.items rel }
    ensures asked { OnOk result ((more : List Fact) × (facts.new ≡ facts.old ++ more)
        × AsksInOrder S.seen schema.now (rel ∷ []) more lane.old.kinds.items lane.new.kinds.items) }
    ensures stops { IfErr result (AskStop S.seen schema.now (rel ∷ []) lane.old.kinds.items lane.new.kinds.items) }
    ensures stays { KindsStay S.seen lane.old.kinds.items lane.new.kinds.items }
{
    let rows = match ask_one(alloc, schema, lane, rel) {
        Ok(rows) => rows,
        Err(CallFault::Failed) => return Err(WholeFault::CallFailed { rel }),
        Err(CallFault::NoMemory) => return Err(WholeFault::NoMemory),
    };
    match bad_in_packed(schema, rel, &rows) {
        None => {}
        Some(column) => return Err(WholeFault::BadNumber { rel, column }),
    }
    match add_facts(alloc, facts, rel, &rows) {
        Ok(()) => Ok(()),
        Err(_) => Err(WholeFault::NoMemory),
    }
}

fn ask_one<S: Source + Send + Drop>(
    alloc: Global,
    schema: &Schema,
    lane: &mut Lane<S>,
    rel: u32,
) -> Result<PackedRows, CallFault>
    requires { IsReady S.seen schema.now lane.old.kinds.items rel }
    ensures asks { AsksOne S.seen schema.now rel result lane.old.kinds.items lane.new.kinds.items }
    ensures stays { KindsStay S.seen lane.old.kinds.items lane.new.kinds.items }
{
    let line = line_of(schema, rel);
    let positions = Places::new(alloc);
    let values = Row::new(alloc);
    call_on(alloc, lane, &line.kind, rel, &positions, &values)
}

// Adds the facts of a relation with these rows.
fn add_facts(
    alloc: Global,
    facts: &mut Instance,
    rel: u32,
    rows: &PackedRows,
) -> Result<(), NoMemory>
    ensures { OnOk result (facts.new ≡ facts.old ++ facts_of rel rows.now) }
{
    for number in 0..rows.len() {
        let row = rows.at(number).copy(alloc)?;
        facts.push(Fact { rel, row })?;
    }
    Ok(())
}
