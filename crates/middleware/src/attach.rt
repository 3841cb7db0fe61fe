// Relations attached on a lane, and on each of several.
ghost use Rattle.std.specs.Prelude.{◌≡◌, [], ℕ, Contains, IfErr, OnOk, Some, slice_get};
ghost use Rattle.source_trait.specs.declared.lanes.Lane.{Lane};
ghost use Rattle.middleware.specs.Attaching.{AttachesOne, AttachesInOrder};
ghost use Rattle.middleware.specs.Sources.{IsPlaced, AttachBreaks};
ghost use Rattle.middleware.specs.Needs.{listed, needed, LanesAttach, LanesBreak};

use crate::lookup::{line_of, relation_of};
use access_schema::Schema;
use source_trait::{AttachFault, Lane, Source, attach_on};
use std::alloc::Global;

/// The relation that was not attached, and why.
#[derive(Clone, Copy, Debug, PartialEq, Eq)]
pub struct Refused {
    pub rel: u32,
    pub fault: AttachFault,
}

/// Attaches relations lane by lane: those of `first` on the first lane and those of `others` on each further one; each with its columns
/// and the locator of its source line.
pub fn attach_lanes<S: Source + Send + Drop>(
    alloc: Global,
    schema: &Schema,
    lanes: &mut [Lane<S>],
    first: &[u32],
    others: &[u32],
) -> Result<(), Refused>
    requires placed { (place : ℕ) (lane : Lane S) → slice_get lanes.old place ≡ Some lane → (rel : ℕ)
        → needed first.now others.now place rel → IsPlaced schema.now lane.kinds.items rel }
    ensures attached { OnOk result (LanesAttach S.seen schema.now (listed first.now others.now) lanes.old lanes.new) }
    ensures breaks { IfErr result
        (λ refused. LanesBreak S.seen schema.now (listed first.now others.now) refused.rel refused.fault lanes.old lanes.new) }
{
    let mut rels = first;
    for lane in lanes.iter_mut() {
        attach_all(alloc, schema, lane, rels)?;
        rels = others;
    }
    Ok(())
}

/// Attaches the relations one after another, each with its columns and the locator of its source line.
pub fn attach_all<S: Source + Send + Drop>(
    alloc: Global,
    schema: &Schema,
    lane: &mut Lane<S>,
    rels: &[u32],
) -> Result<(), Refused>
    requires placed { (rel : ℕ) → Contains rels.now rel → IsPlaced schema.now lane.old.kinds.items rel }
    ensures attached { OnOk result (AttachesInOrder S.seen schema.now rels.now lane.old.kinds.items lane.new.kinds.items) }
    ensures breaks { IfErr result (λ refused. AttachBreaks S.seen schema.now rels.now refused.rel refused.fault lane.old.kinds.items lane.new.kinds.items) }
    ensures stopped { lane.new.stopped ≡ lane.old.stopped }
    ensures idle { rels.now ≡ [] → lane.new ≡ lane.old }
{
    for rel in rels {
        match attach_one(alloc, schema, lane, *rel) {
            Ok(()) => {}
            Err(fault) => return Err(Refused { rel: *rel, fault }),
        }
    }
    Ok(())
}

fn attach_one<S: Source + Send + Drop>(
    alloc: Global,
    schema: &Schema,
    lane: &mut Lane<S>,
    rel: u32,
) -> Result<(), AttachFault>
    requires placed { IsPlaced schema.now lane.old.kinds.items rel }
    ensures attaches { AttachesOne S.seen schema.now rel result lane.old.kinds.items lane.new.kinds.items }
    ensures stopped { lane.new.stopped ≡ lane.old.stopped }
{
    let relation = relation_of(schema, rel);
    let line = line_of(schema, rel);
    attach_on(
        alloc,
        lane,
        &line.kind,
        rel,
        &relation.columns,
        &line.locator,
    )
}
