// The relations that lanes need, attached on them.
ghost use Rattle.std.specs.Prelude.{◌≡◌, ℕ, true, false, Contains, IsSome, IsTrue, MatchOption, slice_get};
ghost use Rattle.std.specs.List.Sorted.{IsStrictlyIncreasing};
ghost use Rattle.source_trait.specs.Lanes.{LanesStay};
ghost use Rattle.middleware.specs.Sources.{needs_at, HavePlace, LackPlace, LacksPlace, refused_as};
ghost use Rattle.middleware.specs.Needs.{needed, AttachesNeeded};

use crate::accesses::{first_lineless, has_source};
use crate::attach::{Refused, attach_lanes};
use crate::fault::RunFault;
use access_schema::{Schema, SourceLine};
use source_trait::{AttachFault, Lane, Source};
use std::alloc::Global;

/// Attaches relations on the lanes, lane by lane: those of `first` on the first lane, and those of `others`, which are among them, on each
/// further one; each with its columns and the locator of its source line.
///
/// Nothing is attached where one of them has no source line, or where a lane that needs it has no source of the kind of that line. Without
/// lanes each of them lacks such a source.
pub fn attach_needed<S: Source + Send + Drop>(
    alloc: Global,
    schema: &Schema,
    lanes: &mut [Lane<S>],
    first: &[u32],
    others: &[u32],
) -> Result<(), RunFault>
    requires ascend { IsStrictlyIncreasing first.now × IsStrictlyIncreasing others.now }
    requires among { (rel : ℕ) → Contains others.now rel → Contains first.now rel }
    requires there { (rel : ℕ) → Contains first.now rel → IsSome (slice_get schema.now.relations rel) }
    ensures attaches { AttachesNeeded S.seen schema.now (needed first.now others.now) lanes.old lanes.new result }
    ensures lanes { LanesStay S.seen lanes.old lanes.new }
{
    let lines = schema.sources.as_slice();
    if let Some(rel) = first_lineless(lines, first) {
        return Err(RunFault::NoSource { rel });
    }
    if let Some(rel) = first_without_place(lanes, lines, first, others) {
        return Err(RunFault::UnknownKind { rel });
    }
    match attach_lanes(alloc, schema, lanes, first, others) {
        Ok(()) => Ok(()),
        Err(refused) => Err(attach_fault(refused)),
    }
}

// A refusal of an attach as that of the attaches.
fn attach_fault(refused: Refused) -> RunFault
    ensures { result ≡ refused_as refused.rel refused.fault }
{
    match refused.fault {
        AttachFault::NoMemory => RunFault::NoMemory,
        fault => RunFault::Attach {
            rel: refused.rel,
            fault,
        },
    }
}

// The first of the relations whose source line has a kind that a lane lacks which needs it; without lanes, the first of them.
fn first_without_place<S>(
    lanes: &[Lane<S>],
    lines: &[SourceLine],
    first: &[u32],
    others: &[u32],
) -> Option<u32>
    ensures { MatchOption result
        ((rel : ℕ) → Contains first.now rel → HavePlace lanes.now lines.now rel (λ place. needed first.now others.now place rel))
        (λ rel. LacksPlace lanes.now lines.now first.now (needed first.now others.now) rel) }
{
    for rel in first {
        if !have_place(lanes, lines, *rel, others.contains(rel)) {
            return Some(*rel);
        }
    }
    None
}

// Whether there is a lane, and the first one has a source of the kind of the relation's line, and so has each further one, where those need
// the relation too.
fn have_place<S>(lanes: &[Lane<S>], lines: &[SourceLine], rel: u32, by_others: bool) -> bool
    ensures all { IsTrue result → HavePlace lanes.now lines.now rel (λ place. needs_at by_others place ≡ true) }
    ensures lacks { result ≡ false → LackPlace lanes.now lines.now rel (λ place. needs_at by_others place ≡ true) }
{
    let mut needs = true;
    for lane in lanes {
        let there = has_source(lane, lines, rel);
        if needs && !there {
            return false;
        }
        needs = by_others;
    }
    !lanes.is_empty()
}
