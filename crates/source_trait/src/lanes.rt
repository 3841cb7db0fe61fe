// Lanes of sources, and the two calls on one source of a lane.
ghost use Rattle.std.specs.Prelude.{◌≡◌, ◌≤◌, ◌<◌, ◌↔◌, false, length, ℕ, IfSome, IsSome, IsTrue, slice_get};
ghost use Rattle.source_trait.specs.Asking.{Seen, AttachGives, CallGives, CanAsk};
ghost use Rattle.source_trait.specs.Lanes.{names_of, place_from, StepsAt, StepsOn, AtKind, KindsStay};

use crate::request_log::RequestLog;
use crate::source::{AttachFault, CallFault, Source};
use lists::{Places, Row, Text, Texts};
use row_text::PackedRows;
use std::alloc::Global;

/// A source under the name of its kind.
#[derive(Drop)]
pub struct Kind<S> {
    pub name: Text,
    pub object: S,
}

/// The sources of one lane, in order.
pub type Kinds<S> = Vec<Kind<S>>;

/// The sources of one lane, and whether one of them failed in the present round.
///
/// Where two kinds have one name, the first is used.
#[derive(Drop)]
pub struct Lane<S> {
    pub kinds: Kinds<S>,
    pub stopped: bool,
}

impl<S> Lane<S> {
    /// A lane of these kinds that is not stopped. Takes no memory.
    pub fn new(kinds: Kinds<S>) -> Lane<S>
        ensures kinds { result.kinds ≡ kinds }
        ensures stopped { result.stopped ≡ false }
    {
        Lane {
            kinds,
            stopped: false,
        }
    }

    /// Whether the lane has a kind of this name.
    pub fn has_kind(&self, name: &Text) -> bool
        ensures { IsTrue result ↔ IsSome (place_from 0 name.now (names_of self.now.kinds.items)) }
    {
        match place(self.kinds.as_slice(), name) {
            Some(_) => true,
            None => false,
        }
    }
}

/// Attaches a relation to the first source of this kind.
pub fn attach_on<S: Source + Send + Drop>(
    alloc: Global,
    lane: &mut Lane<S>,
    kind: &Text,
    rel: u32,
    columns: &Texts,
    locator: &Text,
) -> Result<(), AttachFault>
    requires there { IsSome (place_from 0 kind.now (names_of lane.old.kinds.items)) }
    requires some { 1 ≤ length columns.now }
    requires few { length columns.now ≤ 64 }
    ensures steps { StepsOn lane.old.kinds.items lane.new.kinds.items kind.now
        (λ s t. AttachGives (S.seen s) (S.seen t) rel columns.now locator.now result) }
    ensures stays { KindsStay S.seen lane.old.kinds.items lane.new.kinds.items }
    ensures stopped { lane.new.stopped ≡ lane.old.stopped }
{
    match place(lane.kinds.as_slice(), kind) {
        Some(at) => attach_at(alloc, &mut lane.kinds, at, rel, columns, locator),
        None => unreachable!(),
    }
}

/// Asks a request of the first source of this kind.
pub fn call_on<S: Source>(
    alloc: Global,
    lane: &mut Lane<S>,
    kind: &Text,
    rel: u32,
    positions: &Places,
    values: &Row,
) -> Result<PackedRows, CallFault>
    requires ready { AtKind lane.old.kinds.items kind.now (λ s. CanAsk ((S.seen s).attached rel) positions.now values.now) }
    ensures steps { StepsOn lane.old.kinds.items lane.new.kinds.items kind.now
        (λ s t. CallGives (S.seen s) (S.seen t) rel positions.now values.now result) }
    ensures stays { KindsStay S.seen lane.old.kinds.items lane.new.kinds.items }
    ensures stopped { lane.new.stopped ≡ lane.old.stopped }
{
    match place(lane.kinds.as_slice(), kind) {
        Some(at) => call_at(alloc, &mut lane.kinds, at, rel, positions, values),
        None => unreachable!(),
    }
}

// The place of the first kind with this name.
fn place<S>(kinds: &[Kind<S>], name: &Text) -> Option<usize>
    ensures found { result ≡ place_from 0 name.now (names_of kinds.now) }
    ensures within { IfSome result (λ k. k < length kinds.now) }
{
    let mut number = 0;
    let mut left = kinds;
    while let [kind, rest @ ..] = left {
        if kind.name == *name {
            return Some(number);
        }
        number += 1;
        left = rest;
    }
    None
}

// Attaches a relation to the source at a place.
fn attach_at<S: Source + Send + Drop>(
    alloc: Global,
    kinds: &mut Kinds<S>,
    place: usize,
    rel: u32,
    columns: &Texts,
    locator: &Text,
) -> Result<(), AttachFault>
    requires place { place < length kinds.old.items }
    requires some { 1 ≤ length columns.now }
    requires few { length columns.now ≤ 64 }
    ensures { StepsAt kinds.old.items kinds.new.items place (λ s t. AttachGives (S.seen s) (S.seen t) rel columns.now locator.now result) }
{
    let kind = &mut kinds[place];
    kind.object.attach(alloc, rel, columns, locator)
}

// Asks a request of the source at a place.
fn call_at<S: Source>(
    alloc: Global,
    kinds: &mut Kinds<S>,
    place: usize,
    rel: u32,
    positions: &Places,
    values: &Row,
) -> Result<PackedRows, CallFault>
    requires place { place < length kinds.old.items }
    requires ready { IfSome (slice_get kinds.old.items place) (λ k. CanAsk ((S.seen k.object).attached rel) positions.now values.now) }
    ensures { StepsAt kinds.old.items kinds.new.items place (λ s t. CallGives (S.seen s) (S.seen t) rel positions.now values.now result) }
{
    let kind = &mut kinds[place];
    kind.object.call(alloc, rel, positions, values)
}

/// A source of any type, behind a box.
#[derive(Drop)]
pub struct Boxed {
    pub object: Box<dyn Source + Send + Drop>,
}

impl Source for Boxed {
    ghost seen = { λ b. (Source-box b.object).seen b.object.value };

    fn attach(
        &mut self,
        alloc: Global,
        rel: u32,
        columns: &Texts,
        locator: &Text,
    ) -> Result<(), AttachFault> {
        self.object.attach(alloc, rel, columns, locator)
    }

    fn call(
        &mut self,
        alloc: Global,
        rel: u32,
        positions: &Places,
        values: &Row,
    ) -> Result<PackedRows, CallFault> {
        self.object.call(alloc, rel, positions, values)
    }

    fn told(&self) -> Option<&RequestLog> {
        self.object.told()
    }
}
