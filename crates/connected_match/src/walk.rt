// Whether links can be gone along, from the empty row to the end.
ghost use Rattle.std.specs.Prelude.{◌≡◌, ◌≤◌, ◌<◌, ◌+◌, ◌++◌, [], IfOk, OnOk, map, length, true, false, Some};
ghost use Rattle.connected_match.specs.Chains.{Completes, FitFrom, LinkFits, AreNexts};
ghost use Rattle.connected_match.specs.Walks.{points_at, empty_row_if, kept_of, HasPlaces, HavePlaces};

use crate::chain::Link;
use homomorphism::{Assignment, Bindings, Store, all_matches, first_match};
use lists::{Copies, NoMemory, Seq};
use meaning::types::{Val, Vals};
use std::alloc::Global;
use std::collections::BTreeSet;

/// Before the link at this place there is this row.
#[derive(PartialEq, Eq, PartialOrd, Ord, Drop)]
pub struct Point {
    place: usize,
    row: Vals,
}

/// Whether each link has a fact such that the rows between them agree. Each row at a place is gone on from once.
pub fn completes(alloc: Global, links: &[Link], store: &Store) -> Result<bool, NoMemory>
    requires { FitFrom 0 links.now }
    ensures yes { IfOk result (λ has. has ≡ true → Completes store.now links.now []) }
    ensures no { IfOk result (λ has. has ≡ false → Completes store.now links.now [] → ⊥) }
{
    let mut seen = BTreeSet::new(alloc);
    let mut waiting = Vec::new(alloc);
    waiting.push(Point {
        place: 0,
        row: Seq::new(alloc),
    })?;
    for _ in 0..usize::MAX {
        let Some(point) = waiting.pop() else {
            return Ok(false);
        };
        if point.place >= links.len() {
            return Ok(true);
        }
        let link = &links[point.place];
        if !seen.contains(&point) {
            let rows = nexts(alloc, link, store, point.row.as_slice())?;
            wait_all(point.place + 1, rows, &mut waiting)?;
            seen.insert(point)?;
        }
    }
    // each turn takes a point that was kept in memory, which has no room for so many
    Err(NoMemory)
}

// Adds the rows at a place to those that wait.
fn wait_all(place: usize, rows: Vec<Vals>, waiting: &mut Vec<Point>) -> Result<(), NoMemory>
    ensures { OnOk result (waiting.new.items ≡ waiting.old.items ++ points_at place rows.items) }
{
    for row in rows {
        waiting.push(Point { place, row })?;
    }
    Ok(())
}

// The rows that a link leads to from a row. Where it keeps nothing, one fact is enough.
fn nexts(alloc: Global, link: &Link, store: &Store, row: &[Val]) -> Result<Vec<Vals>, NoMemory>
    requires { LinkFits (length row.now) link.now }
    ensures { IfOk result (λ rows. AreNexts store.now link.now row.now rows.items) }
{
    let given = bindings(alloc, row, &link.values)?;
    if link.kept.is_empty() {
        let found = first_match(alloc, &link.atoms, store, &given)?;
        Ok(empty_row_if(alloc, found.is_some())?)
    } else {
        let found = all_matches(alloc, &link.atoms, store, &given)?;
        Ok(kept_rows(alloc, found.as_slice(), link.kept.as_slice())?)
    }
}

// The empty row, where there is one at all.
fn empty_row_if(alloc: Global, found: bool) -> Result<Vec<Vals>, NoMemory>
    ensures { IfOk result (λ rows. rows.items ≡ empty_row_if found) }
{
    let mut rows = Vec::new(alloc);
    if found {
        rows.push(Seq::new(alloc))?;
    }
    Ok(rows)
}

// Of each match the values at the places.
fn kept_rows(alloc: Global, found: &[Assignment], kept: &[usize]) -> Result<Vec<Vals>, NoMemory>
    requires { HavePlaces found.now kept.now }
    ensures { IfOk result (λ rows. rows.items ≡ map (kept_of kept.now) found.now) }
{
    let mut rows = Vec::with_capacity(alloc, found.len())?;
    for one in found {
        rows.push(kept_row(alloc, one, kept)?)?;
    }
    Ok(rows)
}

// The values of a match at the places.
fn kept_row(alloc: Global, found: &Assignment, kept: &[usize]) -> Result<Vals, NoMemory>
    requires { HasPlaces kept.now found.now }
    ensures { IfOk result (λ row. row ≡ kept_of kept.now found.now) }
{
    let vals = found.vals.as_slice();
    let mut row = Vec::with_capacity(alloc, kept.len())?;
    for place in kept {
        row.push(vals[*place].copy(alloc)?)?;
    }
    Ok(Seq::from_vec(row))
}

// The values of the row, and then the others.
fn bindings(alloc: Global, row: &[Val], values: &Bindings) -> Result<Bindings, NoMemory>
    ensures { IfOk result (λ given. given ≡ map Some row.now ++ values.now) }
{
    let mut given = known(alloc, row)?;
    let mut others = values.copy(alloc)?.into_vec();
    given.append(&mut others)?;
    Ok(Seq::from_vec(given))
}

fn known(alloc: Global, row: &[Val]) -> Result<Vec<Option<Val>>, NoMemory>
    ensures { IfOk result (λ given. given.items ≡ map Some row.now) }
{
    let mut given = Vec::with_capacity(alloc, row.len())?;
    for val in row {
        given.push(Some(val.copy(alloc)?))?;
    }
    Ok(given)
}
