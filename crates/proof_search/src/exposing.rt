// Exposures, round after round.
ghost use Rattle.std.specs.Prelude.{◌≡◌, ◌<◌, ◌≤◌, Ok, true, false, IfOk, OnOk, Contains, length};
ghost use Rattle.meaning.specs.declared.types.Firing.{Firing as TheFiring};
ghost use Rattle.meaning.specs.declared.types.Val.TheVariants.{Const};
ghost use Rattle.meaning.specs.Matching.{MeetsAll, GroundsOf};
ghost use Rattle.meaning.specs.Runs.{NoExposure, last_part};
ghost use Rattle.access_schema.specs.Meaning.{meaning_of};
ghost use Rattle.accessible_copy.specs.Proving.{log_of};
ghost use Rattle.accessible_copy.specs.Rounds.{GoesOn};
ghost use Rattle.proof_search.specs.Searches.{IsSearch, IsExposure, Exposes};

use access_schema::Schema;
use accessible_copy::{Proof, expose, exposures, mark};
use lists::{Copies, NoMemory, Seq};
use meaning::types::{Firing, Firings};
use std::alloc::Global;

/// Which of the active exposures a round makes: all, or those alone that cost the least, so that what is dear is exposed only where
/// nothing cheaper leads to it.
#[derive(Clone, Copy, Debug, PartialEq, Eq)]
pub enum Turn {
    All,
    Cheapest,
}

/// Makes exposures, round after round, while the log has fewer than `firings`. Whether none is active at the end.
pub fn expose_all(
    alloc: Global,
    proof: &mut Proof,
    schema: &Schema,
    firings: u32,
    turn: Turn,
) -> Result<bool, NoMemory>
    requires search { IsSearch (meaning_of schema.now) firings proof.old.start proof.old.constants proof.old }
    requires met { MeetsAll Const (GroundsOf proof.old.end.base) schema.now.rules }
    requires part { last_part 0 (log_of proof.old) ≤ 1 }
    ensures search { OnOk result (IsSearch (meaning_of schema.now) firings proof.old.start proof.old.constants proof.new) }
    ensures met { OnOk result (MeetsAll Const (GroundsOf proof.new.end.base) schema.now.rules) }
    ensures quiet { result ≡ Ok true → NoExposure (meaning_of schema.now) proof.new.constants proof.new.end }
    ensures spent { result ≡ Ok false → (firings ≤ length proof.new.entries) × GoesOn (meaning_of schema.now) proof.new }
{
    loop {
        let found = exposures(alloc, proof, schema)?;
        if found.is_empty() {
            return Ok(true);
        }
        if mark(proof).firings >= firings as u64 {
            return Ok(false);
        }
        let chosen = turn_of(alloc, schema, found, turn)?;
        expose_each(alloc, proof, schema, chosen.as_slice(), firings)?;
    }
}

/// Those of the exposures that a round makes.
fn turn_of(alloc: Global, schema: &Schema, found: Firings, turn: Turn) -> Result<Firings, NoMemory>
    requires { 1 ≤ length found }
    ensures among { IfOk result (λ chosen. (firing : TheFiring) → Contains chosen firing → Contains found firing) }
    ensures some { IfOk result (λ chosen. 1 ≤ length chosen) }
{
    match turn {
        Turn::All => Ok(found),
        Turn::Cheapest => cheapest(alloc, schema, found.as_slice()),
    }
}

/// Those of the exposures whose methods cost the least.
fn cheapest(alloc: Global, schema: &Schema, found: &[Firing]) -> Result<Firings, NoMemory>
    requires { 1 ≤ length found.now }
    ensures among { IfOk result (λ cheap. (firing : TheFiring) → Contains cheap firing → Contains found.now firing) }
    ensures some { IfOk result (λ cheap. 1 ≤ length cheap) }
{
    let first = cheapest_place(schema, found);
    let least = cost_of(schema, &found[first]);
    let mut cheap = Seq::new(alloc);
    cheap.push(found[first].copy(alloc)?)?;
    for (place, firing) in found.iter().enumerate() {
        if place != first && cost_of(schema, firing) <= least {
            cheap.push(firing.copy(alloc)?)?;
        }
    }
    Ok(cheap)
}

/// The place of an exposure whose method costs the least.
fn cheapest_place(schema: &Schema, found: &[Firing]) -> usize
    requires { 1 ≤ length found.now }
    ensures { result < length found.now }
{
    let mut best = 0;
    for (place, firing) in found.iter().enumerate() {
        if cost_of(schema, firing) < cost_of(schema, &found[best]) {
            best = place;
        }
    }
    best
}

/// What the method of an exposure costs.
fn cost_of(schema: &Schema, firing: &Firing) -> u32 {
    match firing {
        Firing::Expose { method, .. } => match schema.methods.get(*method as usize) {
            Some(method) => method.cost,
            None => 0,
        },
        _ => 0,
    }
}

/// Makes the exposures of facts that are not exposed yet, while the log has fewer than `firings`.
fn expose_each(
    alloc: Global,
    proof: &mut Proof,
    schema: &Schema,
    found: &[Firing],
    firings: u32,
) -> Result<(), NoMemory>
    requires search { IsSearch (meaning_of schema.now) firings proof.old.start proof.old.constants proof.old }
    requires met { MeetsAll Const (GroundsOf proof.old.end.base) schema.now.rules }
    requires part { last_part 0 (log_of proof.old) ≤ 1 }
    requires active { (firing : TheFiring) → Contains found.now firing → IsExposure (meaning_of schema.now) proof.old firing }
    requires room { length proof.old.entries < firings }
    requires some { 1 ≤ length found.now }
    ensures exposes { OnOk result (Exposes (meaning_of schema.now) firings proof.old proof.new) }
    ensures longer { OnOk result (length proof.old.entries < length proof.new.entries) }
{
    for firing in found {
        if let Firing::Expose { method, fact } = firing {
            if mark(proof).firings < firings as u64 && !proof.has_exposed(fact) {
                expose(alloc, proof, schema, *method, fact)?;
            }
        }
    }
    Ok(())
}
