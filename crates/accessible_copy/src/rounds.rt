// One round: the firings of the first kind that is active.
ghost use Rattle.std.specs.Prelude.{◌≡◌, ◌≤◌, ℕ, max, length, Contains, OnOk, IfOk, IfSome, Ok, Some, None, true, false};
ghost use Rattle.meaning.specs.declared.types.Ground.{Ground};
ghost use Rattle.meaning.specs.declared.types.Firing.TheVariants.{Expose};
ghost use Rattle.meaning.specs.Triggers.{IsQuiet};
ghost use Rattle.meaning.specs.Runs.{base_state, last_part, IsBaseQuiet, NoExposure};
ghost use Rattle.access_schema.specs.Meaning.{meaning_of};
ghost use Rattle.rule_pass.specs.States.{SomeActive};
ghost use Rattle.rule_pass.specs.declared.pass.TheConstants.{MOST_FIRINGS};
ghost use Rattle.accessible_copy.specs.declared.settling.Round.TheVariants.{Quiet, Done, Spent};
ghost use Rattle.accessible_copy.specs.Proving.{IsProofOf, log_of, IsOrdered};
ghost use Rattle.accessible_copy.specs.Settling.{Settles, kind_state};
ghost use Rattle.accessible_copy.specs.Rounds.{IsAllQuiet, GoesOn, SomeExposure, MayExpose, IsOneRound, MadeExposures, IsRound, IsDone};
ghost use Rattle.accessible_copy.specs.Listing.{CanFire, AreExposures};

use crate::exposing::expose;
use crate::going::goes_on;
use crate::listing::exposures;
use crate::proof::Proof;
use crate::settling::{Round, settle};
use access_schema::Schema;
use lists::NoMemory;
use meaning::types::{Firing, Firings};
use rule_pass::Log;
use std::alloc::Global;

/// Makes the firings of one part, each while the log has fewer than `budget`: base firings where a base trigger is active,
/// else exposures where one is active, else copy firings where a copy trigger is active.
///
/// Quiet comes exactly where nothing is active at the start, Spent where the log has reached the budget and something is
/// active at the end, and Done otherwise. Where memory is refused, the proof is that of its log.
pub fn round(
    alloc: Global,
    proof: &mut Proof,
    schema: &Schema,
    budget: u32,
) -> Result<Round, NoMemory>
    requires run { IsProofOf (meaning_of schema.now) proof.old }
    requires ordered { IsOrdered (meaning_of schema.now) proof.old }
    requires budget { budget ≤ MOST_FIRINGS }
    ensures run { IsProofOf (meaning_of schema.now) proof.new }
    ensures ordered { IsOrdered (meaning_of schema.now) proof.new }
    ensures one { IsOneRound proof.old proof.new }
    ensures part { OnOk result (IsRound (meaning_of schema.now) proof.old proof.new) }
    ensures budget { length proof.new.entries ≤ max (length proof.old.entries) budget }
    ensures quiet { result ≡ Ok Quiet → IsAllQuiet (meaning_of schema.now) proof.old }
    ensures same { result ≡ Ok Quiet → proof.new ≡ proof.old }
    ensures going { result ≡ Ok Done → GoesOn (meaning_of schema.now) proof.old }
    ensures done { result ≡ Ok Done → IsDone (meaning_of schema.now) proof.old proof.new }
    ensures ended { result ≡ Ok Done → budget ≤ length proof.new.entries → IsAllQuiet (meaning_of schema.now) proof.new }
    ensures spent { result ≡ Ok Spent → (budget ≤ length proof.new.entries) × GoesOn (meaning_of schema.now) proof.new }
{
    if let Some(ended) = base_part(alloc, proof, schema, budget)? {
        return Ok(ended);
    }
    later_part(alloc, proof, schema, budget)
}

/// The same where no base trigger is active.
fn later_part(
    alloc: Global,
    proof: &mut Proof,
    schema: &Schema,
    budget: u32,
) -> Result<Round, NoMemory>
    requires run { IsProofOf (meaning_of schema.now) proof.old }
    requires ordered { IsOrdered (meaning_of schema.now) proof.old }
    requires base { IsBaseQuiet (meaning_of schema.now) proof.old.end }
    requires budget { budget ≤ MOST_FIRINGS }
    ensures run { IsProofOf (meaning_of schema.now) proof.new }
    ensures ordered { IsOrdered (meaning_of schema.now) proof.new }
    ensures one { IsOneRound proof.old proof.new }
    ensures part { OnOk result (IsRound (meaning_of schema.now) proof.old proof.new) }
    ensures budget { length proof.new.entries ≤ max (length proof.old.entries) budget }
    ensures quiet { result ≡ Ok Quiet → IsAllQuiet (meaning_of schema.now) proof.old }
    ensures same { result ≡ Ok Quiet → proof.new ≡ proof.old }
    ensures going { result ≡ Ok Done → GoesOn (meaning_of schema.now) proof.old }
    ensures done { result ≡ Ok Done → IsDone (meaning_of schema.now) proof.old proof.new }
    ensures ended { result ≡ Ok Done → budget ≤ length proof.new.entries → IsAllQuiet (meaning_of schema.now) proof.new }
    ensures spent { result ≡ Ok Spent → (budget ≤ length proof.new.entries) × GoesOn (meaning_of schema.now) proof.new }
{
    let found = exposures(alloc, proof, schema)?;
    if found.len() > 0 {
        return expose_part(alloc, proof, schema, &found, budget);
    }
    if let Some(ended) = settle_part(alloc, proof, schema, true, budget)? {
        return Ok(ended);
    }
    Ok(Round::Quiet)
}

/// Makes base firings, while the log has fewer than `budget`. None comes exactly where no base trigger was active, and then
/// nothing changes. Where a fact is exposed, none is, and the rules are not looked at.
fn base_part(
    alloc: Global,
    proof: &mut Proof,
    schema: &Schema,
    budget: u32,
) -> Result<Option<Round>, NoMemory>
    requires run { IsProofOf (meaning_of schema.now) proof.old }
    requires ordered { IsOrdered (meaning_of schema.now) proof.old }
    requires budget { budget ≤ MOST_FIRINGS }
    ensures run { IsProofOf (meaning_of schema.now) proof.new }
    ensures ordered { IsOrdered (meaning_of schema.now) proof.new }
    ensures more { Settles (meaning_of schema.now) false proof.old proof.new }
    ensures budget { length proof.new.entries ≤ max (length proof.old.entries) budget }
    ensures none { result ≡ Ok None → (proof.new ≡ proof.old) × IsBaseQuiet (meaning_of schema.now) proof.old.end }
    ensures some { IfOk result (λ ended. IfSome ended (λ last. SomeActive schema.now.rules (base_state proof.old.end))) }
    ensures quiet { result ≡ Ok (Some Quiet) → ⊥ }
    ensures done { result ≡ Ok (Some Done) → IsBaseQuiet (meaning_of schema.now) proof.new.end }
    ensures ended { result ≡ Ok (Some Done) → budget ≤ length proof.new.entries → IsAllQuiet (meaning_of schema.now) proof.new }
    ensures spent { result ≡ Ok (Some Spent) → (budget ≤ length proof.new.entries) × GoesOn (meaning_of schema.now) proof.new }
{
    if proof.known.len() > 0 {
        return Ok(None);
    }
    settle_part(alloc, proof, schema, false, budget)
}

/// Makes the firings of rules of one kind, while the log has fewer than `budget`. None comes exactly where none of that kind
/// was active, and then nothing changes. Done comes only where none of that kind is active at the end.
fn settle_part(
    alloc: Global,
    proof: &mut Proof,
    schema: &Schema,
    copies: bool,
    budget: u32,
) -> Result<Option<Round>, NoMemory>
    requires run { IsProofOf (meaning_of schema.now) proof.old }
    requires ordered { IsOrdered (meaning_of schema.now) proof.old }
    requires quiet { copies ≡ true → IsBaseQuiet (meaning_of schema.now) proof.old.end }
    requires bare { copies ≡ true → NoExposure (meaning_of schema.now) proof.old.constants proof.old.end }
    requires budget { budget ≤ MOST_FIRINGS }
    ensures run { IsProofOf (meaning_of schema.now) proof.new }
    ensures ordered { IsOrdered (meaning_of schema.now) proof.new }
    ensures more { Settles (meaning_of schema.now) copies proof.old proof.new }
    ensures budget { length proof.new.entries ≤ max (length proof.old.entries) budget }
    ensures none { result ≡ Ok None → (proof.new ≡ proof.old) × IsQuiet schema.now.rules (kind_state copies proof.old.end) }
    ensures some { IfOk result (λ ended. IfSome ended (λ last. SomeActive schema.now.rules (kind_state copies proof.old.end))) }
    ensures quiet { result ≡ Ok (Some Quiet) → ⊥ }
    ensures done { result ≡ Ok (Some Done) → IsQuiet schema.now.rules (kind_state copies proof.new.end) }
    ensures ended { result ≡ Ok (Some Done) → budget ≤ length proof.new.entries → IsAllQuiet (meaning_of schema.now) proof.new }
    ensures spent { result ≡ Ok (Some Spent) → (budget ≤ length proof.new.entries) × GoesOn (meaning_of schema.now) proof.new }
{
    let before = proof.history.firings();
    let ended = settle(alloc, proof, schema, copies, budget)?;
    if let Round::Spent = ended {
        return Ok(Some(Round::Spent));
    }
    if proof.history.firings() == before {
        return Ok(None);
    }
    Ok(Some(end_part(alloc, proof, schema, budget)?))
}

/// Makes these exposures, which are all that are active, while the log has fewer than `budget` firings. Done comes only
/// where none of them is active at the end.
fn expose_part(
    alloc: Global,
    proof: &mut Proof,
    schema: &Schema,
    found: &Firings,
    budget: u32,
) -> Result<Round, NoMemory>
    requires run { IsProofOf (meaning_of schema.now) proof.old }
    requires ordered { IsOrdered (meaning_of schema.now) proof.old }
    requires quiet { IsBaseQuiet (meaning_of schema.now) proof.old.end }
    requires found { AreExposures (meaning_of schema.now) proof.old proof.old.end.base found.now }
    requires some { SomeExposure (meaning_of schema.now) proof.old }
    ensures run { IsProofOf (meaning_of schema.now) proof.new }
    ensures ordered { IsOrdered (meaning_of schema.now) proof.new }
    ensures more { MadeExposures (meaning_of schema.now) proof.old proof.new }
    ensures budget { length proof.new.entries ≤ max (length proof.old.entries) budget }
    ensures quiet { result ≡ Ok Quiet → ⊥ }
    ensures done { result ≡ Ok Done → IsDone (meaning_of schema.now) proof.old proof.new }
    ensures ended { result ≡ Ok Done → budget ≤ length proof.new.entries → IsAllQuiet (meaning_of schema.now) proof.new }
    ensures spent { result ≡ Ok Spent → (budget ≤ length proof.new.entries) × GoesOn (meaning_of schema.now) proof.new }
{
    for firing in found.as_slice() {
        if !expose_once(alloc, proof, schema, firing, budget)? {
            return Ok(Round::Spent);
        }
    }
    end_part(alloc, proof, schema, budget)
}

/// Makes the exposure, if its fact is not exposed yet and the log has room for it. False comes only where there is no room
/// and the exposure is active.
fn expose_once(
    alloc: Global,
    proof: &mut Proof,
    schema: &Schema,
    firing: &Firing,
    budget: u32,
) -> Result<bool, NoMemory>
    requires run { IsProofOf (meaning_of schema.now) proof.old }
    requires ordered { IsOrdered (meaning_of schema.now) proof.old }
    requires quiet { IsBaseQuiet (meaning_of schema.now) proof.old.end }
    requires part { last_part 0 (log_of proof.old) ≤ 1 }
    requires active { (number : ℕ) (fact : Ground) → firing.now ≡ Expose number fact →
        (Contains proof.old.end.exposed fact → ⊥) → CanFire (meaning_of schema.now) proof.old number fact }
    ensures run { IsProofOf (meaning_of schema.now) proof.new }
    ensures ordered { IsOrdered (meaning_of schema.now) proof.new }
    ensures made { MayExpose firing.now proof.old proof.new }
    ensures budget { length proof.new.entries ≤ max (length proof.old.entries) budget }
    ensures shown { result ≡ Ok true → (number : ℕ) (fact : Ground) → firing.now ≡ Expose number fact → Contains proof.new.end.exposed fact }
    ensures spent { result ≡ Ok false → (budget ≤ length proof.new.entries) × GoesOn (meaning_of schema.now) proof.new }
{
    let Firing::Expose { method, fact } = firing else {
        return Ok(true);
    };
    if proof.known.has(fact) {
        return Ok(true);
    }
    if proof.history.firings() >= budget as usize {
        return Ok(false);
    }
    expose(alloc, proof, schema, *method, fact)?;
    Ok(true)
}

/// Spent where the log has reached the budget and something is active, and Done otherwise.
fn end_part(alloc: Global, proof: &Proof, schema: &Schema, budget: u32) -> Result<Round, NoMemory>
    requires run { IsProofOf (meaning_of schema.now) proof.now }
    requires ordered { IsOrdered (meaning_of schema.now) proof.now }
    ensures quiet { result ≡ Ok Quiet → ⊥ }
    ensures ended { result ≡ Ok Done → budget ≤ length proof.now.entries → IsAllQuiet (meaning_of schema.now) proof.now }
    ensures spent { result ≡ Ok Spent → (budget ≤ length proof.now.entries) × GoesOn (meaning_of schema.now) proof.now }
{
    if proof.history.firings() >= budget as usize {
        if goes_on(alloc, proof, schema)? {
            return Ok(Round::Spent);
        }
    }
    Ok(Round::Done)
}
