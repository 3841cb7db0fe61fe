// Firing the rules of one kind.
ghost use Rattle.std.specs.Prelude.{◌≡◌, ◌≤◌, max, length, Ok, true, false};
ghost use Rattle.meaning.specs.declared.types.Val.TheVariants.{Const};
ghost use Rattle.meaning.specs.Matching.{MeetsAll, GroundsOf};
ghost use Rattle.meaning.specs.Runs.{base_state, copy_state, IsBaseQuiet, IsCopyQuiet};
ghost use Rattle.meaning.specs.Triggers.{IsQuiet};
ghost use Rattle.access_schema.specs.Meaning.{meaning_of};
ghost use Rattle.rule_pass.specs.States.{SomeActive};
ghost use Rattle.rule_pass.specs.declared.pass.TheConstants.{MOST_FIRINGS};
ghost use Rattle.rule_pass.specs.declared.pass.Stopped.TheVariants.{Ended, Spent as Exhausted};
ghost use Rattle.accessible_copy.specs.declared.settling.Round.TheVariants.{Quiet, Done, Spent};
ghost use Rattle.accessible_copy.specs.Proving.{IsProofOf};
ghost use Rattle.accessible_copy.specs.Settling.{Settles, kind_state};

use crate::open_facts::put;
use crate::proof::Proof;
use access_schema::Schema;
use lists::NoMemory;
use rule_pass::{Stopped, rule_order, run_in_order};
use std::alloc::Global;

/// How firing ends: with nothing active, with a part done, or with its budget spent and something active.
#[derive(Debug, Drop)]
pub enum Round {
    Quiet,
    Done,
    Spent,
}

/// Goes through the rules once, in the rule order, and makes the firings of one kind, each while the log has fewer than
/// `budget`.
///
/// Quiet comes exactly where none of that kind is active at the end. Where memory is refused, the proof is that of its log.
pub fn settle(
    alloc: Global,
    proof: &mut Proof,
    schema: &Schema,
    copies: bool,
    budget: u32,
) -> Result<Round, NoMemory>
    requires run { IsProofOf (meaning_of schema.now) proof.old }
    requires quiet { copies ≡ true → IsBaseQuiet (meaning_of schema.now) proof.old.end }
    requires budget { budget ≤ MOST_FIRINGS }
    ensures run { IsProofOf (meaning_of schema.now) proof.new }
    ensures more { Settles (meaning_of schema.now) copies proof.old proof.new }
    ensures budget { length proof.new.entries ≤ max (length proof.old.entries) budget }
    ensures quiet { result ≡ Ok Quiet → IsQuiet schema.now.rules (kind_state copies proof.new.end) }
    ensures met { result ≡ Ok Quiet → MeetsAll Const (GroundsOf (kind_state copies proof.new.end).facts) schema.now.rules }
    ensures spent { result ≡ Ok Spent → (budget ≤ length proof.new.entries) × SomeActive schema.now.rules (kind_state copies proof.new.end) }
    ensures going { result ≡ Ok Done → ⊥ }
{
    if copies {
        settle_copies(alloc, proof, schema, budget)
    } else {
        settle_base(alloc, proof, schema, budget)
    }
}

/// Goes through the rules once, in the rule order, and makes base firings, while the log has fewer than `budget`.
pub(crate) fn settle_base(
    alloc: Global,
    proof: &mut Proof,
    schema: &Schema,
    budget: u32,
) -> Result<Round, NoMemory>
    requires run { IsProofOf (meaning_of schema.now) proof.old }
    requires budget { budget ≤ MOST_FIRINGS }
    ensures run { IsProofOf (meaning_of schema.now) proof.new }
    ensures more { Settles (meaning_of schema.now) false proof.old proof.new }
    ensures budget { length proof.new.entries ≤ max (length proof.old.entries) budget }
    ensures quiet { result ≡ Ok Quiet → IsBaseQuiet (meaning_of schema.now) proof.new.end }
    ensures met { result ≡ Ok Quiet → MeetsAll Const (GroundsOf proof.new.end.base) schema.now.rules }
    ensures spent { result ≡ Ok Spent → (budget ≤ length proof.new.entries) × SomeActive schema.now.rules (base_state proof.new.end) }
    ensures going { result ≡ Ok Done → ⊥ }
{
    let order = rule_order(alloc, &schema.rules)?;
    put(&mut proof.open_facts, None);
    let held = proof.sizes();
    proof.history.begin(false, held);
    let stopped = run_in_order(
        alloc,
        &mut proof.base,
        &schema.rules,
        order.as_slice(),
        budget as usize,
        &mut proof.history,
    );
    let next = proof.base.next();
    proof.copy.raise(next);
    round_of(stopped)
}

/// Goes through the rules once, in the rule order, and makes copy firings, while the log has fewer than `budget`.
pub(crate) fn settle_copies(
    alloc: Global,
    proof: &mut Proof,
    schema: &Schema,
    budget: u32,
) -> Result<Round, NoMemory>
    requires run { IsProofOf (meaning_of schema.now) proof.old }
    requires quiet { IsBaseQuiet (meaning_of schema.now) proof.old.end }
    requires budget { budget ≤ MOST_FIRINGS }
    ensures run { IsProofOf (meaning_of schema.now) proof.new }
    ensures more { Settles (meaning_of schema.now) true proof.old proof.new }
    ensures budget { length proof.new.entries ≤ max (length proof.old.entries) budget }
    ensures quiet { result ≡ Ok Quiet → IsCopyQuiet (meaning_of schema.now) proof.new.end }
    ensures met { result ≡ Ok Quiet → MeetsAll Const (GroundsOf proof.new.end.copy) schema.now.rules }
    ensures spent { result ≡ Ok Spent → (budget ≤ length proof.new.entries) × SomeActive schema.now.rules (copy_state proof.new.end) }
    ensures going { result ≡ Ok Done → ⊥ }
{
    let order = rule_order(alloc, &schema.rules)?;
    let held = proof.sizes();
    proof.history.begin(true, held);
    let stopped = run_in_order(
        alloc,
        &mut proof.copy,
        &schema.rules,
        order.as_slice(),
        budget as usize,
        &mut proof.history,
    );
    let next = proof.copy.next();
    proof.base.raise(next);
    round_of(stopped)
}

/// The pass's end, as that of a part.
fn round_of(stopped: Result<Stopped, NoMemory>) -> Result<Round, NoMemory>
    ensures quiet { result ≡ Ok Quiet → stopped ≡ Ok Ended }
    ensures spent { result ≡ Ok Spent → stopped ≡ Ok Exhausted }
    ensures going { result ≡ Ok Done → ⊥ }
{
    match stopped {
        Ok(Stopped::Ended) => Ok(Round::Quiet),
        Ok(Stopped::Spent) => Ok(Round::Spent),
        Err(fault) => Err(fault),
    }
}
