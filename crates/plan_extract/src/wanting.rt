// The copy facts that a match rests on.
ghost use Rattle.std.specs.Prelude.{◌≡◌, ◌≤◌, ◌<◌, ◌-◌, ℕ, true, false, IfOk, OnOk, IfSome, IfNone, Some, Contains, length, map, slice_get, take};
ghost use Rattle.meaning.specs.declared.types.Ground.{Ground};
ghost use Rattle.meaning.specs.declared.types.Rule.{Rule};
ghost use Rattle.meaning.specs.declared.types.Firing.TheVariants.{Copy};
ghost use Rattle.meaning.specs.Added.{with_facts};
ghost use Rattle.meaning.specs.Triggers.{assigned, ground};
ghost use Rattle.meaning.specs.Runs.{last_part};
ghost use Rattle.access_schema.specs.Meaning.{meaning_of};
ghost use Rattle.accessible_copy.specs.declared.entry.Entry.{Entry};
ghost use Rattle.accessible_copy.specs.Proving.{IsProofOf, firings_of};
ghost use Rattle.plan_extract.specs.Passes.{AreWanted, HasRule};

use crate::matched::facts_at;
use access_schema::Schema;
use accessible_copy::{Proof, mark};
use homomorphism::{Positions, Store};
use lists::NoMemory;
use meaning::types::{Firing, Ground, Trigger};
use std::alloc::Global;

/// The facts that a match rests on: those of its atoms, and the bodies of the copy firings that made one of them.
///
/// The log is read once, from its end, as each firing comes behind those that it rests on. A firing is left out where no wanted fact
/// is among those that it added to the copy facts.
pub fn wanted_facts(
    alloc: Global,
    schema: &Schema,
    proof: &Proof,
    atoms: Vec<Ground>,
) -> Result<Store, NoMemory>
    requires run { IsProofOf (meaning_of schema.now) proof.now }
    requires there { (fact : Ground) → Contains atoms.items fact → Contains proof.now.end.copy fact }
    ensures { IfOk result (AreWanted (meaning_of schema.now) proof.now atoms.items) }
{
    let mut wanted = Store::found_by(alloc, Positions::none(alloc));
    wanted.add_all(alloc, atoms)?;
    let mut left = mark(proof).firings as usize;
    let mut after = proof.sizes().copy;
    while let Some((trigger, before)) = copy_firing(proof, left) {
        if makes_one(proof, &wanted, before, after) {
            want_body(alloc, schema, trigger, &mut wanted)?;
        }
        left -= 1;
        after = before;
    }
    Ok(wanted)
}

/// The last of the first `left` firings and the number of copy facts before it, where it is a copy firing. Takes no memory.
fn copy_firing(proof: &Proof, left: usize) -> Option<(&Trigger, usize)>
    requires { left ≤ length proof.now.entries }
    ensures some { IfSome result (λ pair. (0 < left) × ((entry : Entry) × (slice_get proof.now.entries (left - 1) ≡ Some entry)
        × (entry.firing ≡ Copy pair.0.now) × (entry.before.copy ≡ pair.1))) }
    ensures none { IfNone result (last_part 0 (firings_of (take left proof.now.entries)) ≤ 1) }
{
    if left == 0 {
        return None;
    }
    match proof.entry(left - 1) {
        Some(entry) => match &entry.firing {
            Firing::Copy(trigger) => Some((trigger, entry.before.copy)),
            Firing::Base(_) => None,
            Firing::Expose { .. } => None,
        },
        None => None,
    }
}

/// Whether one of the copy facts from the one number up to the other is wanted. Takes no memory.
fn makes_one(proof: &Proof, wanted: &Store, before: usize, after: usize) -> bool
    ensures some { result ≡ true → (number : ℕ) × (fact : Ground) × (before ≤ number) × (number < after)
        × (slice_get proof.now.end.copy number ≡ Some fact) × Contains wanted.now fact }
    ensures none { result ≡ false → (number : ℕ) (fact : Ground) → before ≤ number → number < after →
        slice_get proof.now.end.copy number ≡ Some fact → Contains wanted.now fact → ⊥ }
{
    for number in before..after {
        if let Some(fact) = proof.copy(number) {
            if wanted.contains(fact) {
                return true;
            }
        }
    }
    false
}

/// Adds the facts of the trigger's body to the wanted ones.
fn want_body(
    alloc: Global,
    schema: &Schema,
    trigger: &Trigger,
    wanted: &mut Store,
) -> Result<(), NoMemory>
    requires { (rule : Rule) × HasRule schema.now.rules trigger.now rule }
    ensures { OnOk result ((rule : Rule) → slice_get schema.now.rules trigger.now.rule ≡ Some rule →
        wanted.new ≡ with_facts wanted.old (map (ground (assigned trigger.now)) rule.body)) }
{
    let rule = &schema.rules.as_slice()[trigger.rule as usize];
    let body = facts_at(alloc, rule.body.as_slice(), trigger.values.as_slice())?;
    wanted.add_all(alloc, body)
}
