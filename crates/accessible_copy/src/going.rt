// Whether something is active.
ghost use Rattle.std.specs.Prelude.{◌≡◌, IfOk, Ok, true, false};
ghost use Rattle.meaning.specs.Runs.{base_state, IsBaseQuiet};
ghost use Rattle.access_schema.specs.Meaning.{meaning_of};
ghost use Rattle.rule_pass.specs.States.{SomeActive};
ghost use Rattle.accessible_copy.specs.Proving.{IsProofOf, IsOrdered};
ghost use Rattle.accessible_copy.specs.Rounds.{IsAllQuiet, GoesOn};

use crate::listing::exposures;
use crate::proof::Proof;
use access_schema::Schema;
use lists::NoMemory;
use rule_pass::active;
use std::alloc::Global;

/// Whether a firing is active, of whatever kind.
pub fn goes_on(alloc: Global, proof: &Proof, schema: &Schema) -> Result<bool, NoMemory>
    requires run { IsProofOf (meaning_of schema.now) proof.now }
    requires ordered { IsOrdered (meaning_of schema.now) proof.now }
    ensures going { result ≡ Ok true → GoesOn (meaning_of schema.now) proof.now }
    ensures quiet { result ≡ Ok false → IsAllQuiet (meaning_of schema.now) proof.now }
{
    if base_goes_on(alloc, proof, schema)? {
        return Ok(true);
    }
    let open = exposures(alloc, proof, schema)?;
    if open.len() > 0 {
        return Ok(true);
    }
    if let Some(_) = active(alloc, &proof.copy, &schema.rules)? {
        return Ok(true);
    }
    Ok(false)
}

/// Whether a base trigger is active. Where a fact is exposed, none is, and the rules are not looked at.
fn base_goes_on(alloc: Global, proof: &Proof, schema: &Schema) -> Result<bool, NoMemory>
    requires { IsProofOf (meaning_of schema.now) proof.now }
    ensures some { IfOk result (λ going. going ≡ true → SomeActive schema.now.rules (base_state proof.now.end)) }
    ensures quiet { IfOk result (λ going. going ≡ false → IsBaseQuiet (meaning_of schema.now) proof.now.end) }
{
    if proof.known.len() > 0 {
        return Ok(false);
    }
    if let Some(_) = active(alloc, &proof.base, &schema.rules)? {
        return Ok(true);
    }
    Ok(false)
}
