// The exposures of a proof, with their methods.
ghost use Rattle.std.specs.Prelude.{IfOk};
ghost use Rattle.std.specs.List.{AllZip};
ghost use Rattle.access_schema.specs.Meaning.{meaning_of};
ghost use Rattle.accessible_copy.specs.Proving.{IsProofOf};
ghost use Rattle.plan_extract.specs.Lent.{exposures_of};
ghost use Rattle.plan_extract.specs.Trimmed.{IsShown};

use crate::exposures::Exposure;
use access_schema::Schema;
use accessible_copy::{Proof, mark};
use lists::NoMemory;
use std::alloc::Global;

/// The exposures of a proof, in order, each with its method.
pub fn shown<'a>(
    alloc: Global,
    schema: &'a Schema,
    proof: &'a Proof,
) -> Result<Vec<Exposure<'a>>, NoMemory>
    requires { IsProofOf (meaning_of schema.now) proof.now }
    ensures { IfOk result (λ shown. AllZip (IsShown (meaning_of schema.now)) proof.now.exposed (exposures_of shown.items)) }
{
    let methods = schema.methods.as_slice();
    let mut shown = Vec::new(alloc);
    for number in 0..mark(proof).firings as usize {
        if let Some((fact, method)) = proof.exposed(number) {
            let method = &methods[method as usize];
            shown.push(Exposure { method, fact })?;
        }
    }
    Ok(shown)
}
