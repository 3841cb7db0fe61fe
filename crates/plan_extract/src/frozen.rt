// A query with labels in place of its variables (Chandra and Merlin 1977, canonical instances).
ghost use Rattle.std.specs.Prelude.{◌≡◌, map, IfOk};
ghost use Rattle.meaning.specs.declared.types.Val.TheVariants.{Const, Label};
ghost use Rattle.meaning.specs.Matching.{value_of};

use homomorphism::{Freezing, values_under};
use lists::NoMemory;
use meaning::types::{Term, Val};
use std::alloc::Global;

/// The values of terms with label k in place of variable k.
pub fn frozen_values(alloc: Global, terms: &[Term]) -> Result<Vec<Val>, NoMemory>
    ensures { IfOk result (λ vals. vals.items ≡ map (value_of Const Label) terms.now) }
{
    values_under(alloc, terms, &Freezing)
}
