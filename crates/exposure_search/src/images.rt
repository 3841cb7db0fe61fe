// The facts that a match with given head values can make of a query's atoms.
ghost use Rattle.std.specs.Prelude.{◌≡◌, ◌≤◌, ℕ, IfOk, IfSome, IfNone, length, false};
ghost use Rattle.meaning.specs.declared.types.Ground.{Ground as TheGround};
ghost use Rattle.meaning.specs.declared.types.Val.{Val as TheVal};
ghost use Rattle.meaning.specs.Triggers.{terms_bound, bound, ground};
ghost use Rattle.homomorphism.specs.Bindings.{Agrees};
ghost use Rattle.accessible_copy.specs.Goals.{IsCounted};
ghost use Rattle.exposure_search.specs.Relevance.{IsImageOf, IsMade, AreGiven};

use accessible_copy::no_values;
use homomorphism::{Bindings, could_be, unify};
use lists::NoMemory;
use meaning::types::{Atom, Ground, Query, Val, Vals};
use std::alloc::Global;

/// The values of the query's variables that the head values fix. None comes only where the head cannot have these.
pub(crate) fn head_bindings(
    alloc: Global,
    query: &Query,
    head: &Vals,
) -> Result<Option<Bindings>, NoMemory>
    requires { IsCounted query.now }
    ensures some { IfOk result (λ found. IfSome found (λ given. AreGiven query.now head.now given)) }
    ensures none { IfOk result (λ found. IfNone found ((fact : TheGround) → IsImageOf query.now head.now fact → ⊥)) }
{
    let given = no_values(alloc, query.variables as usize)?;
    Ok(unify(alloc, given, query.head.as_slice(), head.as_slice())?)
}

/// Whether one of the atoms fits the fact. Takes no memory.
pub(crate) fn fits_some(given: &[Option<Val>], atoms: &[Atom], fact: &Ground) -> bool
    requires { bound atoms.now ≤ length given.now }
    ensures { result ≡ false → IsMade given.now atoms.now fact.now → ⊥ }
{
    for atom in atoms {
        if fits(given, atom, fact) {
            return true;
        }
    }
    false
}

/// Whether the atom fits the fact: it has the same relation, and no constant and no given value of it is another one there.
fn fits(given: &[Option<Val>], atom: &Atom, fact: &Ground) -> bool
    requires { terms_bound atom.now.terms ≤ length given.now }
    ensures { result ≡ false → (a : ℕ → TheVal) → Agrees given.now a → ground a atom.now ≡ fact.now → ⊥ }
{
    if atom.rel != fact.rel {
        return false;
    }
    could_be(given, atom.terms.as_slice(), fact.vals.as_slice())
}
