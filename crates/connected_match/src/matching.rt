// Whether atoms have a match in a store.
ghost use Rattle.std.specs.Prelude.{◌≡◌, ◌≤◌, IfOk, length, true, false};
ghost use Rattle.meaning.specs.Triggers.{bound};
ghost use Rattle.homomorphism.specs.Matches.{NoMatch};
ghost use Rattle.connected_match.specs.Chains.{SomeMatch};

use crate::chain::chain;
use crate::order::arranged;
use crate::walk::completes;
use homomorphism::{Bindings, Store};
use lists::NoMemory;
use meaning::types::Atoms;
use std::alloc::Global;

/// Whether some assignment that agrees with the given values makes each atom a fact of the store.
pub fn has_match(
    alloc: Global,
    atoms: &Atoms,
    store: &Store,
    given: &Bindings,
) -> Result<bool, NoMemory>
    requires { bound atoms.now ≤ length given.now }
    ensures yes { IfOk result (λ has. has ≡ true → SomeMatch store.now atoms.now given.now) }
    ensures no { IfOk result (λ has. has ≡ false → NoMatch store.now atoms.now given.now) }
{
    let ordered = arranged(alloc, atoms.as_slice(), given.as_slice())?;
    let links = chain(alloc, ordered, given.as_slice())?;
    Ok(completes(alloc, links.as_slice(), store)?)
}
