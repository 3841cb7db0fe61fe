// The assignments that make atoms facts of a store.
ghost use Rattle.std.specs.Prelude.{◌≤◌, length, IfOk, IfSome, IfNone};
ghost use Rattle.meaning.specs.Triggers.{bound};
ghost use Rattle.homomorphism.specs.Matches.{IsMatch, NoMatch, AreMatches, AreCovered};

use crate::assignment::{Assignment, Assignments, Bindings};
use crate::matching::{assignment, every};
use crate::search::search;
use crate::store::Store;
use lists::{Copies, NoMemory, Seq};
use meaning::types::Atoms;
use std::alloc::Global;

/// An assignment that agrees with the fixed values and makes each atom a fact of the store. None comes exactly where
/// there is no such assignment.
pub fn first_match(
    alloc: Global,
    atoms: &Atoms,
    store: &Store,
    fixed: &Bindings,
) -> Result<Option<Assignment>, NoMemory>
    requires { bound atoms.now ≤ length fixed.now }
    ensures some { IfOk result (λ found. IfSome found (λ m. IsMatch store.now atoms.now fixed.now m.vals)) }
    ensures none { IfOk result (λ found. IfNone found (NoMatch store.now atoms.now fixed.now)) }
{
    if let Some(found) = search(alloc, atoms.as_slice(), store, fixed.copy(alloc)?)? {
        return Ok(Some(assignment(alloc, found)?));
    }
    Ok(None)
}

/// All assignments that agree with the fixed values and make each atom a fact of the store, each once.
pub fn all_matches(
    alloc: Global,
    atoms: &Atoms,
    store: &Store,
    fixed: &Bindings,
) -> Result<Assignments, NoMemory>
    requires fits { bound atoms.now ≤ length fixed.now }
    requires covered { AreCovered atoms.now fixed.now }
    ensures { IfOk result (λ found. AreMatches store.now atoms.now fixed.now found) }
{
    let given = fixed.copy(alloc)?;
    let mut found = Vec::new(alloc);
    every(alloc, atoms.as_slice(), store, given, &mut found)?;
    Ok(Seq::from_vec(found))
}
