// Values under which atoms are facts, where any such values serve.
ghost use Rattle.std.specs.Prelude.{◌≡◌, ◌<◌, ◌≤◌, ◌∷◌, [], ℕ, Contains, Some, None, length, slice_get, true, IfOk, IfSome, IfNone};
ghost use Rattle.meaning.specs.declared.types.Term.TheVariants.{Var};
ghost use Rattle.meaning.specs.Triggers.{bound};
ghost use Rattle.homomorphism.specs.Matches.{NoMatch};
ghost use Rattle.homomorphism.specs.Widening.{AreRuns, AreUntouched, Widens, taken};

use crate::arrange::{Run, arranged, numbers};
use crate::assignment::Bindings;
use crate::extend::extend;
use crate::store::Store;
use lists::{Copies, NoMemory, Seq};
use meaning::types::{Atom, Term, Val};
use std::alloc::Global;

/// More values, under which the atoms are facts of the store, if there are such.
///
/// Atoms that share no variable without a value are looked for apart: where some of them cannot be facts, the others are
/// not tried again.
pub fn search(
    alloc: Global,
    atoms: &[Atom],
    store: &Store,
    given: Bindings,
) -> Result<Option<Bindings>, NoMemory>
    requires { bound atoms.now ≤ length given }
    ensures some { IfOk result (λ found. IfSome found (λ found. Widens store.now atoms.now given found)) }
    ensures none { IfOk result (λ found. IfNone found (NoMatch store.now atoms.now given)) }
{
    if atoms.len() == 1 {
        return search_run(alloc, atoms, &[0], store, given);
    }
    let runs = arranged(alloc, atoms, given.as_slice())?;
    search_runs(alloc, atoms, runs.as_slice(), store, given)
}

/// The same in these runs, which have the numbers of all atoms.
pub fn search_runs(
    alloc: Global,
    atoms: &[Atom],
    runs: &[Run],
    store: &Store,
    given: Bindings,
) -> Result<Option<Bindings>, NoMemory>
    requires fits { bound atoms.now ≤ length given }
    requires all { AreRuns (length atoms.now) runs.now }
    ensures some { IfOk result (λ found. IfSome found (λ found. Widens store.now atoms.now given found)) }
    ensures none { IfOk result (λ found. IfNone found (NoMatch store.now atoms.now given)) }
{
    if let [run] = runs {
        return search_run(alloc, atoms, run.as_slice(), store, given);
    }
    search_apart(alloc, atoms, runs, store, given)
}

/// The same, one run after another.
fn search_apart(
    alloc: Global,
    atoms: &[Atom],
    runs: &[Run],
    store: &Store,
    given: Bindings,
) -> Result<Option<Bindings>, NoMemory>
    requires fits { bound atoms.now ≤ length given }
    requires all { AreRuns (length atoms.now) runs.now }
    ensures some { IfOk result (λ found. IfSome found (λ found. Widens store.now atoms.now given found)) }
    ensures none { IfOk result (λ found. IfNone found (NoMatch store.now atoms.now given)) }
{
    let mut now = given.copy(alloc)?.into_vec();
    for run in runs {
        if !are_untouched(atoms, run.as_slice(), given.as_slice(), now.as_slice()) {
            return search_whole(alloc, atoms, store, given);
        }
        if !extend(alloc, atoms, run.as_slice(), store, &mut now)? {
            return Ok(None);
        }
    }
    Ok(Some(Seq::from_vec(now)))
}

/// The same with all atoms in one run.
fn search_whole(
    alloc: Global,
    atoms: &[Atom],
    store: &Store,
    given: Bindings,
) -> Result<Option<Bindings>, NoMemory>
    requires { bound atoms.now ≤ length given }
    ensures some { IfOk result (λ found. IfSome found (λ found. Widens store.now atoms.now given found)) }
    ensures none { IfOk result (λ found. IfNone found (NoMatch store.now atoms.now given)) }
{
    let run = numbers(alloc, atoms.len())?;
    search_run(alloc, atoms, run.as_slice(), store, given)
}

/// The same in this run, which has the numbers of all atoms.
fn search_run(
    alloc: Global,
    atoms: &[Atom],
    run: &[usize],
    store: &Store,
    given: Bindings,
) -> Result<Option<Bindings>, NoMemory>
    requires fits { bound atoms.now ≤ length given }
    requires all { AreRuns (length atoms.now) (run.now ∷ []) }
    ensures some { IfOk result (λ found. IfSome found (λ found. Widens store.now atoms.now given found)) }
    ensures none { IfOk result (λ found. IfNone found (NoMatch store.now atoms.now given)) }
{
    let mut now = given.into_vec();
    if extend(alloc, atoms, run, store, &mut now)? {
        return Ok(Some(Seq::from_vec(now)));
    }
    Ok(None)
}

/// Whether the variables of these atoms that had no value still have none.
pub fn are_untouched(
    atoms: &[Atom],
    run: &[usize],
    given: &[Option<Val>],
    now: &[Option<Val>],
) -> bool
    requires { (n : ℕ) → Contains run.now n → n < length atoms.now }
    ensures { result ≡ true → AreUntouched (taken atoms.now run.now) given.now now.now }
{
    for number in run {
        if !is_untouched(atoms[*number].terms.as_slice(), given, now) {
            return false;
        }
    }
    true
}

/// Whether the variables of the terms that had no value still have none.
pub fn is_untouched(terms: &[Term], given: &[Option<Val>], now: &[Option<Val>]) -> bool
    ensures { result ≡ true → (x : ℕ) → Contains terms.now (Var x) → slice_get given.now x ≡ Some None → slice_get now.now x ≡ Some None }
{
    for term in terms {
        if !is_open(term, given, now) {
            return false;
        }
    }
    true
}

/// Whether the term is no variable that had no value and has one.
fn is_open(term: &Term, given: &[Option<Val>], now: &[Option<Val>]) -> bool
    ensures { result ≡ true → (x : ℕ) → term.now ≡ Var x → slice_get given.now x ≡ Some None → slice_get now.now x ≡ Some None }
{
    match term {
        Term::Const(_) => true,
        Term::Var(variable) => {
            let variable = *variable as usize;
            match given.get(variable) {
                Some(None) => match now.get(variable) {
                    Some(None) => true,
                    _ => false,
                },
                _ => true,
            }
        }
    }
}
