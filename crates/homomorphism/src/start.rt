// Values with which the frontier matches of a body begin: parts of it that name no variable of the head are matched once.
ghost use Rattle.std.specs.Prelude.{◌≡◌, ◌<◌, ◌≤◌, ◌⊎◌, ℕ, Contains, Some, None, length, slice_get, true, IfOk, IfSome, IfNone};
ghost use Rattle.meaning.specs.Triggers.{bound};
ghost use Rattle.homomorphism.specs.Matches.{NoMatch};
ghost use Rattle.homomorphism.specs.Widening.{AreUntouched};
ghost use Rattle.homomorphism.specs.Frontier.{IsApart, AreApart, IsBetween, IsStart};

use crate::arrange::{Run, arranged};
use crate::assignment::Bindings;
use crate::frontier::have_values;
use crate::search::{is_untouched, search_runs};
use crate::store::Store;
use lists::{Copies, NoMemory, Seq};
use meaning::types::{Atom, Term, Val};
use std::alloc::Global;

/// More values, such that the matches of the body that agree with them stand for all others with the same values at the
/// variables of the head. None comes only where the body has no match.
///
/// Parts of the body that share no variable are looked for apart. A part in which no variable of the head stands has the
/// values of one match; so its matches do not multiply those of the others.
pub fn start(
    alloc: Global,
    body: &[Atom],
    head: &[Atom],
    store: &Store,
    given: Bindings,
) -> Result<Option<Bindings>, NoMemory>
    requires { bound body.now ≤ length given }
    ensures some { IfOk result (λ start. IfSome start (IsStart store.now body.now head.now given)) }
    ensures none { IfOk result (λ start. IfNone start (NoMatch store.now body.now given)) }
{
    if body.len() < 2 {
        return Ok(Some(given));
    }
    let runs = arranged(alloc, body, given.as_slice())?;
    if runs.len() < 2 {
        return Ok(Some(given));
    }
    let Some(found) = search_runs(alloc, body, runs.as_slice(), store, given.copy(alloc)?)? else {
        return Ok(None);
    };
    let free = shared_variables(alloc, body, head, runs.as_slice(), given.len())?;
    let start = started(alloc, given.as_slice(), found.as_slice(), free.as_slice())?;
    if !are_apart(body, given.as_slice(), start.as_slice())
        || !are_left(head, given.as_slice(), start.as_slice())
    {
        return Ok(Some(given));
    }
    Ok(Some(Seq::from_vec(start)))
}

/// The values that are given at the variables that stay free, and those that were found at all others.
fn started(
    alloc: Global,
    given: &[Option<Val>],
    found: &[Option<Val>],
    free: &[bool],
) -> Result<Vec<Option<Val>>, NoMemory>
    requires { length found.now ≡ length given.now }
    ensures { IfOk result (λ start. IsBetween given.now found.now start.items) }
{
    let mut start = Vec::with_capacity(alloc, given.len())?;
    for variable in 0..given.len() {
        let value = either(given, found, free, variable);
        start.push(value.copy(alloc)?)?;
    }
    Ok(start)
}

/// The value that is given to the variable, if it stays free, and else the one that was found. Takes no memory.
fn either<'a>(
    given: &'a [Option<Val>],
    found: &'a [Option<Val>],
    free: &[bool],
    variable: usize,
) -> &'a Option<Val>
    requires within { variable < length given.now }
    requires same { length found.now ≡ length given.now }
    ensures { (slice_get given.now variable ≡ Some result.now) ⊎ (slice_get found.now variable ≡ Some result.now) }
{
    match free.get(variable) {
        Some(false) => &found[variable],
        _ => &given[variable],
    }
}

/// Whether each atom has a value for all its variables, or for none more than is given.
fn are_apart(atoms: &[Atom], given: &[Option<Val>], start: &[Option<Val>]) -> bool
    ensures { result ≡ true → AreApart atoms.now given.now start.now }
{
    for atom in atoms {
        if !is_apart(atom.terms.as_slice(), given, start) {
            return false;
        }
    }
    true
}

/// Whether the terms have a value for all their variables, or for none more than is given.
fn is_apart(terms: &[Term], given: &[Option<Val>], start: &[Option<Val>]) -> bool
    ensures { result ≡ true → IsApart terms.now given.now start.now }
{
    have_values(terms, start) || is_untouched(terms, given, start)
}

/// Whether the variables of the atoms that had no value still have none.
fn are_left(atoms: &[Atom], given: &[Option<Val>], start: &[Option<Val>]) -> bool
    ensures { result ≡ true → AreUntouched atoms.now given.now start.now }
{
    for atom in atoms {
        if !is_untouched(atom.terms.as_slice(), given, start) {
            return false;
        }
    }
    true
}

/// Marks the variables of the runs in which a variable of the head stands. No clause says so: what is marked is tested
/// where it is used.
fn shared_variables(
    alloc: Global,
    body: &[Atom],
    head: &[Atom],
    runs: &[Run],
    width: usize,
) -> Result<Vec<bool>, NoMemory> {
    let mut named = vec![in alloc; false; width]?;
    for atom in head {
        mark_variables(&mut named, atom);
    }
    let mut shared = vec![in alloc; false; width]?;
    for run in runs {
        if is_named(body, run.as_slice(), named.as_slice()) {
            mark_run(&mut shared, body, run.as_slice());
        }
    }
    Ok(shared)
}

/// Whether a marked variable stands in one of the atoms with these numbers.
fn is_named(atoms: &[Atom], run: &[usize], marks: &[bool]) -> bool {
    for number in run {
        if let Some(atom) = atoms.get(*number) {
            if has_mark(atom, marks) {
                return true;
            }
        }
    }
    false
}

/// Whether a marked variable stands in the atom.
fn has_mark(atom: &Atom, marks: &[bool]) -> bool {
    for term in atom.terms.as_slice() {
        if let Term::Var(variable) = term {
            if let Some(true) = marks.get(*variable as usize) {
                return true;
            }
        }
    }
    false
}

/// Marks the variables of the atoms with these numbers.
fn mark_run(marks: &mut Vec<bool>, atoms: &[Atom], run: &[usize]) {
    for number in run {
        if let Some(atom) = atoms.get(*number) {
            mark_variables(marks, atom);
        }
    }
}

/// Marks the variables of the atom.
fn mark_variables(marks: &mut Vec<bool>, atom: &Atom) {
    for term in atom.terms.as_slice() {
        if let Term::Var(variable) = term {
            if let Some(mark) = marks.get_mut(*variable as usize) {
                *mark = true;
            }
        }
    }
}
