// The parts of a body that share no variable without a value.
ghost use Rattle.std.specs.Prelude.{◌≡◌, ◌<◌, ℕ, length, slice_index_or, true, IfOk, IfSome};
ghost use Rattle.homomorphism.specs.Widening.{AreRuns};
ghost use Rattle.homomorphism.specs.Walks.{IsShut, AreShut, AreParts};

use crate::arrange::{Run, are_runs, arranged, numbers, open_variable};
use crate::assignment::Bindings;
use crate::search::are_untouched;
use lists::{Copies, NoMemory, Seq};
use meaning::types::{Atom, Val};
use std::alloc::Global;

/// Parts of a body, the last one first.
#[derive(Drop)]
pub struct Parts {
    /// The numbers of the atoms of each part.
    pub runs: Seq<Run>,
    /// For each variable the part that owns it.
    pub owners: Seq<usize>,
    /// The values with which the matches of each part begin: only the variables that it owns may have none.
    pub givens: Seq<Bindings>,
}

/// The parts of the atoms.
pub fn parts_of(alloc: Global, atoms: &[Atom], start: &[Option<Val>]) -> Result<Parts, NoMemory>
    ensures { IfOk result (λ parts. AreParts atoms.now start.now parts.runs parts.owners parts.givens) }
{
    if atoms.len() < 2 {
        return one_part(alloc, atoms, start);
    }
    let runs = components(alloc, atoms, start)?;
    if runs.len() > 1 && are_runs(alloc, atoms.len(), runs.as_slice())? {
        let owners = owners(alloc, atoms, start, runs.as_slice())?;
        if let Some(found) = apart(alloc, atoms, start, runs, owners)? {
            return Ok(found);
        }
    }
    one_part(alloc, atoms, start)
}

/// These parts, if they stand apart.
fn apart(
    alloc: Global,
    atoms: &[Atom],
    start: &[Option<Val>],
    runs: Vec<Run>,
    owners: Vec<usize>,
) -> Result<Option<Parts>, NoMemory>
    requires { AreRuns (length atoms.now) runs.items }
    ensures { IfOk result (λ found. IfSome found (λ parts. AreParts atoms.now start.now parts.runs parts.owners parts.givens)) }
{
    if owners.len() != start.len() || !are_below(owners.as_slice(), runs.len()) {
        return Ok(None);
    }
    let parts = runs.as_slice();
    let mut givens = Seq::new(alloc);
    for part in 0..parts.len() {
        let given = shut_to(alloc, start, owners.as_slice(), part)?;
        if !are_untouched(atoms, parts[part].as_slice(), start, given.as_slice()) {
            return Ok(None);
        }
        givens.push(given)?;
    }
    Ok(Some(Parts {
        runs: Seq::from_vec(runs),
        owners: Seq::from_vec(owners),
        givens,
    }))
}

/// All atoms as one part.
fn one_part(alloc: Global, atoms: &[Atom], start: &[Option<Val>]) -> Result<Parts, NoMemory>
    ensures { IfOk result (λ parts. AreParts atoms.now start.now parts.runs parts.owners parts.givens) }
{
    let owners = vec![in alloc; 0; start.len()]?;
    let mut runs = Seq::new(alloc);
    runs.push(numbers(alloc, atoms.len())?)?;
    let mut givens = Seq::new(alloc);
    givens.push(shut_to(alloc, start, owners.as_slice(), 0)?)?;
    Ok(Parts {
        runs,
        owners: Seq::from_vec(owners),
        givens,
    })
}

/// The values with which the matches of a part begin.
fn shut_to(
    alloc: Global,
    start: &[Option<Val>],
    owners: &[usize],
    part: usize,
) -> Result<Bindings, NoMemory>
    requires { length owners.now ≡ length start.now }
    ensures width { IfOk result (λ given. length given ≡ length start.now) }
    ensures shut { IfOk result (λ given. AreShut start.now owners.now part given) }
{
    let mut given = Seq::new(alloc);
    for variable in 0..start.len() {
        given.push(shut(alloc, &start[variable], owners[variable], part)?)?;
    }
    Ok(given)
}

/// The value; where there is none, any, if the owner is another part.
fn shut(
    alloc: Global,
    value: &Option<Val>,
    owner: usize,
    part: usize,
) -> Result<Option<Val>, NoMemory>
    ensures { IfOk result (λ shut. IsShut value.now owner part shut) }
{
    match value {
        Some(value) => Ok(Some(value.copy(alloc)?)),
        None => {
            if owner == part {
                return Ok(None);
            }
            Ok(Some(Val::Label(0)))
        }
    }
}

/// Whether all numbers are below the count.
fn are_below(numbers: &[usize], count: usize) -> bool
    ensures { result ≡ true → (n : ℕ) → n < length numbers.now → slice_index_or numbers.now n 0 < count }
{
    for number in numbers {
        if *number >= count {
            return false;
        }
    }
    true
}

/// The numbers of the atoms of each part, the part of the first atom last.
/// No clause says that they share no variable: what is found here is tested where it is used.
fn components(alloc: Global, atoms: &[Atom], start: &[Option<Val>]) -> Result<Vec<Run>, NoMemory> {
    let mut runs = Vec::new(alloc);
    for run in arranged(alloc, atoms, start)? {
        let mut numbers = run.into_vec();
        numbers.sort_unstable();
        runs.push(Seq::from_vec(numbers))?;
    }
    runs.sort_unstable();
    runs.as_mut_slice().reverse();
    Ok(runs)
}

/// For each variable without a value the run in whose atoms it stands.
fn owners(
    alloc: Global,
    atoms: &[Atom],
    start: &[Option<Val>],
    runs: &[Run],
) -> Result<Vec<usize>, NoMemory> {
    let mut owners = vec![in alloc; 0; start.len()]?;
    for (part, run) in runs.iter().enumerate() {
        own(&mut owners, atoms, run.as_slice(), start, part);
    }
    Ok(owners)
}

/// Gives the part the variables without a value of the atoms with these numbers.
fn own(owners: &mut Vec<usize>, atoms: &[Atom], run: &[usize], start: &[Option<Val>], part: usize) {
    for number in run {
        if let Some(atom) = atoms.get(*number) {
            put_at(owners, atom, start, part);
        }
    }
}

/// Puts the number at the atom's variables without a value.
fn put_at(numbers: &mut Vec<usize>, atom: &Atom, start: &[Option<Val>], number: usize) {
    for term in atom.terms.as_slice() {
        if let Some(variable) = open_variable(term, start) {
            if let Some(place) = numbers.get_mut(variable) {
                *place = number;
            }
        }
    }
}
