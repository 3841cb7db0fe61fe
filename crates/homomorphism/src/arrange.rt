// In which order atoms are made facts, and which of them apart from the others.
ghost use Rattle.std.specs.Prelude.{◌≡◌, ◌<◌, ◌⊎◌, ◌∷◌, [], ℕ, Contains, Some, length, slice_get, true, IfOk};
ghost use Rattle.homomorphism.specs.Widening.{AreRuns};

use lists::{NoMemory, Seq};
use meaning::types::{Atom, Term, Val};
use std::alloc::Global;
use std::cmp::Reverse;
use std::collections::BinaryHeap;

/// Numbers of atoms, in the order in which they are looked for.
pub type Run = Seq<usize>;

/// An atom that may come next, with how many of its positions have a value; of several the one that stands first.
type Candidate = (usize, Reverse<usize>);

/// What is known while atoms are put in order.
#[derive(Drop)]
struct Arranging {
    /// The atoms in which a variable stands that has no value yet.
    uses: Vec<Run>,
    /// How many positions of each atom have a value.
    counts: Vec<usize>,
    /// Whether an atom was taken.
    taken: Vec<bool>,
    /// All atoms, as one of which a run may begin.
    starts: BinaryHeap<Candidate>,
    /// Atoms that share a variable with an atom of the run.
    reached: BinaryHeap<Candidate>,
}

impl Arranging {
    fn start(alloc: Global, atoms: &[Atom], given: &[Option<Val>]) -> Result<Arranging, NoMemory> {
        let mut uses = Vec::with_capacity(alloc, given.len())?;
        for _ in given {
            uses.push(Seq::new(alloc))?;
        }
        let mut counts = Vec::with_capacity(alloc, atoms.len())?;
        let mut taken = Vec::with_capacity(alloc, atoms.len())?;
        let mut starts = BinaryHeap::new(alloc);
        for (number, atom) in atoms.iter().enumerate() {
            let count = note_uses(&mut uses, given, number, atom)?;
            counts.push(count)?;
            taken.push(false)?;
            starts.push((count, Reverse(number)))?;
        }
        Ok(Arranging {
            uses,
            counts,
            taken,
            starts,
            reached: BinaryHeap::new(alloc),
        })
    }

    /// Takes the atom, whose variables have a value from now on.
    fn take(&mut self, alloc: Global, number: usize, atoms: &[Atom]) -> Result<(), NoMemory> {
        if let Some(taken) = self.taken.get_mut(number) {
            *taken = true;
        }
        if let Some(atom) = atoms.get(number) {
            for term in atom.terms.as_slice() {
                if let Term::Var(variable) = term {
                    self.reach(alloc, *variable as usize)?;
                }
            }
        }
        Ok(())
    }

    /// Counts the variable as one with a value.
    fn reach(&mut self, alloc: Global, variable: usize) -> Result<(), NoMemory> {
        for number in take_uses(&mut self.uses, alloc, variable).into_vec() {
            if let Some(count) = self.counts.get_mut(number) {
                *count = count.saturating_add(1);
                self.reached.push((*count, Reverse(number)))?;
            }
        }
        Ok(())
    }
}

/// Writes down which variables without a value stand in the atom, and counts its other positions.
fn note_uses(
    uses: &mut Vec<Run>,
    given: &[Option<Val>],
    number: usize,
    atom: &Atom,
) -> Result<usize, NoMemory> {
    let mut count: usize = 0;
    for term in atom.terms.as_slice() {
        match open_variable(term, given) {
            Some(variable) => note_use(uses, variable, number)?,
            None => count = count.saturating_add(1),
        }
    }
    Ok(count)
}

fn note_use(uses: &mut Vec<Run>, variable: usize, number: usize) -> Result<(), NoMemory> {
    if let Some(run) = uses.get_mut(variable) {
        run.push(number)?;
    }
    Ok(())
}

/// The term's variable, where no value is given for it.
pub fn open_variable(term: &Term, given: &[Option<Val>]) -> Option<usize> {
    match term {
        Term::Const(_) => None,
        Term::Var(variable) => {
            let variable = *variable as usize;
            match given.get(variable) {
                Some(Some(_)) => None,
                _ => Some(variable),
            }
        }
    }
}

/// The atoms in which the variable stands, which are told once.
fn take_uses(uses: &mut Vec<Run>, alloc: Global, variable: usize) -> Run {
    match uses.get_mut(variable) {
        Some(run) => std::mem::replace(run, Seq::new(alloc)),
        None => Seq::new(alloc),
    }
}

/// The first candidate that was not taken.
fn pop_open(candidates: &mut BinaryHeap<Candidate>, taken: &[bool]) -> Option<usize> {
    while let Some((_count, Reverse(number))) = candidates.pop() {
        if let Some(false) = taken.get(number) {
            return Some(number);
        }
    }
    None
}

/// The numbers of the atoms, in runs that are to share no variable without a value. In a run the atom with the most
/// positions that have a value comes next. No clause says so: what is found here is tested where it is used.
fn plan(alloc: Global, atoms: &[Atom], given: &[Option<Val>]) -> Result<Vec<Run>, NoMemory> {
    let mut arranging = Arranging::start(alloc, atoms, given)?;
    let mut runs = Vec::new(alloc);
    let mut run = Seq::new(alloc);
    for _ in 0..atoms.len() {
        let mut next = pop_open(&mut arranging.reached, &arranging.taken);
        if next.is_none() {
            if !run.is_empty() {
                runs.push(run)?;
                run = Seq::new(alloc);
            }
            next = pop_open(&mut arranging.starts, &arranging.taken);
        }
        if let Some(number) = next {
            arranging.take(alloc, number, atoms)?;
            run.push(number)?;
        }
    }
    runs.push(run)?;
    Ok(runs)
}

/// All numbers below the count.
pub fn numbers(alloc: Global, count: usize) -> Result<Run, NoMemory>
    ensures { IfOk result (λ run. AreRuns count (run ∷ [])) }
{
    let mut run = Seq::new(alloc);
    for number in 0..count {
        run.push(number)?;
    }
    Ok(run)
}

/// Marks the numbers of a run, and says whether all are below the length.
fn mark(seen: &mut Vec<bool>, run: &[usize]) -> bool
    ensures width { length seen.new.items ≡ length seen.old.items }
    ensures marked { result ≡ true → (n : ℕ) → slice_get seen.new.items n ≡ Some true → (slice_get seen.old.items n ≡ Some true) ⊎ Contains run.now n }
    ensures within { result ≡ true → (n : ℕ) → Contains run.now n → n < length seen.old.items }
{
    for number in run {
        if *number >= seen.len() {
            return false;
        }
        seen[*number] = true;
    }
    true
}

/// Whether all are true.
fn all_true(seen: &[bool]) -> bool
    ensures { result ≡ true → (n : ℕ) → n < length seen.now → slice_get seen.now n ≡ Some true }
{
    for one in seen {
        if !*one {
            return false;
        }
    }
    true
}

/// Whether each number below the count is in one of the runs, and no other number.
pub fn are_runs(alloc: Global, count: usize, runs: &[Run]) -> Result<bool, NoMemory>
    ensures { IfOk result (λ are. are ≡ true → AreRuns count runs.now) }
{
    let mut seen = vec![in alloc; false; count]?;
    for run in runs {
        if !mark(&mut seen, run.as_slice()) {
            return Ok(false);
        }
    }
    Ok(all_true(seen.as_slice()))
}

/// The numbers of the atoms, in runs one after another.
pub fn arranged(alloc: Global, atoms: &[Atom], given: &[Option<Val>]) -> Result<Vec<Run>, NoMemory>
    ensures { IfOk result (λ runs. AreRuns (length atoms.now) runs.items) }
{
    let runs = plan(alloc, atoms, given)?;
    if are_runs(alloc, atoms.len(), runs.as_slice())? {
        return Ok(runs);
    }
    let mut whole = Vec::new(alloc);
    whole.push(numbers(alloc, atoms.len())?)?;
    Ok(whole)
}
