// Atoms in an order in which connected ones follow each other. Any order is right; a connected one leaves few values between two atoms.
ghost use Rattle.std.specs.Prelude.{◌<◌, IfOk, OnOk, length};
ghost use Rattle.connected_match.specs.Orders.{HasSame, IsPlaced, IsArranging, StaysPlaced};

use lists::{Copies, NoMemory};
use meaning::types::{Atom, Term, Val};
use std::alloc::Global;

/// The atoms, each once for each of its numbers: connected ones follow each other, and of connected ones one with a known value is first.
pub fn arranged(alloc: Global, atoms: &[Atom], given: &[Option<Val>]) -> Result<Vec<Atom>, NoMemory>
    ensures { IfOk result (λ ordered. HasSame atoms.now ordered.items) }
{
    let numbers = connected(alloc, atoms, given)?;
    let mut arranging = nothing_placed(alloc, atoms)?;
    arranging.place_some(alloc, atoms, numbers.as_slice())?;
    arranging.place_all(alloc, atoms)?;
    Ok(arranging.ordered)
}

/// The atoms so far, and which numbers are placed.
#[derive(Drop)]
struct Arranging {
    ordered: Vec<Atom>,
    placed: Vec<bool>,
}

fn nothing_placed(alloc: Global, atoms: &[Atom]) -> Result<Arranging, NoMemory>
    ensures { IfOk result (IsArranging atoms.now) }
{
    let mut placed = Vec::with_capacity(alloc, atoms.len())?;
    for _ in 0..atoms.len() {
        placed.push(false)?;
    }
    Ok(Arranging {
        ordered: Vec::with_capacity(alloc, atoms.len())?,
        placed,
    })
}

impl Arranging {
    /// Places the atoms of these numbers, each that is not placed yet.
    fn place_some(
        &mut self,
        alloc: Global,
        atoms: &[Atom],
        numbers: &[usize],
    ) -> Result<(), NoMemory>
        requires { IsArranging atoms.now self.old }
        ensures { OnOk result (IsArranging atoms.now self.new) }
    {
        for number in numbers {
            if *number < atoms.len() {
                self.place(alloc, atoms, *number)?;
            }
        }
        Ok(())
    }

    /// Places the atoms that are not placed yet.
    fn place_all(&mut self, alloc: Global, atoms: &[Atom]) -> Result<(), NoMemory>
        requires { IsArranging atoms.now self.old }
        ensures { OnOk result (HasSame atoms.now self.new.ordered.items) }
    {
        for number in 0..atoms.len() {
            self.place(alloc, atoms, number)?;
        }
        Ok(())
    }

    /// Places the atom of that number, unless it is placed.
    fn place(&mut self, alloc: Global, atoms: &[Atom], number: usize) -> Result<(), NoMemory>
        requires arranging { IsArranging atoms.now self.old }
        requires there { number < length atoms.now }
        ensures arranging { OnOk result (IsArranging atoms.now self.new) }
        ensures placed { OnOk result (IsPlaced self.new number) }
        ensures stays { OnOk result (StaysPlaced self.old self.new) }
    {
        if !self.placed[number] {
            self.ordered.push(atoms[number].copy(alloc)?)?;
            self.placed[number] = true;
        }
        Ok(())
    }
}

// Numbers of the atoms, in an order in which those that share a variable without a given value follow each other. Some come again later.
fn connected(alloc: Global, atoms: &[Atom], given: &[Option<Val>]) -> Result<Vec<usize>, NoMemory> {
    let mut naming = naming(alloc, atoms, given)?;
    let mut waiting = starts(alloc, atoms, given)?;
    let mut numbers = Vec::with_capacity(alloc, atoms.len())?;
    for _ in 0..usize::MAX {
        let Some(number) = waiting.pop() else {
            break;
        };
        numbers.push(number)?;
        if let Some(atom) = atoms.get(number) {
            wait_for_neighbours(atom, &mut naming, &mut waiting)?;
        }
    }
    Ok(numbers)
}

// Adds the atoms that name a variable of the atom to those that wait, unless they were added by another atom.
fn wait_for_neighbours(
    atom: &Atom,
    naming: &mut Vec<Vec<usize>>,
    waiting: &mut Vec<usize>,
) -> Result<(), NoMemory> {
    for term in atom.terms.as_slice() {
        if let Term::Var(variable) = term {
            if let Some(others) = naming.get_mut(*variable as usize) {
                waiting.append(others)?;
            }
        }
    }
    Ok(())
}

// For each variable the numbers of the atoms that name it, and none for a variable with a given value.
fn naming(
    alloc: Global,
    atoms: &[Atom],
    given: &[Option<Val>],
) -> Result<Vec<Vec<usize>>, NoMemory> {
    let mut naming = Vec::with_capacity(alloc, given.len())?;
    for _ in given {
        naming.push(Vec::new(alloc))?;
    }
    for (number, atom) in atoms.iter().enumerate() {
        note_names(atom, number, given, &mut naming)?;
    }
    Ok(naming)
}

fn note_names(
    atom: &Atom,
    number: usize,
    given: &[Option<Val>],
    naming: &mut Vec<Vec<usize>>,
) -> Result<(), NoMemory> {
    for term in atom.terms.as_slice() {
        if let Term::Var(variable) = term {
            if let (Some(None), Some(numbers)) = (
                given.get(*variable as usize),
                naming.get_mut(*variable as usize),
            ) {
                numbers.push(number)?;
            }
        }
    }
    Ok(())
}

// The numbers of all atoms, those with a known value behind the others, and each part descending.
fn starts(alloc: Global, atoms: &[Atom], given: &[Option<Val>]) -> Result<Vec<usize>, NoMemory> {
    let mut unknown = Vec::with_capacity(alloc, atoms.len())?;
    let mut known = Vec::new(alloc);
    for back in 0..atoms.len() {
        let number = atoms.len() - 1 - back;
        if has_known_value(&atoms[number], given) {
            known.push(number)?;
        } else {
            unknown.push(number)?;
        }
    }
    unknown.append(&mut known)?;
    Ok(unknown)
}

fn has_known_value(atom: &Atom, given: &[Option<Val>]) -> bool {
    atom.terms.as_slice().iter().any(|term| match term {
        Term::Const(_) => true,
        Term::Var(variable) => matches!(given.get(*variable as usize), Some(Some(_))),
    })
}
