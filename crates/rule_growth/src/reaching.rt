// The relations of which there are facts, or can be.

use crate::marks::{is_marked, set};
use homomorphism::Store;
use lists::NoMemory;
use meaning::types::{Atom, Rule};
use std::alloc::Global;

/// A mark for each relation of the facts, and for each of the head of a rule whose body has marked relations alone.
pub fn reachable(alloc: Global, rules: &[Rule], facts: &Store) -> Result<Vec<bool>, NoMemory> {
    let mut marks = Vec::new(alloc);
    for number in 0..facts.len() {
        if let Some(fact) = facts.get(number) {
            set(&mut marks, fact.rel as usize)?;
        }
    }
    // each round but the last reaches the head of a further rule
    for _ in 0..=rules.len() {
        if !reach(&mut marks, rules)? {
            break;
        }
    }
    Ok(marks)
}

/// Marks the heads of the rules whose bodies are marked. Whether one was not.
fn reach(marks: &mut Vec<bool>, rules: &[Rule]) -> Result<bool, NoMemory> {
    let mut more = false;
    for rule in rules {
        if are_marked(marks.as_slice(), rule.body.as_slice())
            && !are_marked(marks.as_slice(), rule.head.as_slice())
        {
            mark_atoms(marks, rule.head.as_slice())?;
            more = true;
        }
    }
    Ok(more)
}

/// Marks the relations of the atoms.
pub fn mark_atoms(marks: &mut Vec<bool>, atoms: &[Atom]) -> Result<(), NoMemory> {
    for atom in atoms {
        set(marks, atom.rel as usize)?;
    }
    Ok(())
}

/// Whether the relation of each atom is marked. Takes no memory.
pub fn are_marked(marks: &[bool], atoms: &[Atom]) -> bool {
    atoms.iter().all(|atom| is_marked(marks, atom.rel as usize))
}

/// Whether the relation of some atom is marked. Takes no memory.
pub fn is_some_marked(marks: &[bool], atoms: &[Atom]) -> bool {
    atoms.iter().any(|atom| is_marked(marks, atom.rel as usize))
}
