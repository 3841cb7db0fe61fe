// The positions at which facts are found by their values.
ghost use Rattle.std.specs.Prelude.{◌≡◌};
ghost use Rattle.homomorphism.specs.Listed.{has_position, has_mark};

use crate::conditions::occurs;
use lists::{NoMemory, mix};
use meaning::types::{Atom, Rule, Term};
use std::alloc::Global;

/// How many positions of each relation can be marked.
const WIDTH: usize = 64;

/// Positions of relations by whose values the facts of a store are found: all, or those that are marked.
///
/// No clause says which are marked: where a position is not, facts are found by another one, or by the relation alone. So
/// a position that is left out makes a look-up slow and never wrong, and one that is marked in vain costs memory.
#[derive(Drop)]
pub struct Positions {
    all: bool,
    /// The marks of the first positions of each relation, one relation after another.
    marked: Vec<bool>,
    /// Made of the constants that are looked for.
    key: u64,
}

impl Positions {
    /// All positions. Takes no memory.
    pub fn all(alloc: Global) -> Positions {
        Positions {
            all: true,
            marked: Vec::new(alloc),
            key: 0,
        }
    }

    /// No position: facts are found by their relation alone. Takes no memory.
    pub fn none(alloc: Global) -> Positions {
        Positions {
            all: false,
            marked: Vec::new(alloc),
            key: 0,
        }
    }

    /// The positions at which a value can be known while the rules are tested: in a body after the atoms before, and in a
    /// head after the body.
    pub fn of_rules(alloc: Global, rules: &[Rule]) -> Result<Positions, NoMemory> {
        let mut marked = Vec::new(alloc);
        let mut key = 0;
        for rule in rules {
            let body = rule.body.as_slice();
            let head = rule.head.as_slice();
            mark_body(&mut marked, body)?;
            mark_head(&mut marked, body, head)?;
            key = mix_atoms(mix_atoms(key, body), head);
        }
        Ok(Positions {
            all: false,
            marked,
            key,
        })
    }

    /// Marks every position of these atoms, as for a query whose matches are looked for.
    pub fn add_atoms(&mut self, atoms: &[Atom]) -> Result<(), NoMemory> {
        if self.all {
            return Ok(());
        }
        for atom in atoms {
            mark_all(&mut self.marked, atom)?;
        }
        self.key = mix_atoms(self.key, atoms);
        Ok(())
    }

    /// The same positions with this number. Takes no memory.
    pub(crate) fn with_key(self, key: u64) -> Positions {
        Positions {
            all: self.all,
            marked: self.marked,
            key,
        }
    }

    /// The number with which hashes of facts begin: no clause says which. Takes no memory.
    pub(crate) fn key(&self) -> u64 {
        self.key
    }

    /// Whether the position of the relation is one of these. Takes no memory.
    pub(crate) fn has(&self, rel: u32, position: usize) -> bool
        ensures { result ≡ has_position self.now rel position }
    {
        self.all || has_mark(self.marked.as_slice(), rel, position)
    }
}

/// Whether the position of the relation is marked. Takes no memory.
fn has_mark(marked: &[bool], rel: u32, position: usize) -> bool
    ensures { result ≡ has_mark marked.now rel position }
{
    if position >= WIDTH {
        return false;
    }
    match marked.get(rel as usize * WIDTH + position) {
        Some(mark) => *mark,
        None => false,
    }
}

/// Marks the position of the relation, if it can be marked.
fn mark(marked: &mut Vec<bool>, rel: u32, position: usize) -> Result<(), NoMemory> {
    if position >= WIDTH {
        return Ok(());
    }
    let place = rel as usize * WIDTH + position;
    for _ in marked.len()..=place {
        marked.push(false)?;
    }
    if let Some(mark) = marked.get_mut(place) {
        *mark = true;
    }
    Ok(())
}

/// Marks every position of the atom.
fn mark_all(marked: &mut Vec<bool>, atom: &Atom) -> Result<(), NoMemory> {
    for position in 0..atom.terms.len() {
        mark(marked, atom.rel, position)?;
    }
    Ok(())
}

/// Marks where an atom has a value once those before it are facts.
fn mark_body(marked: &mut Vec<bool>, body: &[Atom]) -> Result<(), NoMemory> {
    for (number, atom) in body.iter().enumerate() {
        mark_known(marked, &body[..number], atom)?;
    }
    Ok(())
}

/// Marks where an atom of the head has a value once the body and the other atoms are facts.
fn mark_head(marked: &mut Vec<bool>, body: &[Atom], head: &[Atom]) -> Result<(), NoMemory> {
    for (number, atom) in head.iter().enumerate() {
        mark_known(marked, body, atom)?;
        mark_known(marked, &head[..number], atom)?;
        mark_known(marked, &head[number + 1..], atom)?;
    }
    Ok(())
}

/// Marks where the atom has a constant or a variable of the other atoms.
fn mark_known(marked: &mut Vec<bool>, others: &[Atom], atom: &Atom) -> Result<(), NoMemory> {
    for (position, term) in atom.terms.as_slice().iter().enumerate() {
        if is_known(others, term) {
            mark(marked, atom.rel, position)?;
        }
    }
    Ok(())
}

/// Whether the term is a constant or a variable of the atoms.
fn is_known(atoms: &[Atom], term: &Term) -> bool {
    match term {
        Term::Var(variable) => occurs(atoms, *variable as usize),
        Term::Const(_) => true,
    }
}

/// A number with the constants of the atoms mixed in. Takes no memory.
fn mix_atoms(key: u64, atoms: &[Atom]) -> u64 {
    let mut mixed = key;
    for atom in atoms {
        for term in atom.terms.as_slice() {
            if let Term::Const(text) = term {
                mixed = mix(mixed, text.as_bytes());
            }
        }
    }
    mixed
}
