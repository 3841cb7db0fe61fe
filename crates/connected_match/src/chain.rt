// The links of atoms: each atom with its variables numbered anew, so that only those with values from earlier atoms are carried on.
ghost use Rattle.std.specs.Prelude.{◌≡◌, ◌↔◌, ◌≤◌, ◌<◌, ◌++◌, [], ◌∷◌, IfOk, OnOk, IsTrue, map, fold, filter, length, true, nat_lt, replicate};
ghost use Rattle.meaning.specs.Triggers.{bound, terms_bound};
ghost use Rattle.connected_match.specs.Chains as chains;
ghost use Rattle.connected_match.specs.Chains.{place_in, local_in, with_term, given_at, IsChain, IsLink, AreFirsts, AreNoted, AreBelow, first_of, comes_before};

use homomorphism::Bindings;
use lists::{Copies, NoMemory, Seq};
use meaning::types::{Atom, Atoms, Term, Terms, Val};
use std::alloc::Global;

/// An atom, with its variables numbered anew: first those of the row that comes from the links before, then others of its own. Of these
/// others `values` has the given values, and none for one that is first named here. `kept` says which of all make the next row.
#[derive(Drop)]
pub struct Link {
    pub atoms: Atoms,
    pub values: Bindings,
    pub kept: Seq<usize>,
}

/// The links of the atoms.
pub fn chain(alloc: Global, atoms: Vec<Atom>, given: &[Option<Val>]) -> Result<Vec<Link>, NoMemory>
    requires { bound atoms.items ≤ length given.now }
    ensures { IfOk result (λ links. IsChain given.now [] atoms.items links.items) }
{
    let firsts = first_places(alloc, atoms.as_slice(), given.len())?;
    let mut links = Vec::with_capacity(alloc, atoms.len())?;
    let mut left = atoms;
    let mut next = Vec::new(alloc);
    while let Some(atom) = left.pop() {
        let row = row_before(
            alloc,
            &atom,
            next.as_slice(),
            firsts.as_slice(),
            left.len(),
            given,
        )?;
        links.push(linked(alloc, &atom, row.as_slice(), next.as_slice(), given)?)?;
        next = row;
    }
    links.reverse();
    Ok(links)
}

// For each variable the place of the first atom that names it, and the number of atoms for one that none names.
fn first_places(alloc: Global, atoms: &[Atom], width: usize) -> Result<Vec<usize>, NoMemory>
    requires { bound atoms.now ≤ width }
    ensures { IfOk result (λ firsts. AreFirsts atoms.now (length atoms.now) width firsts.items) }
{
    let mut firsts = all_at(alloc, atoms.len(), width)?;
    for (place, atom) in atoms.iter().enumerate() {
        note_first(atom.terms.as_slice(), place, &mut firsts);
    }
    Ok(firsts)
}

// So many times the place.
fn all_at(alloc: Global, place: usize, width: usize) -> Result<Vec<usize>, NoMemory>
    ensures { IfOk result (λ firsts. firsts.items ≡ replicate width place) }
{
    let mut firsts = Vec::with_capacity(alloc, width)?;
    for _ in 0..width {
        firsts.push(place)?;
    }
    Ok(firsts)
}

fn note_first(terms: &[Term], place: usize, firsts: &mut Vec<usize>)
    requires { terms_bound terms.now ≤ length firsts.old.items }
    ensures { AreNoted terms.now place firsts.old.items firsts.new.items }
{
    for term in terms {
        if let Term::Var(variable) = term {
            let variable = *variable as usize;
            firsts[variable] = firsts[variable].min(place);
        }
    }
}

// The variables of the row before an atom: those of the next row that an earlier atom names, and then the atom's own.
fn row_before(
    alloc: Global,
    atom: &Atom,
    next: &[u32],
    firsts: &[usize],
    place: usize,
    given: &[Option<Val>],
) -> Result<Vec<u32>, NoMemory>
    requires next { AreBelow next.now (length firsts.now) }
    requires own { terms_bound atom.now.terms ≤ length firsts.now }
    requires width { length firsts.now ≡ length given.now }
    ensures { IfOk result (λ row. row.items ≡ chains.row_before firsts.now place given.now next.now atom.now.terms) }
{
    let mut row = carried(alloc, next, firsts, place)?;
    for term in atom.terms.as_slice() {
        if comes_before(term, firsts, place, given) {
            add_name(&mut row, term)?;
        }
    }
    Ok(row)
}

// The variables that an earlier atom names.
fn carried(
    alloc: Global,
    variables: &[u32],
    firsts: &[usize],
    place: usize,
) -> Result<Vec<u32>, NoMemory>
    requires { AreBelow variables.now (length firsts.now) }
    ensures { IfOk result (λ row. row.items ≡ filter (λ x. nat_lt (first_of firsts.now x) place) variables.now) }
{
    let mut row = Vec::with_capacity(alloc, variables.len())?;
    for variable in variables {
        if firsts[*variable as usize] < place {
            row.push(*variable)?;
        }
    }
    Ok(row)
}

// Whether an earlier atom names the term's variable, which has no given value.
fn comes_before(term: &Term, firsts: &[usize], place: usize, given: &[Option<Val>]) -> bool
    requires own { terms_bound (term.now ∷ []) ≤ length firsts.now }
    requires width { length firsts.now ≡ length given.now }
    ensures { result ≡ comes_before firsts.now place given.now term.now }
{
    match term {
        Term::Const(_) => false,
        Term::Var(variable) => {
            let variable = *variable as usize;
            firsts[variable] < place && given[variable].is_none()
        }
    }
}

// Adds the term's variable as the last name, where it is not there.
fn add_name(names: &mut Vec<u32>, term: &Term) -> Result<(), NoMemory>
    ensures { OnOk result (names.new.items ≡ with_term names.old.items term.now) }
{
    if let Term::Var(variable) = term {
        if place_of(names.as_slice(), *variable) == names.len() {
            names.push(*variable)?;
        }
    }
    Ok(())
}

// The link of an atom between two rows of variables.
fn linked(
    alloc: Global,
    atom: &Atom,
    row: &[u32],
    next: &[u32],
    given: &[Option<Val>],
) -> Result<Link, NoMemory>
    requires { terms_bound atom.now.terms ≤ length given.now }
    ensures { IfOk result (IsLink given.now row.now atom.now next.now) }
{
    let names = names_from(alloc, row, atom.terms.as_slice())?;
    let mut atoms = Seq::new(alloc);
    atoms.push(Atom {
        rel: atom.rel,
        terms: local_terms(alloc, atom.terms.as_slice(), names.as_slice())?,
    })?;
    Ok(Link {
        atoms,
        values: values_of(alloc, &names[row.len()..], given)?,
        kept: places_of(alloc, next, names.as_slice())?,
    })
}

// The names of the row, and then the other variables of the terms.
fn names_from(alloc: Global, row: &[u32], terms: &[Term]) -> Result<Vec<u32>, NoMemory>
    ensures { IfOk result (λ names. names.items ≡ fold with_term row.now terms.now) }
{
    let mut names = Vec::from_slice(alloc, row)?;
    for term in terms {
        add_name(&mut names, term)?;
    }
    Ok(names)
}

// The terms, with the place of each variable among the names.
fn local_terms(alloc: Global, terms: &[Term], names: &[u32]) -> Result<Terms, NoMemory>
    ensures { IfOk result (λ locals. locals ≡ map (local_in names.now) terms.now) }
{
    let mut locals = Vec::with_capacity(alloc, terms.len())?;
    for term in terms {
        locals.push(local_term(alloc, term, names)?)?;
    }
    Ok(Seq::from_vec(locals))
}

// More names than there are numbers take more memory than there is.
fn local_term(alloc: Global, term: &Term, names: &[u32]) -> Result<Term, NoMemory>
    ensures { IfOk result (λ local. local ≡ local_in names.now term.now) }
{
    match term {
        Term::Const(text) => Ok(Term::Const(text.copy(alloc)?)),
        Term::Var(variable) => match u32::try_from(place_of(names, *variable)) {
            Ok(place) => Ok(Term::Var(place)),
            Err(_) => Err(NoMemory),
        },
    }
}

// The first place of the name, or how many names there are.
fn place_of(names: &[u32], name: u32) -> usize
    ensures { result ≡ place_in names.now name }
{
    let mut place = 0;
    let mut left = names;
    while let [first, rest @ ..] = left {
        if *first == name {
            return place;
        }
        place += 1;
        left = rest;
    }
    place
}

// The given values of the variables.
fn values_of(alloc: Global, variables: &[u32], given: &[Option<Val>]) -> Result<Bindings, NoMemory>
    requires { AreBelow variables.now (length given.now) }
    ensures { IfOk result (λ values. values ≡ map (given_at given.now) variables.now) }
{
    let mut values = Vec::with_capacity(alloc, variables.len())?;
    for variable in variables {
        values.push(given[*variable as usize].copy(alloc)?)?;
    }
    Ok(Seq::from_vec(values))
}

// The places of the variables among the names.
fn places_of(alloc: Global, variables: &[u32], names: &[u32]) -> Result<Seq<usize>, NoMemory>
    ensures { IfOk result (λ places. places ≡ map (place_in names.now) variables.now) }
{
    let mut places = Vec::with_capacity(alloc, variables.len())?;
    for variable in variables {
        places.push(place_of(names, *variable))?;
    }
    Ok(Seq::from_vec(places))
}
