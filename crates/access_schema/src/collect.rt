// The variables and the constants of atoms, each once.
ghost use Rattle.std.specs.Prelude.{◌≡◌, ◌<◌, ◌++◌, length, not, nat_lt, filter_map, IfOk, IsTrue, option_copied};
ghost use Rattle.access_schema.specs.Lists.{once_after};
ghost use Rattle.access_schema.specs.Content.{named_terms};
ghost use Rattle.access_schema.specs.Wanted.{text_of};

use crate::names::add_once;
use crate::part::{NamedAtom, NamedTerm};
use lists::Text;
use std::alloc::{AllocError, Global};

/// Which texts of terms are collected.
#[derive(Clone, Copy)]
pub enum Wanted {
    Variables,
    Constants,
}

/// The text of a term where it is wanted.
pub fn text_of<'a>(wanted: Wanted, term: &'a NamedTerm) -> Option<&'a Text>
    ensures { option_copied result ≡ text_of wanted term.now }
{
    match (wanted, term) {
        (Wanted::Variables, NamedTerm::Var(name)) => Some(name),
        (Wanted::Constants, NamedTerm::Const(text)) => Some(text),
        _ => None,
    }
}

/// Adds the wanted texts of the terms to the known ones, and says whether these are still at most so many.
///
/// It ends early where they are more.
fn add_terms(
    alloc: Global,
    known: &mut Vec<Text>,
    wanted: Wanted,
    most: usize,
    terms: &[NamedTerm],
) -> Result<bool, AllocError>
    ensures fits { IfOk result (λ fits. fits ≡ not (nat_lt most (length (once_after known.old.items (filter_map (text_of wanted) terms.now))))) }
    ensures texts { IfOk result (λ fits. IsTrue fits → known.new.items ≡ once_after known.old.items (filter_map (text_of wanted) terms.now)) }
{
    let mut left = terms;
    while let [term, rest @ ..] = left {
        if most < known.len() {
            return Ok(false);
        }
        if let Some(text) = text_of(wanted, term) {
            add_once(alloc, known, text)?;
        }
        left = rest;
    }
    Ok(known.len() <= most)
}

/// Adds the wanted texts of the atoms to the known ones, and says whether these are still at most so many.
fn add_atoms(
    alloc: Global,
    known: &mut Vec<Text>,
    wanted: Wanted,
    most: usize,
    atoms: &[NamedAtom],
) -> Result<bool, AllocError>
    ensures fits { IfOk result (λ fits. fits ≡ not (nat_lt most (length (once_after known.old.items (filter_map (text_of wanted) (named_terms atoms.now)))))) }
    ensures texts { IfOk result (λ fits. IsTrue fits → known.new.items ≡ once_after known.old.items (filter_map (text_of wanted) (named_terms atoms.now))) }
{
    let mut left = atoms;
    while let [atom, rest @ ..] = left {
        if !add_terms(alloc, known, wanted, most, atom.terms.as_slice())? {
            return Ok(false);
        }
        left = rest;
    }
    Ok(known.len() <= most)
}

/// Adds the wanted texts of a rule to the known ones, and says whether these are still at most so many.
#[tactic(auto, using(crate::proofs::Collected::once_both, crate::proofs::Collected::once_both_over))]
pub fn add_rule(
    alloc: Global,
    known: &mut Vec<Text>,
    wanted: Wanted,
    most: usize,
    body: &[NamedAtom],
    head: &[NamedAtom],
) -> Result<bool, AllocError>
    ensures fits { IfOk result (λ fits. fits ≡ not (nat_lt most (length (once_after known.old.items (filter_map (text_of wanted) (named_terms (body.now ++ head.now))))))) }
    ensures texts { IfOk result (λ fits. IsTrue fits → known.new.items ≡ once_after known.old.items (filter_map (text_of wanted) (named_terms (body.now ++ head.now)))) }
{
    if !add_atoms(alloc, known, wanted, most, body)? {
        return Ok(false);
    }
    let fits = add_atoms(alloc, known, wanted, most, head)?;
    Ok(fits)
}
