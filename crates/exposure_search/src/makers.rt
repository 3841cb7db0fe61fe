// The rules that can make an atom's facts.
ghost use Rattle.std.specs.Prelude.{◌≡◌, ◌<◌, ◌≤◌, ℕ, Contains, length, true, false};
ghost use Rattle.meaning.specs.declared.types.Atom.{Atom as TheAtom};
ghost use Rattle.meaning.specs.declared.types.Ground.{Ground};
ghost use Rattle.meaning.specs.declared.types.Val.{Val as TheVal};
ghost use Rattle.meaning.specs.declared.types.Val.TheVariants.{Const, Label};
ghost use Rattle.meaning.specs.Matching.{value_of};
ghost use Rattle.homomorphism.specs.Bindings.{Agrees};
ghost use Rattle.exposure_search.specs.Relevance.{IsMade, Makes, NeverMeet, NeverMatch};

use homomorphism::variables_width;
use meaning::types::{Atom, Rule, Term, Val};

/// Whether the rule can make a fact that is also one of the atoms', with labels from `next` on: an existential variable of it
/// stands nowhere where the atom has a constant or a given older value. Takes no memory.
pub(crate) fn serves_some(given: &[Option<Val>], next: u32, rule: &Rule, atoms: &[Atom]) -> bool
    ensures { result ≡ false → (fact : Ground) → Makes next rule.now fact → IsMade given.now atoms.now fact → ⊥ }
{
    let width = variables_width(rule.body.as_slice());
    for atom in atoms {
        if serves(given, next, width, rule.head.as_slice(), atom) {
            return true;
        }
    }
    false
}

/// Whether one of the head's atoms can make the atom's fact. Variables from `width` on are existential.
fn serves(given: &[Option<Val>], next: u32, width: usize, head: &[Atom], atom: &Atom) -> bool
    ensures { result ≡ false → (made : TheAtom) → Contains head.now made → made.rel ≡ atom.now.rel →
        NeverMatch given.now next width made.terms atom.now.terms }
{
    for made in head {
        if can_make(given, next, width, made, atom) {
            return true;
        }
    }
    false
}

/// Whether the head's atom can make the other atom's fact.
fn can_make(given: &[Option<Val>], next: u32, width: usize, made: &Atom, atom: &Atom) -> bool
    ensures { result ≡ false → made.now.rel ≡ atom.now.rel →
        NeverMatch given.now next width made.now.terms atom.now.terms }
{
    if made.rel != atom.rel {
        return false;
    }
    can_match(
        given,
        next,
        width,
        made.terms.as_slice(),
        atom.terms.as_slice(),
    )
}

/// Whether the terms can have the same values.
fn can_match(given: &[Option<Val>], next: u32, width: usize, made: &[Term], asked: &[Term]) -> bool
    ensures { result ≡ false → NeverMatch given.now next width made.now asked.now }
{
    if made.len() != asked.len() {
        return false;
    }
    for (place, term) in made.iter().enumerate() {
        if !can_meet(given, next, width, term, &asked[place]) {
            return false;
        }
    }
    true
}

/// Whether the terms can have the same value.
fn can_meet(given: &[Option<Val>], next: u32, width: usize, made: &Term, asked: &Term) -> bool
    ensures { result ≡ false → NeverMeet given.now next width made.now asked.now }
{
    match made {
        Term::Var(variable) => (*variable as usize) < width || !is_fixed(given, next, asked),
        Term::Const(_) => true,
    }
}

/// Whether the term is a constant or has a given value that is no label from `next` on.
fn is_fixed(given: &[Option<Val>], next: u32, term: &Term) -> bool
    ensures { result ≡ true → (a : ℕ → TheVal) (k : ℕ) → Agrees given.now a → value_of Const a term.now ≡ Label k → k < next }
{
    match term {
        Term::Const(_) => true,
        Term::Var(variable) => match given.get(*variable as usize) {
            Some(Some(val)) => is_older(val, next),
            _ => false,
        },
    }
}

/// Whether the value is no label from `next` on.
fn is_older(val: &Val, next: u32) -> bool
    ensures { result ≡ true → (k : ℕ) → val.now ≡ Label k → k < next }
{
    match val {
        Val::Const(_) => true,
        Val::Label(label) => *label < next,
    }
}
