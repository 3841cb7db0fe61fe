// One atom against one fact.
ghost use Rattle.std.specs.Prelude.{◌≡◌, ◌≤◌, [], ◌∷◌, length, IfOk, true, false};
ghost use Rattle.meaning.specs.Triggers.{terms_bound};
ghost use Rattle.homomorphism.specs.Narrowing.{Narrows, Differs, NarrowsIf};
ghost use Rattle.homomorphism.specs.Widening.{Touches};

use crate::assignment::Bindings;
use lists::{Copies, Exact, NoMemory, Seq};
use meaning::types::{Term, Val};
use std::alloc::Global;

/// Whether the term has another value than this one.
fn clashes(given: &[Option<Val>], term: &Term, val: &Val) -> bool
    requires { terms_bound (term.now ∷ []) ≤ length given.now }
    ensures { result ≡ true → Differs (term.now ∷ []) (val.now ∷ []) given.now }
{
    match term {
        Term::Const(text) => match val {
            Val::Const(other) => !text.same(other),
            Val::Label(_) => true,
        },
        Term::Var(variable) => match &given[*variable as usize] {
            Some(known) => !known.same(val),
            None => false,
        },
    }
}

/// Whether no term has another value than the one at its place. A test before any copy is made.
pub fn could_be(given: &[Option<Val>], terms: &[Term], vals: &[Val]) -> bool
    requires { terms_bound terms.now ≤ length given.now }
    ensures { result ≡ false → Differs terms.now vals.now given.now }
{
    if terms.len() != vals.len() {
        return false;
    }
    for (place, term) in terms.iter().enumerate() {
        if clashes(given, term, &vals[place]) {
            return false;
        }
    }
    true
}

/// Gives a term's variable this value, or says whether the term has it.
fn bind(
    alloc: Global,
    given: &mut Vec<Option<Val>>,
    term: &Term,
    val: &Val,
) -> Result<bool, NoMemory>
    requires { terms_bound (term.now ∷ []) ≤ length given.old.items }
    ensures yes { IfOk result (λ same. same ≡ true → Narrows (term.now ∷ []) (val.now ∷ []) given.old.items given.new.items) }
    ensures no { IfOk result (λ same. same ≡ false → Differs (term.now ∷ []) (val.now ∷ []) given.old.items) }
    ensures touched { Touches (term.now ∷ []) given.old.items given.new.items }
{
    match term {
        Term::Const(text) => match val {
            Val::Const(other) => Ok(text.same(other)),
            Val::Label(_) => Ok(false),
        },
        Term::Var(variable) => {
            let variable = *variable as usize;
            match &given[variable] {
                Some(known) => Ok(known.same(val)),
                None => {
                    given[variable] = Some(val.copy(alloc)?);
                    Ok(true)
                }
            }
        }
    }
}

/// Gives the variables of the terms these values, or says that they cannot have them; then some may have theirs.
pub fn bind_all(
    alloc: Global,
    given: &mut Vec<Option<Val>>,
    terms: &[Term],
    vals: &[Val],
) -> Result<bool, NoMemory>
    requires { terms_bound terms.now ≤ length given.old.items }
    ensures yes { IfOk result (λ same. same ≡ true → Narrows terms.now vals.now given.old.items given.new.items) }
    ensures no { IfOk result (λ same. same ≡ false → Differs terms.now vals.now given.old.items) }
    ensures touched { IfOk result (λ same. Touches terms.now given.old.items given.new.items) }
{
    let mut left = terms;
    let mut other = vals;
    while let [term, after @ ..] = left {
        let [val, more @ ..] = other else {
            return Ok(false);
        };
        if !bind(alloc, given, term, val)? {
            return Ok(false);
        }
        left = after;
        other = more;
    }
    Ok(other.is_empty())
}

/// The given values with those that make the terms these values, if there are such.
pub fn unify(
    alloc: Global,
    given: Bindings,
    terms: &[Term],
    vals: &[Val],
) -> Result<Option<Bindings>, NoMemory>
    requires { terms_bound terms.now ≤ length given }
    ensures { IfOk result (λ narrow. NarrowsIf terms.now vals.now given narrow) }
{
    let mut narrow = given.into_vec();
    if bind_all(alloc, &mut narrow, terms, vals)? {
        return Ok(Some(Seq::from_vec(narrow)));
    }
    Ok(None)
}
