// One atom after another, with values that are given in place and taken back.
ghost use Rattle.std.specs.Prelude.{◌≡◌, ◌<◌, ◌≤◌, ◌∷◌, [], ℕ, List, Contains, Option, Some, None, length, slice_get, true, false, IfOk, IfSome, IfNone};
ghost use Rattle.meaning.specs.declared.types.Term.{Term as TheTerm};
ghost use Rattle.meaning.specs.declared.types.Term.TheVariants.{Var};
ghost use Rattle.meaning.specs.declared.types.Val.{Val as TheVal};
ghost use Rattle.meaning.specs.Triggers.{terms_bound, bound, ground};
ghost use Rattle.homomorphism.specs.Bindings.{Agrees};
ghost use Rattle.homomorphism.specs.Ways.{IsWay};
ghost use Rattle.homomorphism.specs.Matches.{NoMatch};
ghost use Rattle.homomorphism.specs.Widening.{Touches, AreFree, Widens, taken};

use crate::bind::bind_all;
use crate::store::Store;
use lists::NoMemory;
use meaning::types::{Atom, Ground, Term, Val};
use std::alloc::Global;

/// The term's variable, where it has no value. Takes no memory.
fn free_variable(term: &Term, given: &[Option<Val>]) -> Option<usize>
    requires { terms_bound (term.now ∷ []) ≤ length given.now }
    ensures some { IfSome result (λ x. (term.now ≡ Var x) × (slice_get given.now x ≡ Some None)) }
    ensures none { IfNone result ((x : ℕ) → term.now ≡ Var x → slice_get given.now x ≡ Some None → ⊥) }
{
    match term {
        Term::Const(_) => None,
        Term::Var(variable) => {
            let variable = *variable as usize;
            match &given[variable] {
                Some(_) => None,
                None => Some(variable),
            }
        }
    }
}

/// The variables of the terms that have no value.
pub fn free_variables(
    alloc: Global,
    terms: &[Term],
    given: &[Option<Val>],
) -> Result<Vec<usize>, NoMemory>
    requires { terms_bound terms.now ≤ length given.now }
    ensures { IfOk result (λ free. AreFree terms.now given.now free.items) }
{
    let mut free = Vec::new(alloc);
    for term in terms {
        if let Some(variable) = free_variable(term, given) {
            free.push(variable)?;
        }
    }
    Ok(free)
}

/// Takes the values of these variables back. Takes no memory.
pub fn release(given: &mut Vec<Option<Val>>, free: &[usize])
    requires { (x : ℕ) → Contains free.now x → x < length given.old.items }
    ensures { (terms : List TheTerm) (before : List (Option TheVal)) → AreFree terms before free.now → Touches terms before given.old.items → given.new.items ≡ before }
{
    for variable in free {
        given[*variable] = None;
    }
}

/// Gives the atom's variables the values of the fact, if they can have them; if not, nothing changes. `free` are the
/// atom's variables without a value.
pub fn take_fact(
    alloc: Global,
    atom: &Atom,
    fact: &Ground,
    free: &[usize],
    given: &mut Vec<Option<Val>>,
) -> Result<bool, NoMemory>
    requires fits { terms_bound atom.now.terms ≤ length given.old.items }
    requires free { AreFree atom.now.terms given.old.items free.now }
    ensures yes { IfOk result (λ took. took ≡ true → IsWay fact.now atom.now given.old.items given.new.items) }
    ensures touched { IfOk result (λ took. took ≡ true → Touches atom.now.terms given.old.items given.new.items) }
    ensures no { IfOk result (λ took. took ≡ false → (a : ℕ → TheVal) → Agrees given.old.items a → ground a atom.now ≡ fact.now → ⊥) }
    ensures same { IfOk result (λ took. took ≡ false → given.new.items ≡ given.old.items) }
{
    let terms = atom.terms.as_slice();
    let vals = fact.vals.as_slice();
    if fact.rel != atom.rel {
        return Ok(false);
    }
    if bind_all(alloc, given, terms, vals)? {
        return Ok(true);
    }
    release(given, free);
    Ok(false)
}

/// Gives more values, so that the atoms with these numbers are facts of the store, and says whether there are such
/// values; if not, nothing changes.
pub fn extend(
    alloc: Global,
    atoms: &[Atom],
    order: &[usize],
    store: &Store,
    given: &mut Vec<Option<Val>>,
) -> Result<bool, NoMemory>
    requires fits { bound atoms.now ≤ length given.old.items }
    requires within { (n : ℕ) → Contains order.now n → n < length atoms.now }
    ensures found { IfOk result (λ found. found ≡ true → Widens store.now (taken atoms.now order.now) given.old.items given.new.items) }
    ensures none { IfOk result (λ found. found ≡ false → NoMatch store.now (taken atoms.now order.now) given.old.items) }
    ensures same { IfOk result (λ found. found ≡ false → given.new.items ≡ given.old.items) }
{
    let [place, rest @ ..] = order else {
        return Ok(true);
    };
    let atom = &atoms[*place];
    let free = free_variables(alloc, atom.terms.as_slice(), given.as_slice())?;
    let facts = store.facts();
    for number in store.candidates(alloc, atom, given.as_slice())? {
        if take_fact(alloc, atom, &facts[*number], free.as_slice(), given)? {
            if extend(alloc, atoms, rest, store, given)? {
                return Ok(true);
            }
            release(given, free.as_slice());
        }
    }
    Ok(false)
}
