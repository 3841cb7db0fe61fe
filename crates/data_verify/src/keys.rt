// The variables that two atoms share, and the keys that the facts of an atom have.
ghost use Rattle.std.specs.Prelude.{◌≡◌, ◌↔◌, IsTrue, Contains, IfOk};
ghost use Rattle.meaning.specs.declared.types.Term.TheVariants.{Var};
ghost use Rattle.data_verify.specs.Inclusion.{AreShared, AreKeys};

use crate::fitting::{fits_atom, is_variable};
use crate::key_set::KeySet;
use lists::NoMemory;
use meaning::types::{Atom, Fact, Term};
use std::alloc::Global;

/// The variables of the head's terms that the body's terms have too.
pub fn shared_variables(alloc: Global, body: &[Term], head: &[Term]) -> Result<Vec<u32>, NoMemory>
    ensures { IfOk result (λ shared. AreShared body.now head.now shared.items) }
{
    let mut shared = Vec::new(alloc);
    for term in head {
        match term {
            Term::Const(_) => {}
            Term::Var(variable) => {
                if has_variable(body, *variable) {
                    shared.push(*variable)?;
                }
            }
        }
    }
    Ok(shared)
}

/// Whether the variable is one of the terms.
fn has_variable(terms: &[Term], variable: u32) -> bool
    ensures { IsTrue result ↔ Contains terms.now (Var variable) }
{
    for term in terms {
        if is_variable(term, variable) {
            return true;
        }
    }
    false
}

/// The keys of the facts that fit the atom.
pub fn keys<'a>(
    alloc: Global,
    atom: &Atom,
    variables: &[u32],
    instance: &'a [Fact],
) -> Result<KeySet<'a>, NoMemory>
    ensures { IfOk result (λ keys. AreKeys instance.now atom.now variables.now keys) }
{
    let mut keys = KeySet::new(alloc);
    for fact in instance {
        if fits_atom(atom, fact) {
            keys.insert(alloc, atom.terms.as_slice(), variables, fact.row.as_slice())?;
        }
    }
    Ok(keys)
}
