// Whether queries have a row on labelled facts.
ghost use Rattle.std.specs.Prelude.{◌≡◌, ◌↔◌, ◌≤◌, IsTrue, IfOk, None, Some, true, false, replicate};
ghost use Rattle.meaning.specs.declared.types.Val.TheVariants.{Const};
ghost use Rattle.meaning.specs.Matching.{IsQueryAnswer, GroundsOf};
ghost use Rattle.accessible_copy.specs.Goals.{IsCounted};
ghost use Rattle.plan_check.specs.Trials.{AreCounted, FormIsCounted, FormHas, SomeHas};

use connected_match::has_match;
use homomorphism::{Bindings, Store, unify};
use lists::{NoMemory, Seq};
use meaning::types::{Query, Val};
use std::alloc::Global;

/// Whether one of the queries has the head as a row on the facts of the store.
pub fn some_has(
    alloc: Global,
    forms: &[Option<Query>],
    store: &Store,
    head: &[Val],
) -> Result<bool, NoMemory>
    requires { AreCounted forms.now }
    ensures yes { IfOk result (λ has. has ≡ true → SomeHas store.now forms.now head.now) }
    ensures no { IfOk result (λ has. has ≡ false → SomeHas store.now forms.now head.now → ⊥) }
{
    for form in forms {
        let found = has(alloc, form, store, head)?;
        if found {
            return Ok(true);
        }
    }
    Ok(false)
}

// Whether the query, if there is one, has the head as a row.
fn has(alloc: Global, form: &Option<Query>, store: &Store, head: &[Val]) -> Result<bool, NoMemory>
    requires { FormIsCounted form.now }
    ensures yes { IfOk result (λ has. has ≡ true → FormHas store.now head.now form.now) }
    ensures no { IfOk result (λ has. has ≡ false → FormHas store.now head.now form.now → ⊥) }
{
    match form {
        Some(query) => query_has(alloc, query, store, head),
        None => Ok(false),
    }
}

// Whether the query has the head as a row.
fn query_has(alloc: Global, query: &Query, store: &Store, head: &[Val]) -> Result<bool, NoMemory>
    requires { IsCounted query.now }
    ensures yes { IfOk result (λ has. has ≡ true → IsQueryAnswer Const (GroundsOf store.now) query.now head.now) }
    ensures no { IfOk result (λ has. has ≡ false → IsQueryAnswer Const (GroundsOf store.now) query.now head.now → ⊥) }
{
    let given = no_values(alloc, query.variables as usize)?;
    match unify(alloc, given, query.head.as_slice(), head)? {
        Some(narrow) => Ok(has_match(alloc, &query.atoms, store, &narrow)?),
        None => Ok(false),
    }
}

// No value for so many variables.
fn no_values(alloc: Global, count: usize) -> Result<Bindings, NoMemory>
    ensures { IfOk result (λ given. given ≡ replicate count None) }
{
    let mut given = Vec::with_capacity(alloc, count)?;
    for _ in 0..count {
        given.push(None)?;
    }
    Ok(Seq::from_vec(given))
}
