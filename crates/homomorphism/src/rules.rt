// Matches of a rule's body, and whether they extend to its head.
ghost use Rattle.std.specs.Prelude.{◌≡◌, length, true, false, IfOk, IfSome, IfNone};
ghost use Rattle.meaning.specs.declared.types.Val.TheVariants.{Const};
ghost use Rattle.meaning.specs.Triggers.{terms_bound, bound, IsNumbered};
ghost use Rattle.meaning.specs.Matching.{MeetsRule, GroundsOf};
ghost use Rattle.homomorphism.specs.Narrowing.{Gives};
ghost use Rattle.homomorphism.specs.Rules.{AreBodyMatches, IsMet, IsUnmet, IsUnmetMatch};

use crate::assignment::{Assignment, Assignments, Bindings};
use crate::find::all_matches;
use crate::head::Head;
use crate::search::search;
use crate::store::Store;
use crate::walk::Walk;
use lists::{Copies, NoMemory, Seq};
use meaning::types::{Atom, Rule, Term, Val};
use std::alloc::Global;

/// One more than the greatest variable of the terms.
fn terms_width(terms: &[Term]) -> usize
    ensures { result ≡ terms_bound terms.now }
{
    let mut width = 0;
    let mut left = terms;
    while let [term, rest @ ..] = left {
        if let Term::Var(variable) = term {
            width = width.max(*variable as usize + 1);
        }
        left = rest;
    }
    width
}

/// One more than the greatest variable of the atoms.
pub fn variables_width(atoms: &[Atom]) -> usize
    ensures { result ≡ bound atoms.now }
{
    let mut width = 0;
    let mut left = atoms;
    while let [atom, rest @ ..] = left {
        width = width.max(terms_width(atom.terms.as_slice()));
        left = rest;
    }
    width
}

/// These values for the first variables, and none for others below the width.
pub fn given(alloc: Global, values: &[Val], width: usize) -> Result<Bindings, NoMemory>
    ensures { IfOk result (λ fixed. Gives values.now width fixed) }
{
    let mut fixed = Vec::with_capacity(alloc, width)?;
    for value in values {
        fixed.push(Some(value.copy(alloc)?))?;
    }
    while fixed.len() < width {
        fixed.push(None)?;
    }
    Ok(Seq::from_vec(fixed))
}

/// All matches of the rule's body, each once.
pub fn body_matches(alloc: Global, rule: &Rule, store: &Store) -> Result<Assignments, NoMemory>
    requires { IsNumbered rule.now }
    ensures { IfOk result (λ found. AreBodyMatches store.now rule.now found) }
{
    let width = variables_width(rule.body.as_slice());
    let none = Vec::new(alloc);
    let fixed = given(alloc, none.as_slice(), width)?;
    let found = all_matches(alloc, &rule.body, store, &fixed)?;
    Ok(found)
}

/// Whether the values of the body variables extend to values that make the head atoms facts.
pub fn is_met(alloc: Global, rule: &Rule, store: &Store, values: &[Val]) -> Result<bool, NoMemory>
    requires numbered { IsNumbered rule.now }
    requires width { length values.now ≡ bound rule.now.body }
    ensures met { IfOk result (λ met. met ≡ true → IsMet store.now rule.now values.now) }
    ensures unmet { IfOk result (λ met. met ≡ false → IsUnmet store.now rule.now values.now) }
{
    let width = variables_width(rule.head.as_slice());
    let fixed = given(alloc, values, width)?;
    if let Some(_values) = search(alloc, rule.head.as_slice(), store, fixed)? {
        return Ok(true);
    }
    Ok(false)
}

/// A match of the body at which the rule is unmet; none comes exactly where the facts meet the rule.
pub fn first_unmet(
    alloc: Global,
    rule: &Rule,
    store: &Store,
) -> Result<Option<Assignment>, NoMemory>
    requires { IsNumbered rule.now }
    ensures some { IfOk result (λ found. IfSome found (λ m. IsUnmetMatch store.now rule.now m.vals)) }
    ensures none { IfOk result (λ found. IfNone found (MeetsRule Const (GroundsOf store.now) rule.now)) }
{
    let head = Head::of(alloc, rule)?;
    let mut walk = Walk::over(alloc, rule, store)?;
    while let Some(one) = walk.next(alloc)? {
        if !head.is_met(alloc, rule, store, &one)? {
            return Ok(Some(one));
        }
    }
    Ok(None)
}
