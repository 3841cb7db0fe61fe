// Inclusion dependencies, which are tested by the keys of the head's facts.
ghost use Rattle.std.specs.Prelude.{◌≡◌, ◌↔◌, IsTrue, true, IfOk, IfSome, IfNone, option_copied};
ghost use Rattle.meaning.specs.Matching.{MeetsRule, itself, FactsOf};
ghost use Rattle.data_verify.specs.Breaking.{AreLeastBreaking};
ghost use Rattle.data_verify.specs.Inclusion.{is_inclusion, IsWithout, IsBelow, IsLeastIf};

use crate::broken::Facts;
use crate::fitting::fits_atom;
use crate::key_set::KeySet;
use crate::keys::{keys, shared_variables};
use lists::{Copies, NoMemory};
use meaning::types::{Atom, Fact, Rule};
use std::alloc::Global;

/// Whether the rule has one body atom and one head atom. Takes no memory.
pub fn is_inclusion(rule: &Rule) -> bool
    ensures { result ≡ is_inclusion rule.now }
{
    rule.body.len() == 1 && rule.head.len() == 1
}

/// The least fact of the body without a fact of the head, if there is one. It takes memory for the codes of the
/// head's facts.
pub fn least_without(
    alloc: Global,
    rule: &Rule,
    instance: &[Fact],
) -> Result<Option<Facts>, NoMemory>
    requires { is_inclusion rule.now ≡ true }
    ensures some { IfOk result (λ found. IfSome found (AreLeastBreaking instance.now rule.now)) }
    ensures none { IfOk result (λ found. IfNone found (MeetsRule itself (FactsOf instance.now) rule.now)) }
{
    let ([body], [head]) = (rule.body.as_slice(), rule.head.as_slice()) else {
        unreachable!()
    };
    let variables = shared_variables(alloc, body.terms.as_slice(), head.terms.as_slice())?;
    let keys = keys(alloc, head, variables.as_slice(), instance)?;
    match least(alloc, body, head, variables.as_slice(), &keys, instance)? {
        None => Ok(None),
        Some(fact) => {
            let mut facts = Facts::new(alloc);
            facts.push(fact.copy(alloc)?)?;
            Ok(Some(facts))
        }
    }
}

/// The fact with the least row among those that fit the body's atom and have none of the keys of the head's atom.
fn least<'a>(
    alloc: Global,
    body: &Atom,
    head: &Atom,
    variables: &[u32],
    keys: &KeySet<'_>,
    instance: &'a [Fact],
) -> Result<Option<&'a Fact>, NoMemory>
    ensures { IfOk result (λ least. IsLeastIf (IsWithout body.now head.now variables.now keys.now) instance.now (option_copied least)) }
{
    let mut least: Option<&Fact> = None;
    for fact in instance {
        if is_below(fact, least) && is_without(alloc, body, head, variables, keys, fact)? {
            least = Some(fact);
        }
    }
    Ok(least)
}

/// Whether the fact fits the body's atom and its key is none of these of the head's atom.
fn is_without(
    alloc: Global,
    body: &Atom,
    head: &Atom,
    variables: &[u32],
    keys: &KeySet<'_>,
    fact: &Fact,
) -> Result<bool, NoMemory>
    ensures { IfOk result (λ without. IsTrue without ↔ IsWithout body.now head.now variables.now keys.now fact.now) }
{
    if !fits_atom(body, fact) {
        return Ok(false);
    }
    let (own, terms) = (head.terms.as_slice(), body.terms.as_slice());
    Ok(!keys.contains(alloc, own, variables, terms, fact.row.as_slice())?)
}

/// Whether the fact's row is below that of the least so far, if there is one.
fn is_below(fact: &Fact, least: Option<&Fact>) -> bool
    ensures { IsTrue result ↔ IsBelow fact.now (option_copied least.entry) }
{
    match least {
        None => true,
        Some(first) => fact.row.cmp(&first.row).is_lt(),
    }
}
