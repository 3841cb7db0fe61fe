// The least facts that show that a rule is not met.
ghost use Rattle.std.specs.Prelude.{◌≡◌, ◌∷◌, IfOk, IfSome, IfNone};
ghost use Rattle.meaning.specs.declared.types.Val.TheVariants.{Const};
ghost use Rattle.meaning.specs.Triggers.{IsNumbered};
ghost use Rattle.meaning.specs.Matching.{MeetsRule, GroundsOf};
ghost use Rattle.data_verify.specs.Settling.{AreLeastIn};
ghost use Rattle.data_verify.specs.Unmet.{lesser, AreLeastUnmet};

use crate::broken::Facts;
use crate::rows::{facts_with, rows_under};
use crate::settling::settle;
use homomorphism::{Store, body_matches, first_unmet, is_met};
use lists::{NoMemory, Rows};
use meaning::types::{Fact, Rule};
use std::alloc::Global;

/// The least facts that break the rule, if it is not met.
pub fn least_unmet(alloc: Global, rule: &Rule, store: &Store) -> Result<Option<Facts>, NoMemory>
    requires { IsNumbered rule.now }
    ensures some { IfOk result (λ found. IfSome found (AreLeastIn store.now rule.now)) }
    ensures none { IfOk result (λ found. IfNone found (MeetsRule Const (GroundsOf store.now) rule.now)) }
{
    match first_unmet(alloc, rule, store)? {
        None => Ok(None),
        Some(_found) => least_by_atoms(alloc, rule, store),
    }
}

/// The same of a rule that is known to be unmet: one atom after another is settled while there is one to settle.
fn least_by_atoms(alloc: Global, rule: &Rule, store: &Store) -> Result<Option<Facts>, NoMemory>
    requires { IsNumbered rule.now }
    ensures some { IfOk result (λ found. IfSome found (AreLeastIn store.now rule.now)) }
    ensures none { IfOk result (λ found. IfNone found (MeetsRule Const (GroundsOf store.now) rule.now)) }
{
    let Some(settled) = settle(alloc, rule, store)? else {
        return least_among(alloc, rule, store);
    };
    match least_by_atoms(alloc, &settled.rest, store)? {
        None => Ok(None),
        Some(later) => Ok(Some(led_by(alloc, settled.fact, later)?)),
    }
}

/// The fact with the others behind it.
fn led_by(alloc: Global, first: Fact, later: Facts) -> Result<Facts, NoMemory>
    ensures { IfOk result (λ facts. facts ≡ first ∷ later) }
{
    let mut facts = Facts::new(alloc);
    facts.push(first)?;
    for fact in later.into_vec() {
        facts.push(fact)?;
    }
    Ok(facts)
}

/// The facts of the unmet match whose rows are least, if there is an unmet match: all matches of the body are gone through.
fn least_among(alloc: Global, rule: &Rule, store: &Store) -> Result<Option<Facts>, NoMemory>
    requires { IsNumbered rule.now }
    ensures some { IfOk result (λ found. IfSome found (AreLeastUnmet store.now rule.now)) }
    ensures none { IfOk result (λ found. IfNone found (MeetsRule Const (GroundsOf store.now) rule.now)) }
{
    let found = body_matches(alloc, rule, store)?;
    let mut least = None;
    for one in found.as_slice() {
        if !is_met(alloc, rule, store, one.vals.as_slice())? {
            let rows = rows_under(alloc, rule.body.as_slice(), one.vals.as_slice())?;
            least = Some(lesser(least, rows));
        }
    }
    match least {
        None => Ok(None),
        Some(rows) => Ok(Some(facts_with(alloc, rule.body.as_slice(), rows.as_slice())?)),
    }
}

/// The rows that come first in the order of rows.
fn lesser(least: Option<Rows>, rows: Rows) -> Rows
    ensures { result ≡ lesser least rows }
{
    match least {
        None => rows,
        Some(first) => first.min(rows),
    }
}
