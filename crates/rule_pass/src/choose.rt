// The first active trigger.
ghost use Rattle.std.specs.Prelude.{◌≡◌, IfOk, IfSome, IfNone};
ghost use Rattle.meaning.specs.declared.types.Val.TheVariants.{Const};
ghost use Rattle.meaning.specs.Matching.{MeetsAll, GroundsOf};
ghost use Rattle.meaning.specs.Triggers.{IsQuiet};
ghost use Rattle.rule_pass.specs.Orderly.{AreOrderly};
ghost use Rattle.rule_pass.specs.Order.{IsRuleOrder};
ghost use Rattle.rule_pass.specs.States.{IsFirstTrigger};

use crate::order::rule_order;
use crate::state::State;
use homomorphism::first_unmet;
use lists::NoMemory;
use meaning::types::{Rules, Trigger};
use std::alloc::Global;

/// An active trigger of the first rule in the rule order that has one. None comes exactly where no trigger is active,
/// and then the facts meet the rules.
pub fn active(alloc: Global, state: &State, rules: &Rules) -> Result<Option<Trigger>, NoMemory>
    requires { AreOrderly rules.now }
    ensures some { IfOk result (λ found. IfSome found (λ trigger. IsFirstTrigger rules.now state.now trigger)) }
    ensures none { IfOk result (λ found. IfNone found (MeetsAll Const (GroundsOf state.now.facts) rules.now)) }
    ensures quiet { IfOk result (λ found. IfNone found (IsQuiet rules.now state.now)) }
{
    let order = rule_order(alloc, rules)?;
    Ok(first_active(alloc, state, rules, order.as_slice())?)
}

/// An active trigger of the first rule in this order that has one.
fn first_active(
    alloc: Global,
    state: &State,
    rules: &Rules,
    order: &[u32],
) -> Result<Option<Trigger>, NoMemory>
    requires orderly { AreOrderly rules.now }
    requires ordered { IsRuleOrder rules.now order.now }
    ensures some { IfOk result (λ found. IfSome found (λ trigger. IsFirstTrigger rules.now state.now trigger)) }
    ensures none { IfOk result (λ found. IfNone found (MeetsAll Const (GroundsOf state.now.facts) rules.now)) }
{
    for place in 0..order.len() {
        let number = order[place];
        let rule = &rules.as_slice()[number as usize];
        if let Some(found) = first_unmet(alloc, rule, state.store())? {
            let fresh = state.next();
            return Ok(Some(Trigger {
                rule: number,
                values: found.vals,
                fresh,
            }));
        }
    }
    Ok(None)
}
