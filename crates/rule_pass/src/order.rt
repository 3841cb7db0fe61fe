// The rule order.
ghost use Rattle.std.specs.Prelude.{◌≡◌, IfOk, length, map, slice_index, ℕ};
ghost use Rattle.meaning.specs.RuleOrder.{IsLevel};
ghost use Rattle.rule_pass.specs.Orderly.{AreOrderly};
ghost use Rattle.rule_pass.specs.Order.{IsRuleOrder};
ghost use Rattle.rule_pass.specs.Levels.{RulesAreBelow};
ghost use Rattle.rule_pass.specs.Ranks.{AreRanked};

use crate::levels::{greatest_level, relation_levels};
use lists::{NoMemory, Places};
use meaning::types::{Rule, Rules};
use std::alloc::Global;

/// The number of a rule, with its level.
#[derive(Clone, Copy, Debug, PartialEq, Eq, PartialOrd, Ord)]
pub struct Ranked {
    pub level: u32,
    pub number: u32,
}

/// The numbers of the rules in the rule order: by the greatest level of a relation of the body, and then by number.
pub fn rule_order(alloc: Global, rules: &Rules) -> Result<Places, NoMemory>
    requires { AreOrderly rules.now }
    ensures { IfOk result (λ order. IsRuleOrder rules.now order) }
{
    let levels = relation_levels(alloc, rules.as_slice())?;
    let mut ranked = ranked_rules(alloc, rules.as_slice(), levels.as_slice())?;
    ranked.sort_unstable();
    Ok(Places::from_vec(numbers(alloc, ranked.as_slice())?))
}

/// Each rule's number with its level, by number.
fn ranked_rules(alloc: Global, rules: &[Rule], levels: &[u32]) -> Result<Vec<Ranked>, NoMemory>
    requires orderly { AreOrderly rules.now }
    requires below { RulesAreBelow (length levels.now) rules.now }
    ensures { IfOk result (λ ranked. AreRanked rules.now levels.now ranked.items) }
{
    let mut ranked = Vec::with_capacity(alloc, rules.len())?;
    for (number, rule) in rules.iter().enumerate() {
        ranked.push(Ranked {
            level: greatest_level(levels, rule.body.as_slice()),
            number: number as u32,
        })?;
    }
    Ok(ranked)
}

/// The numbers alone.
fn numbers(alloc: Global, ranked: &[Ranked]) -> Result<Vec<u32>, NoMemory>
    ensures { IfOk result (λ order. order.items ≡ map (λ rule. rule.number) ranked.now) }
{
    let mut order = Vec::with_capacity(alloc, ranked.len())?;
    for rule in ranked {
        order.push(rule.number)?;
    }
    Ok(order)
}
