// One pass through the rules.
ghost use Rattle.std.specs.Prelude.{◌≡◌, ◌+◌, ◌*◌, ◌<◌, ◌≤◌, [], length, max, take, Ok};
ghost use Rattle.meaning.specs.declared.types.Val.TheVariants.{Const};
ghost use Rattle.meaning.specs.Matching.{MeetsAll, GroundsOf};
ghost use Rattle.meaning.specs.Triggers.{IsQuiet};
ghost use Rattle.meaning.specs.Runs.{IsBaseRun};
ghost use Rattle.access_schema.specs.declared.limits.TheConstants.{MOST_VARIABLES};
ghost use Rattle.rule_pass.specs.Orderly.{AreOrderly};
ghost use Rattle.rule_pass.specs.Order.{IsRuleOrder};
ghost use Rattle.rule_pass.specs.States.{SomeActive, Goes};
ghost use Rattle.rule_pass.specs.Passing.{AreMet};
ghost use Rattle.rule_pass.specs.declared.pass.Stopped.TheVariants.{Ended, Spent};

use crate::firing::fire;
use crate::log::Log;
use crate::order::rule_order;
use crate::state::State;
use homomorphism::{Head, Walk};
use lists::NoMemory;
use meaning::types::{Rules, Trigger, Triggers};
use std::alloc::Global;

/// The most firings that a pass may be given.
pub const MOST_FIRINGS: u32 = 100_000;

/// The highest next label that a pass may begin with.
pub const HIGHEST_FIRST_LABEL: u32 = 1_048_576;

/// How a pass ends: with nothing active, or with its budget spent and a trigger that is active.
#[derive(Debug, Drop)]
pub enum Stopped {
    Ended,
    Spent,
}

/// Goes through the rules once, in the rule order, and fires the active triggers of each before it goes on to the next.
///
/// The firings stand in the log, at most `budget` of them. Ended comes exactly where nothing is active at the end, and
/// then the facts meet the rules. Where memory is refused, the state is that of the firings in the log, each whole.
pub fn run_rules(
    alloc: Global,
    state: &mut State,
    rules: &Rules,
    budget: u32,
    log: &mut Triggers,
) -> Result<Stopped, NoMemory>
    requires orderly { AreOrderly rules.now }
    requires empty { log.old ≡ [] }
    requires budget { budget ≤ MOST_FIRINGS }
    requires labels { state.old.next ≤ HIGHEST_FIRST_LABEL }
    ensures run { IsBaseRun rules.now state.old log.new state.new }
    ensures budget { length log.new ≤ budget }
    ensures labels { state.new.next ≤ state.old.next + length log.new * MOST_VARIABLES }
    ensures met { result ≡ Ok Ended → MeetsAll Const (GroundsOf state.new.facts) rules.now }
    ensures ended { result ≡ Ok Ended → IsQuiet rules.now state.new }
    ensures spent { result ≡ Ok Spent → (length log.new ≡ budget) × SomeActive rules.now state.new }
{
    let order = rule_order(alloc, rules)?;
    Ok(run_in_order(alloc, state, rules, order.as_slice(), budget as usize, log)?)
}

/// Goes through the rules once, in this order, which is the rule order, and fires the active triggers of each.
///
/// The firings go to the end of the log, each only while the log has fewer than `budget` firings. Ended comes exactly
/// where nothing is active at the end. Where memory is refused, the state is that of the firings in the log, each whole.
pub fn run_in_order<L: Log>(
    alloc: Global,
    state: &mut State,
    rules: &Rules,
    order: &[u32],
    budget: usize,
    log: &mut L,
) -> Result<Stopped, NoMemory>
    requires orderly { AreOrderly rules.now }
    requires ordered { IsRuleOrder rules.now order.now }
    requires budget { budget ≤ MOST_FIRINGS }
    requires labels { state.old.next ≤ HIGHEST_FIRST_LABEL + L.size log.old * MOST_VARIABLES }
    ensures run { Goes L.logged rules.now state.old log.old state.new log.new }
    ensures budget { L.size log.new ≤ max (L.size log.old) budget }
    ensures labels { state.new.next + L.size log.old * MOST_VARIABLES ≤ state.old.next + L.size log.new * MOST_VARIABLES }
    ensures met { result ≡ Ok Ended → MeetsAll Const (GroundsOf state.new.facts) rules.now }
    ensures ended { result ≡ Ok Ended → IsQuiet rules.now state.new }
    ensures spent { result ≡ Ok Spent → (budget ≤ L.size log.new) × SomeActive rules.now state.new }
{
    for place in 0..order.len() {
        if let Stopped::Spent = run_rule(alloc, state, rules, order, place, budget, log)? {
            return Ok(Stopped::Spent);
        }
    }
    Ok(Stopped::Ended)
}

/// Fires the matches of one rule that have no extension, until the budget is spent. Of matches that give the variables of the
/// head the same values one is enough: where it has an extension, so have the others.
fn run_rule<L: Log>(
    alloc: Global,
    state: &mut State,
    rules: &Rules,
    order: &[u32],
    place: usize,
    budget: usize,
    log: &mut L,
) -> Result<Stopped, NoMemory>
    requires orderly { AreOrderly rules.now }
    requires ordered { IsRuleOrder rules.now order.now }
    requires place { place < length order.now }
    requires met { AreMet rules.now state.old.facts (take place order.now) }
    requires budget { budget ≤ MOST_FIRINGS }
    requires labels { state.old.next ≤ HIGHEST_FIRST_LABEL + L.size log.old * MOST_VARIABLES }
    ensures run { Goes L.logged rules.now state.old log.old state.new log.new }
    ensures budget { L.size log.new ≤ max (L.size log.old) budget }
    ensures labels { state.new.next + L.size log.old * MOST_VARIABLES ≤ state.old.next + L.size log.new * MOST_VARIABLES }
    ensures ended { result ≡ Ok Ended → AreMet rules.now state.new.facts (take (place + 1) order.now) }
    ensures spent { result ≡ Ok Spent → (budget ≤ L.size log.new) × SomeActive rules.now state.new }
{
    let number = order[place];
    let rule = &rules.as_slice()[number as usize];
    let mut walk = Walk::over(alloc, rule, state.store())?;
    if walk.is_over() {
        return Ok(Stopped::Ended);
    }
    let head = Head::of(alloc, rule)?;
    while let Some(one) = walk.next(alloc)? {
        if !head.is_met(alloc, rule, state.store(), &one)? {
            if log.firings() >= budget {
                return Ok(Stopped::Spent);
            }
            let fresh = state.next();
            let trigger = Trigger {
                rule: number,
                values: one.vals,
                fresh,
            };
            fire(alloc, state, rules, trigger, log)?;
        }
    }
    Ok(Stopped::Ended)
}
