// Facts closed under rules, with shared labels.
ghost use Rattle.std.specs.Prelude.{◌≡◌, ◌<◌, ◌≤◌, IfOk, IfSome, OnOk, Ok, true, length};
ghost use Rattle.meaning.specs.Triggers.{LabelsBelow, IsQuiet};
ghost use Rattle.access_schema.specs.Meaning.{meaning_of};
ghost use Rattle.rule_pass.specs.declared.pass.TheConstants.{HIGHEST_FIRST_LABEL};
ghost use Rattle.small_base.specs.Closing.{GrowsFrom, IsClosing};
ghost use Rattle.small_base.specs.Shared.{IsSharedTrigger};

use access_schema::Schema;
use homomorphism::{Head, Positions, Walk, ground_under, variables_width};
use lists::NoMemory;
use meaning::types::{Ground, Trigger};
use rule_pass::{HIGHEST_FIRST_LABEL, State, active, rule_order};
use std::alloc::Global;

/// The facts closed under the rules, with one new label for each existential variable of a rule.
///
/// `next` is above the labels of the facts. None comes where there would be more than `most` facts or too many labels, and where some
/// trigger is active at the end.
pub fn closing(
    alloc: Global,
    schema: &Schema,
    facts: Vec<Ground>,
    next: u32,
    most: u32,
) -> Result<Option<State>, NoMemory>
    requires { LabelsBelow facts.items next }
    ensures { IfOk result (λ found. IfSome found (IsClosing (meaning_of schema.now) facts.items next)) }
{
    let positions = Positions::of_rules(alloc, schema.rules.as_slice())?;
    let mut state = State::start(alloc, facts, next, positions)?;
    match close(alloc, &mut state, schema, most) {
        Ok(true) => Ok(Some(state)),
        Ok(false) => {
            // a drop that is written out is proved as one call, and one at the end of a scope as a call for each list in the value
            drop(state);
            Ok(None)
        }
        Err(fault) => {
            drop(state);
            Err(fault)
        }
    }
}

/// Closes the facts of a state. Whether no trigger is active at the end.
fn close(alloc: Global, state: &mut State, schema: &Schema, most: u32) -> Result<bool, NoMemory>
    ensures grows { OnOk result (GrowsFrom (meaning_of schema.now) state.old.facts state.old.next state.new) }
    ensures quiet { result ≡ Ok true → IsQuiet schema.now.rules state.new }
{
    rule_pass::laws::schema_rules_are_orderly();
    let order = rule_order(alloc, &schema.rules)?;
    for number in order.as_slice() {
        if !close_rule(alloc, state, schema, *number, most)? {
            return Ok(false);
        }
    }
    // that nothing is active is looked at, so which labels are shared is free
    Ok(active(alloc, state, &schema.rules)?.is_none())
}

/// Fires the matches of one rule that have no extension, all with the same new labels. Whether the facts are no more than `most`, and the
/// labels not too many.
fn close_rule(
    alloc: Global,
    state: &mut State,
    schema: &Schema,
    number: u32,
    most: u32,
) -> Result<bool, NoMemory>
    requires { number < length schema.now.rules }
    ensures { OnOk result (GrowsFrom (meaning_of schema.now) state.old.facts state.old.next state.new) }
{
    let rule = &schema.rules.as_slice()[number as usize];
    let mut walk = Walk::over(alloc, rule, state.store())?;
    if walk.is_over() {
        return Ok(true);
    }
    let head = Head::of(alloc, rule)?;
    let fresh = state.next();
    if fresh > HIGHEST_FIRST_LABEL {
        return Ok(false);
    }
    while let Some(one) = walk.next(alloc)? {
        if !head.is_met(alloc, rule, state.store(), &one)? {
            let trigger = Trigger {
                rule: number,
                values: one.vals,
                fresh,
            };
            fire_shared(alloc, state, schema, &trigger)?;
            if state.store().len() > most as usize {
                return Ok(false);
            }
        }
    }
    Ok(true)
}

/// Adds the head atoms of the trigger's rule with the trigger's labels, which other triggers may have too.
fn fire_shared(
    alloc: Global,
    state: &mut State,
    schema: &Schema,
    trigger: &Trigger,
) -> Result<(), NoMemory>
    requires trigger { IsSharedTrigger schema.now.rules state.old.facts trigger.now }
    requires labels { trigger.now.fresh ≤ HIGHEST_FIRST_LABEL }
    ensures { OnOk result (GrowsFrom (meaning_of schema.now) state.old.facts state.old.next state.new) }
{
    let rule = &schema.rules.as_slice()[trigger.rule as usize];
    let news = ground_under(alloc, rule.head.as_slice(), trigger)?;
    let width = variables_width(rule.head.as_slice());
    let labels = width.saturating_sub(trigger.values.len());
    let next = state.next().max(trigger.fresh + labels as u32);
    state.add(alloc, news, next)?;
    Ok(())
}
