// One firing.
ghost use Rattle.std.specs.Prelude.{◌≡◌, ◌<◌, ◌^◌, OnOk, OnErr, Some, length, slice_get};
ghost use Rattle.meaning.specs.declared.types.Rule.{Rule};
ghost use Rattle.meaning.specs.Triggers.{AreNumbered, fired};
ghost use Rattle.rule_pass.specs.States.{IsActiveTrigger};

use crate::log::Log;
use crate::state::State;
use homomorphism::{ground_under, variables_width};
use lists::NoMemory;
use meaning::types::{Rules, Trigger};
use std::alloc::Global;

/// Adds the head atoms of the trigger's rule, with the next labels for the existential variables in order, and writes the
/// trigger down. Where memory is refused, nothing changes.
pub fn fire<L: Log>(
    alloc: Global,
    state: &mut State,
    rules: &Rules,
    trigger: Trigger,
    log: &mut L,
) -> Result<(), NoMemory>
    requires numbered { AreNumbered rules.now }
    requires active { IsActiveTrigger rules.now state.old trigger }
    requires labels { (rule : Rule) → slice_get rules.now trigger.rule ≡ Some rule → (fired state.old trigger rule).next < 2 ^ 32 }
    ensures logged { OnOk result (log.new ≡ L.logged log.old trigger (length state.old.facts)) }
    ensures fired { OnOk result ((rule : Rule) → slice_get rules.now trigger.rule ≡ Some rule → state.new ≡ fired state.old trigger rule) }
    ensures unlogged { OnErr result (log.new ≡ log.old) }
    ensures refused { OnErr result (state.new ≡ state.old) }
{
    let rule = &rules.as_slice()[trigger.rule as usize];
    let news = ground_under(alloc, rule.head.as_slice(), &trigger)?;
    let width = variables_width(rule.head.as_slice());
    let labels = width.saturating_sub(trigger.values.len());
    let next = trigger.fresh + labels as u32;
    log.write_down(trigger, state.store().len())?;
    match state.add(alloc, news, next) {
        Ok(()) => Ok(()),
        Err(fault) => {
            log.take_back();
            Err(fault)
        }
    }
}
