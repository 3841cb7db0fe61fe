// What a pass promises to those who carry its states into instances, and what every schema's rules are.
ghost use Rattle.std.specs.Prelude.{◌≡◌, List, [], length, take, slice_index_or};
ghost use Rattle.meaning.specs.Values.{Value};
ghost use Rattle.meaning.specs.Matching.{itself, FactsOf, MeetsAll};
ghost use Rattle.meaning.specs.Homomorphisms.{Carries};
ghost use Rattle.meaning.specs.Triggers.{AreNumbered};
ghost use Rattle.meaning.specs.Runs.{IsBaseRun};
ghost use Rattle.access_schema.specs.declared.schema.Schema.{Schema};
ghost use Rattle.rule_pass.specs.Orderly.{AreOrderly};
ghost use Rattle.rule_pass.specs.States.{Fires};

use crate::state::State;
use lists::Row;
use meaning::types::{Instance, Rules, Trigger, Triggers};

/// A map of labels that carries the start of a base run into an instance that meets the rules extends to its end.
///
/// The map has a value for each label below the next label. Takes no memory.
pub fn extend_along(
    start: &State,
    rules: &Rules,
    log: &Triggers,
    end: &State,
    instance: &Instance,
    map: &Row,
)
    requires numbered { AreNumbered rules.now }
    requires run { IsBaseRun rules.now start.now log.now end.now }
    requires meets { MeetsAll itself (FactsOf instance.now) rules.now }
    requires values { length map.now ≡ start.now.next }
    requires carries { Carries (λ k. slice_index_or map.now k []) start.now.facts instance.now }
    ensures { (longer : List Value) × (take (length map.now) longer ≡ map.now) × (length longer ≡ end.now.next)
        × Carries (λ k. slice_index_or longer k []) end.now.facts instance.now }
{
    let _above = start.next();
    meaning_laws::laws::extend_list();
    meaning_laws::laws::base_run_fires();
}

/// The same along one firing, of a trigger that is active.
pub fn extend_fired(
    start: &State,
    rules: &Rules,
    trigger: &Trigger,
    end: &State,
    instance: &Instance,
    map: &Row,
)
    requires numbered { AreNumbered rules.now }
    requires fired { Fires rules.now start.now trigger.now end.now }
    requires meets { MeetsAll itself (FactsOf instance.now) rules.now }
    requires values { length map.now ≡ start.now.next }
    requires carries { Carries (λ k. slice_index_or map.now k []) start.now.facts instance.now }
    ensures { (longer : List Value) × (take (length map.now) longer ≡ map.now) × (length longer ≡ end.now.next)
        × Carries (λ k. slice_index_or longer k []) end.now.facts instance.now }
{
    let _above = start.next();
    meaning_laws::laws::extend_list();
}

/// The rules of every schema can be fired.
pub fn schema_rules_are_orderly()
    ensures { (schema : Schema) → AreOrderly schema.rules }
{}
