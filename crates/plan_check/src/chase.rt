// The chase of a frozen query, and the instance that its end is.
ghost use Rattle.std.specs.Prelude.{◌≡◌, ◌≤◌, IfOk};
ghost use Rattle.meaning.specs.Homomorphisms.{image, renamed};
ghost use Rattle.access_schema.specs.Meaning.{meaning_of};
ghost use Rattle.rule_pass.specs.declared.pass.TheConstants.{MOST_FIRINGS, HIGHEST_FIRST_LABEL};
ghost use Rattle.plan_check.specs.Trials.{IsChase, IsNamedEnd};

use access_schema::Schema;
use homomorphism::{Positions, Store};
use lists::{Copies, NoMemory, Row, Texts};
use meaning::types::{Ground, Instance, Query, Triggers, Val};
use no_plan_witness::Naming;
use rule_pass::laws::schema_rules_are_orderly;
use rule_pass::{State, Stopped, run_rules};
use std::alloc::Global;

/// The end of a chase, its log, and how it stopped.
#[derive(Drop)]
pub struct Chase {
    pub state: State,
    pub log: Triggers,
    pub stopped: Stopped,
}

/// The positions that the rules look for, and all of the atoms of these queries.
pub fn looked_for(
    alloc: Global,
    schema: &Schema,
    forms: &[Option<Query>],
) -> Result<Positions, NoMemory> {
    let mut positions = Positions::of_rules(alloc, schema.rules.as_slice())?;
    for form in forms {
        if let Some(query) = form {
            positions.add_atoms(query.atoms.as_slice())?;
        }
    }
    Ok(positions)
}

/// Fires the rules from the state on, with a budget.
pub fn chase_from(
    alloc: Global,
    schema: &Schema,
    start: State,
    firings: u32,
) -> Result<Chase, NoMemory>
    requires few { start.next ≤ HIGHEST_FIRST_LABEL }
    requires firings { firings ≤ MOST_FIRINGS }
    ensures { IfOk result (IsChase (meaning_of schema.now) start firings) }
{
    schema_rules_are_orderly();
    let mut state = start;
    let mut log = Triggers::new(alloc);
    let stopped = run_rules(alloc, &mut state, &schema.rules, firings, &mut log)?;
    Ok(Chase {
        state,
        log,
        stopped,
    })
}

/// The facts of the store as an instance, and the head as a row, with texts in place of the labels. In ascending order, each label that
/// stands at an integer column takes the next of `1`, `2`, `3` and so on that is not a known constant, and each other label the next of `_1`,
/// `_2`, `_3` and so on.
pub fn named_end(
    alloc: Global,
    schema: &Schema,
    store: &Store,
    head: &[Val],
    known: &Texts,
) -> Result<(Instance, Row), NoMemory>
    ensures { IfOk result (λ named. IsNamedEnd (meaning_of schema.now) known.now store.now head.now named.0 named.1) }
{
    let facts = copied_facts(alloc, store)?;
    let naming = Naming::new(alloc, schema, facts.as_slice(), &[], known)?;
    let instance = naming.instance(alloc, facts.as_slice())?;
    let row = naming.row(alloc, head)?;
    Ok((instance, row))
}

fn copied_facts(alloc: Global, store: &Store) -> Result<Vec<Ground>, NoMemory>
    ensures { IfOk result (λ facts. facts.items ≡ store.now) }
{
    let mut facts = Vec::new(alloc);
    while let Some(fact) = store.get(facts.len()) {
        facts.push(fact.copy(alloc)?)?;
    }
    Ok(facts)
}
