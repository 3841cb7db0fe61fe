// The statements of a batch, decided one behind another.
ghost use Rattle.std.specs.Prelude.{◌≡◌, ◌≢◌, ◌≤◌, ◌<◌, ◌+◌, ◌^◌, ◌++◌, ◌∷◌, [], ◌⊎◌, ℕ, List, OnOk, OnErr, IfOk, IfErr, Contains, length};
ghost use Rattle.meaning.specs.declared.types.Statement.{Statement};
ghost use Rattle.source_trait.specs.Causes.{Rose};
ghost use Rattle.findings.specs.declared.decision.Chosen.{Chosen};
ghost use Rattle.sql_select.specs.Statements.{StatementFits};
ghost use Rattle.command_io.specs.Writing.{TookAll};
ghost use Rattle.run_command.specs.Ends.{AreWithin};
ghost use Rattle.explain.specs.Printing.{planned_text};
ghost use Rattle.run_command.specs.Deciding.{IsPlanned, TookPartOf, outcome_of};
ghost use Rattle.batch_command.specs.Deciding.{Told, AreTold, EndsAt, Halts, IsNumbered, names_in, query_line, plans_of};

use crate::lines::numbered_text;
use access_schema::Schema;
use command_io::{FileNames, Outcome, Stop, print, tell};
use findings::Decision;
use meaning::types::{Plan, Statement};
use run_command::{Limits, decided};
use source_trait::Sink;
use std::alloc::Global;

/// The plans of the statements, each of which is decided in turn and its decision written behind the line of its number. Where one of them
/// has no plan, or could not be decided or its decision written, that is how the batch ends.
pub fn decide_all<E: Sink>(
    alloc: Global,
    names: FileNames<'_>,
    schema: &Schema,
    statements: &[Statement],
    limits: Limits,
    err: &mut E,
) -> Result<Vec<Plan>, Result<Outcome, Stop>>
    requires fit { (statement : Statement) → Contains statements.now statement → StatementFits schema.now statement }
    requires within { AreWithin limits }
    requires few { length statements.now < 2 ^ 32 }
    ensures planned { IfOk result (λ plans. (told : List Told) × AreTold schema.now limits.firings limits.search statements.now
        (E.taken err.old) (E.taken err.new) told
        × (plans.items ≡ plans_of told)) }
    ensures ended { IfErr result (Halts schema.now limits.firings limits.search statements.now
        (names_in names.entry schema.now)
        (E.taken err.old) (E.taken err.new) (E.faults err.old) (E.faults err.new)) }
    ensures later { E.faults err.old ≤ E.faults err.new }
{
    let mut plans = Vec::new(alloc);
    for statement in statements {
        decide_next(alloc, names, schema, statement, limits, &mut plans, err)?;
    }
    Ok(plans)
}

// Decides the statement behind those that have these plans, and adds its plan.
fn decide_next<E: Sink>(
    alloc: Global,
    names: FileNames<'_>,
    schema: &Schema,
    statement: &Statement,
    limits: Limits,
    plans: &mut Vec<Plan>,
    err: &mut E,
) -> Result<(), Result<Outcome, Stop>>
    requires fits { StatementFits schema.now statement.now }
    requires within { AreWithin limits }
    requires few { length plans.old.items + 1 < 2 ^ 32 }
    ensures planned { OnOk result ((told : Told) × IsPlanned schema.now statement.now limits.firings limits.search told.plan
        told.entries
        × TookAll (E.taken err.old) (E.taken err.new) (query_line (length plans.old.items + 1) ++ planned_text told.entries told.plan)
        × (plans.new.items ≡ plans.old.items ++ told.plan ∷ [])) }
    ensures ended { IfErr result (EndsAt schema.now limits.firings limits.search (length plans.old.items + 1) statement.now
        (names_in names.entry schema.now)
        (E.taken err.old) (E.taken err.new) (E.faults err.old) (E.faults err.new)) }
    ensures later { E.faults err.old ≤ E.faults err.new }
{
    if let Err(_) = plans.reserve(1) {
        return Err(Err(tell(alloc, err, Stop::Memory, names, schema.relations.as_slice())));
    }
    let number = plans.len() as u32 + 1;
    match decide_one(alloc, names, schema, statement, number, limits, err) {
        Ok(plan) => match plans.push(plan) {
            Ok(()) => Ok(()),
            Err(_) => unreachable!(),
        },
        Err(end) => Err(end),
    }
}

// Decides the statement of this number, and writes the decision behind the line of the number.
fn decide_one<E: Sink>(
    alloc: Global,
    names: FileNames<'_>,
    schema: &Schema,
    statement: &Statement,
    number: u32,
    limits: Limits,
    err: &mut E,
) -> Result<Plan, Result<Outcome, Stop>>
    requires fits { StatementFits schema.now statement.now }
    requires within { AreWithin limits }
    ensures planned { IfOk result (λ plan. (told : Told) × IsPlanned schema.now statement.now limits.firings limits.search told.plan
        told.entries
        × TookAll (E.taken err.old) (E.taken err.new) (query_line number ++ planned_text told.entries told.plan) × (plan ≡ told.plan)) }
    ensures ended { IfErr result (EndsAt schema.now limits.firings limits.search number statement.now
        (names_in names.entry schema.now)
        (E.taken err.old) (E.taken err.new) (E.faults err.old) (E.faults err.new)) }
    ensures later { E.faults err.old ≤ E.faults err.new }
{
    let relations = schema.relations.as_slice();
    let decision = match decided(alloc, schema, statement, limits.firings, limits.search) {
        Ok(decision) => decision,
        Err(stop) => return Err(Err(tell(alloc, err, stop, names, relations))),
    };
    match write_numbered(alloc, number, schema, &decision, err) {
        Ok(()) => {}
        Err(stop) => return Err(Err(tell(alloc, err, stop, names, relations))),
    }
    match plan_or_outcome(decision) {
        Ok(plan) => Ok(plan),
        Err(outcome) => Err(Ok(outcome)),
    }
}

// The plan of a decision, or its outcome where it has none.
fn plan_or_outcome(decision: Decision) -> Result<Plan, Outcome>
    ensures plan { IfOk result (λ plan. (entries : List Chosen) × (decision ≡ Decision.Plan plan entries)) }
    ensures none { IfErr result (λ outcome. (outcome ≡ outcome_of decision) × (outcome ≢ Outcome.Done)) }
{
    match decision {
        Decision::Plan {
            plan,
            selects: _selects,
        } => Ok(plan),
        Decision::NoPlan(_pair) => Err(Outcome::No),
        Decision::Undecided {
            select: _select,
            log: _log,
        } => Err(Outcome::Undecided),
    }
}

// Writes the decision whole behind the line of this number, or stops.
fn write_numbered<E: Sink>(
    alloc: Global,
    number: u32,
    schema: &Schema,
    decision: &Decision,
    err: &mut E,
) -> Result<(), Stop>
    ensures whole { OnOk result ((text : List ℕ) × IsNumbered number schema.now decision.now text
        × TookAll (E.taken err.old) (E.taken err.new) text) }
    ensures part { OnErr result (TookPartOf (E.taken err.old) (E.taken err.new) (IsNumbered number schema.now decision.now)) }
    ensures cause { IfErr result (λ stop. (stop ≡ Stop.Memory) ⊎ ((stop ≡ Stop.DecisionWrite)
        × Rose (E.faults err.old) (E.faults err.new))) }
    ensures later { E.faults err.old ≤ E.faults err.new }
{
    let text = match numbered_text(alloc, number, decision, schema) {
        Ok(text) => text,
        Err(_) => return Err(Stop::Memory),
    };
    print(err, text.as_slice(), Stop::DecisionWrite)
}
