// What the commands do: they decide the statement and write the text of the decision.
ghost use Rattle.std.specs.Prelude.{◌≡◌, ◌≤◌, ◌⊎◌, OnOk, OnErr, IfOk, IfErr};
ghost use Rattle.source_trait.specs.Causes.{Rose};
ghost use Rattle.sql_select.specs.Statements.{StatementFits};
ghost use Rattle.rule_pass.specs.declared.pass.TheConstants.{MOST_FIRINGS};
ghost use Rattle.proof_search.specs.declared.deciding.TheConstants.{MOST_UNITS};
ghost use Rattle.explain.specs.Printing.{IsDecisionText};
ghost use Rattle.run_command.specs.Deciding.{IsDecided, Written, TookPartOf, outcome_of};

use access_schema::Schema;
use command_io::{Outcome, Stop, print};
use explain::decision_text;
use findings::Decision;
use meaning::types::Statement;
use proof_search::decide;
use source_trait::Sink;
use std::alloc::Global;

/// What is decided of the statement with a budget of `firings` for the proof of each select, and of `search` units for the search for a
/// cheaper branch. `Stop::Memory` is the only refusal.
pub fn decided(
    alloc: Global,
    schema: &Schema,
    statement: &Statement,
    firings: u32,
    search: u32,
) -> Result<Decision, Stop>
    requires fits { StatementFits schema.now statement.now }
    requires budget { firings ≤ MOST_FIRINGS }
    requires units { search ≤ MOST_UNITS }
    ensures decided { IfOk result (IsDecided schema.now statement.now firings search) }
    ensures memory { IfErr result (λ stop. stop ≡ Stop.Memory) }
{
    match decide(alloc, schema, statement, firings, search) {
        Ok(decision) => Ok(decision),
        Err(_) => Err(Stop::Memory),
    }
}

/// Writes the text of a decision whole, or stops: with `failed` where the sink failed.
pub fn write_decision<K: Sink>(
    alloc: Global,
    schema: &Schema,
    decision: &Decision,
    sink: &mut K,
    failed: Stop,
) -> Result<(), Stop>
    ensures whole { OnOk result (Written schema.now decision.now (K.taken sink.old) (K.taken sink.new)) }
    ensures part { OnErr result (TookPartOf (K.taken sink.old) (K.taken sink.new) (IsDecisionText schema.now decision.now)) }
    ensures cause { IfErr result (λ stop. (stop ≡ Stop.Memory) ⊎ ((stop ≡ failed) × Rose (K.faults sink.old) (K.faults sink.new))) }
    ensures later { K.faults sink.old ≤ K.faults sink.new }
{
    let text = match decision_text(alloc, decision, schema) {
        Ok(text) => text,
        Err(_) => return Err(Stop::Memory),
    };
    print(sink, text.as_slice(), failed)
}

/// The outcome of a decision.
pub fn outcome(decision: &Decision) -> Outcome
    ensures { result ≡ outcome_of decision.now }
{
    match decision {
        Decision::Plan {
            plan: _,
            selects: _,
        } => Outcome::Done,
        Decision::NoPlan(_) => Outcome::No,
        Decision::Undecided { select: _, log: _ } => Outcome::Undecided,
    }
}
