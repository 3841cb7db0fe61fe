// A query, from the texts of its files to the text of what is decided.
ghost use Rattle.std.specs.Prelude.{◌≤◌};
ghost use Rattle.sql_select.specs.Statements.{StatementFits};
ghost use Rattle.rule_pass.specs.declared.pass.TheConstants.{MOST_FIRINGS};
ghost use Rattle.proof_search.specs.declared.deciding.TheConstants.{MOST_UNITS};
ghost use Rattle.command_io.specs.Moments.{Stays};
ghost use Rattle.run_command.specs.Explained.{DecisionEnds, ExplainEnds};

use crate::deciding::{decided, outcome, write_decision};
use access_schema::Schema;
use command_io::{FileNames, Outcome, Outputs, Outside, Stop, read_texts, tell};
use lists::Text;
use meaning::types::Statement;
use source_trait::{Files, Sink};
use std::alloc::Global;

/// Decides the query of the second file over the schema of the first with at most so many firings for each select and so many
/// units for the search of a cheaper branch, and writes the text of the decision to `out`; says why it stopped. No source is needed.
pub fn explain_query<F: Files, O: Sink, E: Sink>(
    alloc: Global,
    schema_name: &Text,
    query_name: &Text,
    firings: u32,
    search: u32,
    outside: &mut Outside<F, O, E>,
) -> Result<Outcome, Stop>
    requires budget { firings ≤ MOST_FIRINGS }
    requires units { search ≤ MOST_UNITS }
    ensures ends { ExplainEnds schema_name.now query_name.now firings search outside.old outside.new result }
    ensures stays { Stays outside.old outside.new }
{
    let names = FileNames {
        schema: schema_name.as_str(),
        query: query_name.as_str(),
        plan: "",
    };
    match read_texts(alloc, &mut outside.files, schema_name, query_name) {
        Ok((schema, statement)) => show(
            alloc,
            names,
            &schema,
            &statement,
            firings,
            search,
            &mut outside.outputs,
        ),
        Err(stop) => Err(tell(alloc, &mut outside.outputs.err, stop, names, &[])),
    }
}

// Decides the statement, and writes the text of the decision.
fn show<O: Sink, E: Sink>(
    alloc: Global,
    names: FileNames<'_>,
    schema: &Schema,
    statement: &Statement,
    firings: u32,
    search: u32,
    outputs: &mut Outputs<O, E>,
) -> Result<Outcome, Stop>
    requires fits { StatementFits schema.now statement.now }
    requires budget { firings ≤ MOST_FIRINGS }
    requires units { search ≤ MOST_UNITS }
    ensures ends { DecisionEnds schema.now statement.now firings search (record { schema = names.entry.schema.now; query = names.entry.query.now; plan = names.entry.plan.now; relations = schema.now.relations }) outputs.old outputs.new result }
    ensures later_out { outputs.old.out_faults ≤ outputs.new.out_faults }
    ensures later_err { outputs.old.err_faults ≤ outputs.new.err_faults }
{
    let relations = schema.relations.as_slice();
    let decision = match decided(alloc, schema, statement, firings, search) {
        Ok(decision) => decision,
        Err(stop) => return Err(tell(alloc, &mut outputs.err, stop, names, relations)),
    };
    match write_decision(
        alloc,
        schema,
        &decision,
        &mut outputs.out,
        Stop::ResultWrite,
    ) {
        Ok(()) => Ok(outcome(&decision)),
        Err(stop) => Err(tell(alloc, &mut outputs.err, stop, names, relations)),
    }
}
