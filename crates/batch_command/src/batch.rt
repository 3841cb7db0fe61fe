// Queries of one file, from the texts to their answers.
ghost use Rattle.std.specs.Prelude.{◌≡◌, ◌≤◌, ℕ, List, IfOk, IfErr, length};
ghost use Rattle.source_trait.specs.Causes.{Rose};
ghost use Rattle.source_trait.specs.Lanes.{LanesStay};
ghost use Rattle.sql_batch.specs.Batches.{AllFit};
ghost use Rattle.sql_batch.specs.declared.batch.TheConstants.{MOST_STATEMENTS};
ghost use Rattle.command_io.specs.Inputs.{SchemaIsRead, BatchIsRead};
ghost use Rattle.command_io.specs.Moments.{Stays};
ghost use Rattle.run_command.specs.Ends.{AreWithin};
ghost use Rattle.batch_command.specs.Deciding.{names_in};
ghost use Rattle.batch_command.specs.Ends.{AreParts, IsGiven, ExecutesOrStops, StatementsEnd, BatchTextsStop, BatchEnds};

use crate::deciding::decide_all;
use crate::delivery::deliver_all;
use access_schema::Schema;
use command_io::{FileNames, Outcome, Outputs, Outside, Stop, schema_of, statements_of, tell};
use lists::{Seq, Text};
use meaning::types::Statement;
use run_command::Limits;
use source_trait::{Files, Lane, Sink, Source};
use std::alloc::Global;
use std::thread::Threads;

/// Answers the queries of the second file over the schema of the first together, and says why it stopped.
///
/// Each decision is written to `err` behind the line of its query, before any source is attached. Where all of them are plans, these are
/// executed together on all of the lanes, of which there are at most 8, and the answers are written to `out`.
pub fn run_batch<R: Threads + Sync, F: Files, S: Source + Send + Drop, O: Sink, E: Sink>(
    rt: &R,
    alloc: Global,
    schema_name: &Text,
    queries_name: &Text,
    limits: Limits,
    outside: &mut Outside<F, O, E>,
    lanes: &mut [Lane<S>],
) -> Result<Outcome, Stop>
    requires within { AreWithin limits }
    requires lanes { length lanes.old ≤ 8 }
    ensures ends { BatchEnds S.seen schema_name.now queries_name.now limits outside.old outside.new lanes.old lanes.new result }
    ensures stays { Stays outside.old outside.new }
    ensures lanes { LanesStay S.seen lanes.old lanes.new }
{
    let names = FileNames {
        schema: schema_name.as_str(),
        query: queries_name.as_str(),
        plan: "",
    };
    match read_batch_texts(alloc, &mut outside.files, schema_name, queries_name) {
        Ok((schema, statements)) => answer_all(
            rt,
            alloc,
            names,
            &schema,
            statements.as_slice(),
            limits,
            &mut outside.outputs,
            lanes,
        ),
        Err(stop) => Err(tell(alloc, &mut outside.outputs.err, stop, names, &[])),
    }
}

// The schema, and the statements over it, that the texts of the two files are.
fn read_batch_texts<F: Files>(
    alloc: Global,
    files: &mut F,
    schema_name: &Text,
    queries_name: &Text,
) -> Result<(Schema, Seq<Statement>), Stop>
    ensures schema { IfOk result (λ both. SchemaIsRead (F.contents files.old) schema_name.now both.0) }
    ensures statements { IfOk result (λ both. BatchIsRead (F.contents files.old) queries_name.now both.0 both.1) }
    ensures fits { IfOk result (λ both. AllFit both.0 both.1) }
    ensures few { IfOk result (λ both. length both.1 ≤ MOST_STATEMENTS) }
    ensures cause { IfErr result (BatchTextsStop (F.contents files.old) schema_name.now queries_name.now
        (Rose (F.faults files.old) (F.faults files.new))) }
    ensures later { F.faults files.old ≤ F.faults files.new }
    ensures same { F.contents files.new ≡ F.contents files.old }
{
    let schema = schema_of(alloc, files, schema_name)?;
    let statements = statements_of(alloc, files, queries_name, &schema)?;
    Ok((schema, statements))
}

// Decides the statements in turn, and where all of them have plans, executes these together and writes the answers.
fn answer_all<R: Threads + Sync, S: Source + Send + Drop, O: Sink, E: Sink>(
    rt: &R,
    alloc: Global,
    names: FileNames<'_>,
    schema: &Schema,
    statements: &[Statement],
    limits: Limits,
    outputs: &mut Outputs<O, E>,
    lanes: &mut [Lane<S>],
) -> Result<Outcome, Stop>
    requires fit { AllFit schema.now statements.now }
    requires few { length statements.now ≤ MOST_STATEMENTS }
    requires within { AreWithin limits }
    requires lanes { length lanes.old ≤ 8 }
    ensures ends { StatementsEnd schema.now statements.now limits.firings limits.search
        (ExecutesOrStops S.seen schema.now limits.calls lanes.old lanes.new) (AreParts IsGiven statements.now)
        (names_in names.entry schema.now)
        outputs.old outputs.new lanes.old lanes.new result }
    ensures lanes { LanesStay S.seen lanes.old lanes.new }
    ensures later_out { outputs.old.out_faults ≤ outputs.new.out_faults }
    ensures later_err { outputs.old.err_faults ≤ outputs.new.err_faults }
{
    let plans = match decide_all(alloc, names, schema, statements, limits, &mut outputs.err) {
        Ok(plans) => plans,
        Err(end) => return end,
    };
    match deliver_all(
        rt,
        alloc,
        schema,
        statements,
        plans.as_slice(),
        limits.calls,
        lanes,
        &mut outputs.out,
    ) {
        Ok(()) => Ok(Outcome::Done),
        Err(stop) => Err(tell(
            alloc,
            &mut outputs.err,
            stop,
            names,
            schema.relations.as_slice(),
        )),
    }
}
