// A query, from the texts of its files to its answer.
ghost use Rattle.std.specs.Prelude.{◌≤◌, ℕ, List, length};
ghost use Rattle.meaning.specs.declared.types.Statement.{Statement};
ghost use Rattle.meaning.specs.Plans.{IsLawful};
ghost use Rattle.access_schema.specs.Meaning.{meaning_of};
ghost use Rattle.source_trait.specs.Causes.{Rose};
ghost use Rattle.source_trait.specs.Lanes.{LanesStay};
ghost use Rattle.sql_select.specs.Statements.{StatementFits};
ghost use Rattle.command_io.specs.Executing.{IsShort, Delivers};
ghost use Rattle.command_io.specs.Moments.{Stays};
ghost use Rattle.command_io.specs.Reports.{IsReport};
ghost use Rattle.run_command.specs.Deciding.{IsDecided};
ghost use Rattle.run_command.specs.Ends.{AreWithin, carries_out, StatementEnds, RunEnds};

use crate::deciding::{decided, write_decision};
use crate::settings::Settings;
use access_schema::Schema;
use command_io::{
    FileNames, Outcome, Outputs, Outside, Report, Stop, deliver, deliver_verified, read_texts, tell,
};
use findings::Decision;
use lists::Text;
use meaning::types::{Plan, Statement};
use source_trait::{Files, Lane, Sink, Source};
use sql_select::result_names;
use std::alloc::Global;
use std::thread::Threads;

/// Answers the query of the second file over the schema of the first, and says why it stopped.
///
/// The decision is written to `err` before any source is attached, and where it is a plan, the answer to `out`. The plan is executed on all
/// of the lanes, of which there are at most 8. Where the rules are to be tested, that comes before the plan's first request.
pub fn run_query<R: Threads + Sync, F: Files, S: Source + Send + Drop, O: Sink, E: Sink>(
    rt: &R,
    alloc: Global,
    schema_name: &Text,
    query_name: &Text,
    settings: Settings,
    outside: &mut Outside<F, O, E>,
    lanes: &mut [Lane<S>],
) -> Result<Outcome, Stop>
    requires within { AreWithin settings.limits }
    requires lanes { length lanes.old ≤ 8 }
    ensures ends { RunEnds S.seen schema_name.now query_name.now settings outside.old outside.new lanes.old lanes.new result }
    ensures stays { Stays outside.old outside.new }
    ensures lanes { LanesStay S.seen lanes.old lanes.new }
{
    let names = FileNames {
        schema: schema_name.as_str(),
        query: query_name.as_str(),
        plan: "",
    };
    match read_texts(alloc, &mut outside.files, schema_name, query_name) {
        Ok((schema, statement)) => {
            let report = Report::Rows(result_names(&statement));
            answer(
                rt,
                alloc,
                names,
                &schema,
                &statement,
                settings,
                report,
                &mut outside.outputs,
                lanes,
            )
        }
        Err(stop) => Err(tell(alloc, &mut outside.outputs.err, stop, names, &[])),
    }
}

/// Decides the statement, writes the decision to `err`, and where it is a plan, carries it out on all of the lanes as the settings say and
/// writes the report of that to `out`.
pub fn answer<R: Threads + Sync, S: Source + Send + Drop, O: Sink, E: Sink>(
    rt: &R,
    alloc: Global,
    names: FileNames<'_>,
    schema: &Schema,
    statement: &Statement,
    settings: Settings,
    report: Report<'_>,
    outputs: &mut Outputs<O, E>,
    lanes: &mut [Lane<S>],
) -> Result<Outcome, Stop>
    requires fits { StatementFits schema.now statement.now }
    requires within { AreWithin settings.limits }
    requires lanes { length lanes.old ≤ 8 }
    ensures ends { StatementEnds schema.now statement.now settings.limits.firings settings.limits.search
        (carries_out S.seen schema.now settings.limits.calls settings.verify lanes.old lanes.new) (λ plan. IsReport report.entry)
        (record { schema = names.entry.schema.now; query = names.entry.query.now; plan = names.entry.plan.now; relations = schema.now.relations })
        outputs.old outputs.new lanes.old lanes.new result }
    ensures lanes { LanesStay S.seen lanes.old lanes.new }
    ensures later_out { outputs.old.out_faults ≤ outputs.new.out_faults }
    ensures later_err { outputs.old.err_faults ≤ outputs.new.err_faults }
{
    match decided(
        alloc,
        schema,
        statement,
        settings.limits.firings,
        settings.limits.search,
    ) {
        Ok(decision) => carry_out(
            rt, alloc, names, schema, &decision, settings, report, outputs, lanes,
        ),
        Err(stop) => Err(tell(
            alloc,
            &mut outputs.err,
            stop,
            names,
            schema.relations.as_slice(),
        )),
    }
}

// Writes the decision to `err`, and where it is a plan, carries it out and writes the report of that to `out`.
fn carry_out<R: Threads + Sync, S: Source + Send + Drop, O: Sink, E: Sink>(
    rt: &R,
    alloc: Global,
    names: FileNames<'_>,
    schema: &Schema,
    decision: &Decision,
    settings: Settings,
    report: Report<'_>,
    outputs: &mut Outputs<O, E>,
    lanes: &mut [Lane<S>],
) -> Result<Outcome, Stop>
    requires decided { (statement : Statement) × (firings : ℕ) × (search : ℕ) × IsDecided schema.now statement firings search decision.now }
    requires within { AreWithin settings.limits }
    requires lanes { length lanes.old ≤ 8 }
    ensures ends { (statement : Statement) (firings search : ℕ) → StatementFits schema.now statement →
        IsDecided schema.now statement firings search decision.now →
        StatementEnds schema.now statement firings search
        (carries_out S.seen schema.now settings.limits.calls settings.verify lanes.old lanes.new) (λ plan. IsReport report.entry)
        (record { schema = names.entry.schema.now; query = names.entry.query.now; plan = names.entry.plan.now; relations = schema.now.relations })
        outputs.old outputs.new lanes.old lanes.new result }
    ensures lanes { LanesStay S.seen lanes.old lanes.new }
    ensures later_out { outputs.old.out_faults ≤ outputs.new.out_faults }
    ensures later_err { outputs.old.err_faults ≤ outputs.new.err_faults }
{
    let relations = schema.relations.as_slice();
    match write_decision(
        alloc,
        schema,
        decision,
        &mut outputs.err,
        Stop::DecisionWrite,
    ) {
        Ok(()) => {}
        Err(stop) => return Err(tell(alloc, &mut outputs.err, stop, names, relations)),
    }
    let plan = match decision {
        Decision::Plan { plan, selects: _ } => plan,
        Decision::NoPlan(_) => return Ok(Outcome::No),
        Decision::Undecided { select: _, log: _ } => return Ok(Outcome::Undecided),
    };
    match deliver_as(
        rt,
        alloc,
        schema,
        plan,
        report,
        settings,
        lanes,
        &mut outputs.out,
    ) {
        Ok(()) => Ok(Outcome::Done),
        Err(stop) => Err(tell(alloc, &mut outputs.err, stop, names, relations)),
    }
}

// Executes the plan on all of the lanes, after testing the rules where that is set, and writes the report of that.
fn deliver_as<R: Threads + Sync, S: Source + Send + Drop, O: Sink>(
    rt: &R,
    alloc: Global,
    schema: &Schema,
    plan: &Plan,
    report: Report<'_>,
    settings: Settings,
    lanes: &mut [Lane<S>],
    out: &mut O,
) -> Result<(), Stop>
    requires lawful { (constants : List (List ℕ)) × IsLawful plan.now (meaning_of schema.now) constants }
    requires short { IsShort plan.now }
    requires within { AreWithin settings.limits }
    requires lanes { length lanes.old ≤ 8 }
    ensures delivers { Delivers (carries_out S.seen schema.now settings.limits.calls settings.verify lanes.old lanes.new plan.now)
        (IsReport report.entry) (O.taken out.old) (O.taken out.new) (Rose (O.faults out.old) (O.faults out.new)) result }
    ensures lanes { LanesStay S.seen lanes.old lanes.new }
    ensures later { O.faults out.old ≤ O.faults out.new }
{
    if settings.verify {
        deliver_verified(
            rt,
            alloc,
            schema,
            plan,
            report,
            settings.limits.calls,
            lanes,
            out,
        )
    } else {
        deliver(
            rt,
            alloc,
            schema,
            plan,
            report,
            settings.limits.calls,
            lanes,
            out,
        )
    }
}
