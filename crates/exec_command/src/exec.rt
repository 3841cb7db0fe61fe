// A plan, from the texts of its files to its rows.
ghost use Rattle.std.specs.Prelude.{◌≤◌, OnOk, IfErr, length};
ghost use Rattle.source_trait.specs.Lanes.{LanesStay};
ghost use Rattle.plan_form.specs.Fitting.{PlanFits, HasFewSteps};
ghost use Rattle.command_io.specs.Moments.{Stays};
ghost use Rattle.exec_command.specs.Ends.{MayRun, IdleStop, PlanEnds, ExecEnds};

use crate::known::{column_names, known};
use access_schema::Schema;
use command_io::{
    FileNames, Outcome, Outputs, Outside, Report, Stop, deliver, plan_of_file, schema_of, tell,
};
use lists::Text;
use meaning::types::Plan;
use plan_form::lawful;
use source_trait::{Files, Lane, Sink, Source};
use std::alloc::Global;
use std::thread::Threads;

/// Executes the plan of the second file over the schema of the first, and says why it stopped.
///
/// The plan is lawful over the constants of the schema and its own, or no source is attached. It is executed on all of the lanes, of
/// which there are at most 8, with at most `calls` requests, and its rows are written to `out`, under the names column1, column2 and so on.
pub fn exec_plan<R: Threads + Sync, F: Files, S: Source + Send + Drop, O: Sink, E: Sink>(
    rt: &R,
    alloc: Global,
    schema_name: &Text,
    plan_name: &Text,
    calls: u32,
    outside: &mut Outside<F, O, E>,
    lanes: &mut [Lane<S>],
) -> Result<Outcome, Stop>
    requires calls { calls ≤ 1_000_000 }
    requires lanes { length lanes.old ≤ 8 }
    ensures ends { ExecEnds S.seen schema_name.now plan_name.now calls outside.old outside.new lanes.old lanes.new result }
    ensures stays { Stays outside.old outside.new }
    ensures lanes { LanesStay S.seen lanes.old lanes.new }
{
    let names = FileNames {
        schema: schema_name.as_str(),
        query: "",
        plan: plan_name.as_str(),
    };
    let schema = match schema_of(alloc, &mut outside.files, schema_name) {
        Ok(schema) => schema,
        Err(stop) => return Err(tell(alloc, &mut outside.outputs.err, stop, names, &[])),
    };
    let plan = match plan_of_file(alloc, &mut outside.files, plan_name) {
        Ok(plan) => plan,
        Err(stop) => return Err(tell(alloc, &mut outside.outputs.err, stop, names, &[])),
    };
    carry_out(
        rt,
        alloc,
        names,
        &schema,
        &plan,
        calls,
        &mut outside.outputs,
        lanes,
    )
}

// Tests that the plan is lawful, executes it and writes its rows.
fn carry_out<R: Threads + Sync, S: Source + Send + Drop, O: Sink, E: Sink>(
    rt: &R,
    alloc: Global,
    names: FileNames<'_>,
    schema: &Schema,
    plan: &Plan,
    calls: u32,
    outputs: &mut Outputs<O, E>,
    lanes: &mut [Lane<S>],
) -> Result<Outcome, Stop>
    requires fits { PlanFits plan.now }
    requires calls { calls ≤ 1_000_000 }
    requires lanes { length lanes.old ≤ 8 }
    ensures ends { PlanEnds S.seen schema.now plan.now calls
        (record { schema = names.entry.schema.now; query = names.entry.query.now; plan = names.entry.plan.now; relations = schema.now.relations })
        outputs.old outputs.new lanes.old lanes.new result }
    ensures lanes { LanesStay S.seen lanes.old lanes.new }
    ensures later_out { outputs.old.out_faults ≤ outputs.new.out_faults }
    ensures later_err { outputs.old.err_faults ≤ outputs.new.err_faults }
{
    let relations = schema.relations.as_slice();
    match may_run(alloc, schema, plan) {
        Ok(()) => {}
        Err(stop) => return Err(tell(alloc, &mut outputs.err, stop, names, relations)),
    }
    let columns = match column_names(alloc, plan.width) {
        Ok(columns) => columns,
        Err(_) => return Err(tell(alloc, &mut outputs.err, Stop::Memory, names, relations)),
    };
    match deliver(
        rt,
        alloc,
        schema,
        plan,
        Report::Rows(&columns),
        calls,
        lanes,
        &mut outputs.out,
    ) {
        Ok(()) => Ok(Outcome::Done),
        Err(stop) => Err(tell(alloc, &mut outputs.err, stop, names, relations)),
    }
}

// Whether the plan is lawful over the constants of the schema and its own.
fn may_run(alloc: Global, schema: &Schema, plan: &Plan) -> Result<(), Stop>
    requires { HasFewSteps plan.now }
    ensures lawful { OnOk result (MayRun schema.now plan.now) }
    ensures cause { IfErr result (IdleStop schema.now plan.now) }
{
    let constants = match known(alloc, schema, plan) {
        Ok(constants) => constants,
        Err(_) => return Err(Stop::Memory),
    };
    match lawful(plan, schema, constants.as_slice()) {
        Ok(()) => Ok(()),
        Err(fault) => Err(Stop::Illegal(fault)),
    }
}
