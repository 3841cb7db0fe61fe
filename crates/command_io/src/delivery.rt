// From a plan to what is written of its execution.
ghost use Rattle.std.specs.Prelude.{◌≡◌, ◌≤◌, IfOk, List, ℕ, Ok, length};
ghost use Rattle.meaning.specs.Plans.{IsLawful};
ghost use Rattle.access_schema.specs.Meaning.{meaning_of};
ghost use Rattle.source_trait.specs.Causes.{Rose};
ghost use Rattle.source_trait.specs.Lanes.{LanesStay};
ghost use Rattle.command_io.specs.Executing.{IsShort, Delivers, ExecutesOrStops, stop_of_run as stop_for, stop_of_crawl as crawl_stop_for, stop_of_batch as batch_stop_for};
ghost use Rattle.command_io.specs.Reports.{IsReport};

use crate::stop::Stop;
use crate::summary::summary;
use crate::telling::print;
use access_schema::Schema;
use lists::{Bytes, NoMemory, Texts};
use meaning::types::Plan;
use middleware::{Run, RunFault, csv_text};
use plan_execution::execute;
use source_trait::{Lane, Sink, Source};
use std::alloc::Global;
use std::thread::Threads;

/// How many requests a command makes at most where its words do not say.
pub const CALLS: u32 = 100000;

/// What is written of the execution of a plan.
#[derive(Clone, Copy)]
pub enum Report<'a> {
    /// The rows, as CSV under these names.
    Rows(&'a Texts),
    /// One line for the world of this size: the number of requests, the number of rows, and the last row.
    Summary(u32),
}

/// Executes a lawful plan on all of the lanes, of which there are at most 8, with at most `cap` requests, and writes the report of that.
/// Stops where the execution fails, as `stop_of_run` says, and where the report cannot be written.
pub fn deliver<R: Threads + Sync, S: Source + Send + Drop, O: Sink>(
    rt: &R,
    alloc: Global,
    schema: &Schema,
    plan: &Plan,
    report: Report<'_>,
    cap: u32,
    lanes: &mut [Lane<S>],
    out: &mut O,
) -> Result<(), Stop>
    requires lawful { (constants : List (List ℕ)) × IsLawful plan.now (meaning_of schema.now) constants }
    requires short { IsShort plan.now }
    requires cap { cap ≤ 1_000_000 }
    requires lanes { length lanes.old ≤ 8 }
    ensures delivers { Delivers (ExecutesOrStops S.seen schema.now plan.now cap lanes.old lanes.new) (IsReport report.entry)
        (O.taken out.old) (O.taken out.new) (Rose (O.faults out.old) (O.faults out.new)) result }
    ensures lanes { LanesStay S.seen lanes.old lanes.new }
    ensures later { O.faults out.old ≤ O.faults out.new }
{
    match execute(rt, alloc, plan, schema, lanes, cap) {
        Ok(executed) => write_report(alloc, report, &executed, out),
        Err(fault) => Err(stop_of_run(fault)),
    }
}

/// Writes the report of an execution that gave these rows. Stops where it cannot be written whole, or memory runs out.
pub fn write_report<O: Sink>(
    alloc: Global,
    report: Report<'_>,
    run: &Run,
    out: &mut O,
) -> Result<(), Stop>
    ensures delivers { Delivers (λ ended. ended ≡ Ok run.now) (IsReport report.entry)
        (O.taken out.old) (O.taken out.new) (Rose (O.faults out.old) (O.faults out.new)) result }
    ensures later { O.faults out.old ≤ O.faults out.new }
{
    let text = match report_text(alloc, report, run) {
        Ok(text) => text,
        Err(_) => return Err(Stop::Memory),
    };
    print(out, text.as_slice(), Stop::ResultWrite)
}

fn report_text(alloc: Global, report: Report<'_>, run: &Run) -> Result<Bytes, NoMemory>
    ensures { IfOk result (IsReport report.entry run.now) }
{
    match report {
        Report::Rows(names) => csv_text(alloc, names, &run.rows),
        Report::Summary(size) => summary(alloc, size, run),
    }
}

/// How a fault of an execution, or of the attaches before it, stops a command.
pub fn stop_of_run(fault: RunFault) -> Stop
    ensures { result ≡ stop_for fault }
{
    match fault {
        RunFault::NoMemory => Stop::Memory,
        other => Stop::Run(other),
    }
}

/// How a fault of a crawl stops a command: a failed call is named by its round.
pub fn stop_of_crawl(fault: RunFault) -> Stop
    ensures { result ≡ crawl_stop_for fault }
{
    match fault {
        RunFault::CallFailed { branch: _, step } => Stop::RoundFailed { round: step },
        other => stop_of_run(other),
    }
}

/// How a fault of an execution of the query of this number stops a batch, where queries count from 0: a failed call is named by its query.
pub fn stop_of_batch(number: u32, fault: RunFault) -> Stop
    ensures { result ≡ batch_stop_for number fault }
{
    match fault {
        RunFault::CallFailed { branch, step } => Stop::QueryCall {
            query: number,
            branch,
            step,
        },
        other => stop_of_run(other),
    }
}
