// From a plan to what is written of its execution, where the rules are tested before it.
ghost use Rattle.std.specs.Prelude.{◌≡◌, ◌≤◌, ◌⊎◌, List, ℕ, Some, length};
ghost use Rattle.meaning.specs.Plans.{IsLawful};
ghost use Rattle.access_schema.specs.Meaning.{meaning_of};
ghost use Rattle.source_trait.specs.Causes.{Rose};
ghost use Rattle.source_trait.specs.Lanes.{LanesStay};
ghost use Rattle.data_verify.specs.Telling.{verification_text as text_of};
ghost use Rattle.command_io.specs.Executing.{IsShort, Delivers};
ghost use Rattle.command_io.specs.Verified.{VerifiesOrStops, IsVerifiedStop, stop_of_verify as stop_for};
ghost use Rattle.command_io.specs.Reports.{IsReport};
ghost use Rattle.command_io.specs.declared.stop.Stop.{Stop};

use crate::delivery::{Report, stop_of_run, write_report};
use crate::stop::Stop;
use access_schema::Schema;
use data_verify::{Broken, verification_text};
use meaning::types::Plan;
use middleware::RunFault;
use rule_rows::{VerifiedFault, VerifyFault, WholeFault, execute_verified};
use source_trait::{Lane, Sink, Source};
use std::alloc::Global;
use std::thread::Threads;

/// Tests the rules, executes a lawful plan where they are met, as `deliver` does, and writes the report of that. Stops as `deliver` does, and
/// where the rules cannot be tested or one is not met.
pub fn deliver_verified<R: Threads + Sync, S: Source + Send + Drop, O: Sink>(
    rt: &R,
    alloc: Global,
    schema: &Schema,
    plan: &Plan,
    report: Report<'_>,
    cap: u32,
    lanes: &mut [Lane<S>],
    out: &mut O,
) -> Result<(), Stop>
    requires lawful { (constants : List (List ℕ)) × IsLawful plan.now (meaning_of schema.now) constants }
    requires short { IsShort plan.now }
    requires cap { cap ≤ 1_000_000 }
    requires lanes { length lanes.old ≤ 8 }
    ensures delivers { Delivers (VerifiesOrStops S.seen schema.now plan.now cap lanes.old lanes.new) (IsReport report.entry)
        (O.taken out.old) (O.taken out.new) (Rose (O.faults out.old) (O.faults out.new)) result }
    ensures lanes { LanesStay S.seen lanes.old lanes.new }
    ensures later { O.faults out.old ≤ O.faults out.new }
{
    match execute_verified(rt, alloc, plan, schema, lanes, cap) {
        Ok(executed) => write_report(alloc, report, &executed, out),
        Err(fault) => Err(stop_of_verified(alloc, schema, fault)),
    }
}

/// How it stops a command that the rules were not tested.
pub fn stop_of_verify(fault: VerifyFault) -> Stop
    ensures { result ≡ stop_for fault }
{
    match fault {
        VerifyFault::NotAttached(fault) => stop_of_run(fault),
        VerifyFault::NotAsked(WholeFault::NoMemory) => Stop::Memory,
        VerifyFault::NotAsked(WholeFault::CallFailed { rel }) => Stop::WholeFailed { rel },
        VerifyFault::NotAsked(WholeFault::BadNumber { rel, column }) => {
            Stop::Run(RunFault::BadNumber { rel, column })
        }
    }
}

fn stop_of_verified(alloc: Global, schema: &Schema, fault: VerifiedFault) -> Stop
    ensures { IsVerifiedStop schema.now fault result }
{
    match fault {
        VerifiedFault::NotVerified(fault) => stop_of_verify(fault),
        VerifiedFault::NotMet(broken) => stop_of_broken(alloc, schema, broken),
        VerifiedFault::NotExecuted(fault) => stop_of_run(fault),
    }
}

// The stop of a broken rule has its line.
fn stop_of_broken(alloc: Global, schema: &Schema, broken: Broken) -> Stop
    ensures { (result ≡ Stop.NotMet (text_of schema.now (Some broken))) ⊎ (result ≡ Stop.Memory) }
{
    match verification_text(alloc, schema, &Some(broken)) {
        Ok(line) => Stop::NotMet { line },
        Err(_) => Stop::Memory,
    }
}
