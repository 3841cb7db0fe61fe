// The requests of one step, asked of the lanes, and what they received tested.
ghost use Rattle.std.specs.Prelude.{◌≡◌, ◌≤◌, ◌<◌, List, ℕ, Contains, length};
ghost use Rattle.access_schema.specs.Meaning.{meaning_of};
ghost use Rattle.middleware.specs.Branches.{IsAskable};
ghost use Rattle.middleware.specs.LaneBranches.{OnEach};
ghost use Rattle.middleware.specs.LaneRounds.{NoneStopped};
ghost use Rattle.bad_numbers.specs.Numbers.{FindsBad};
ghost use Rattle.plan_execution.specs.Rounding.{AsksTested, rows_in};

use access_schema::{Method, Schema};
use bad_numbers::{bad_in, lower};
use middleware::{Answers, ask_wanted};
use row_text::PackedRows;
use source_trait::{CallFault, Lane, Source};
use std::alloc::Global;
use std::thread::Threads;

/// Why the round of a step stops.
#[derive(Drop)]
pub enum StepFault {
    NoMemory,
    /// A call failed.
    CallFailed,
    /// Each request was answered, and a row has another value than an integer at this integer column of the method's relation. It is the
    /// least such column of all rows.
    BadNumber { column: u32 },
}

/// Asks the requests of a method, each once by one of the lanes, and tests the numbers in all rows that they receive.
pub fn ask_tested<R: Threads + Sync, S: Source + Send + Drop>(
    rt: &R,
    alloc: Global,
    schema: &Schema,
    lanes: &mut [Lane<S>],
    method: &Method,
    requests: &PackedRows,
) -> Result<Answers, StepFault>
    requires lanes { (0 < length lanes.old) × (length lanes.old ≤ 8) }
    requires going { NoneStopped lanes.old }
    requires askable { OnEach lanes.old (λ kinds. IsAskable S.seen schema.now kinds method.now) }
    requires few { length requests.now ≤ 1_000_000 }
    requires values { (values : List (List ℕ)) → Contains requests.now values → length values ≡ length method.now.inputs }
    ensures { AsksTested S.seen schema.now method.now requests.now result lanes.old lanes.new }
{
    match ask_wanted(rt, alloc, schema, lanes, method, requests) {
        Ok(answers) => match bad_among(schema, method.rel, &answers) {
            Some(column) => Err(StepFault::BadNumber { column }),
            None => Ok(answers),
        },
        Err(CallFault::NoMemory) => Err(StepFault::NoMemory),
        Err(CallFault::Failed) => Err(StepFault::CallFailed),
    }
}

// The least integer column at which some row of the answers has another value.
fn bad_among(schema: &Schema, rel: u32, answers: &Answers) -> Option<u32>
    ensures { FindsBad (meaning_of schema.now) rel (rows_in answers.now) result }
{
    let mut found = None;
    for number in 0..answers.len() {
        if let Some(rows) = answers.get(number) {
            found = lower(found, bad_in(schema, rel, &rows));
        }
    }
    found
}
