// The requests of one step, asked of the lanes.
ghost use Rattle.std.specs.Prelude.{◌≡◌, ◌≤◌, ◌<◌, List, ℕ, Contains, IfOk, length, map};
ghost use Rattle.middleware.specs.Branches.{IsAskable};
ghost use Rattle.middleware.specs.LaneBranches.{OnEach};
ghost use Rattle.middleware.specs.LaneAsking.{ask_of, AsksWanted};
ghost use Rattle.middleware.specs.LaneRounds.{NoneStopped};

use crate::answers::Answers;
use crate::ask::ask_all;
use crate::lane_round::{AskFault, ask_round};
use crate::lookup::line_of;
use access_schema::{Method, Schema};
use lists::{Copies, NoMemory, Text};
use meaning::types::Request;
use row_text::{LentRow, PackedRows};
use source_trait::{Ask, CallFault, Lane, Source};
use std::alloc::Global;
use std::thread::Threads;

/// Asks the requests of a method, each once by one of the lanes. For one lane, and for one request, each is copied as it is
/// asked, and no thread is made. Fails with the fault of the first failed call of the list, or where memory runs out.
pub fn ask_wanted<R: Threads + Sync, S: Source + Send + Drop>(
    rt: &R,
    alloc: Global,
    schema: &Schema,
    lanes: &mut [Lane<S>],
    method: &Method,
    requests: &PackedRows,
) -> Result<Answers, CallFault>
    requires lanes { (0 < length lanes.old) × (length lanes.old ≤ 8) }
    requires going { NoneStopped lanes.old }
    requires askable { OnEach lanes.old (λ kinds. IsAskable S.seen schema.now kinds method.now) }
    requires few { length requests.now ≤ 1_000_000 }
    requires values { (values : List (List ℕ)) → Contains requests.now values → length values ≡ length method.now.inputs }
    ensures { AsksWanted S.seen schema.now method.now requests.now result lanes.old lanes.new }
{
    if lanes.len() == 1 || requests.len() < 2 {
        ask_first(alloc, schema, lanes, method, requests)
    } else {
        ask_shared(rt, alloc, schema, lanes, method, requests)
    }
}

// Asks the requests of a method on the first of the lanes, in their order.
fn ask_first<S: Source + Send + Drop>(
    alloc: Global,
    schema: &Schema,
    lanes: &mut [Lane<S>],
    method: &Method,
    requests: &PackedRows,
) -> Result<Answers, CallFault>
    requires lanes { 0 < length lanes.old }
    requires going { NoneStopped lanes.old }
    requires askable { OnEach lanes.old (λ kinds. IsAskable S.seen schema.now kinds method.now) }
    requires values { (values : List (List ℕ)) → Contains requests.now values → length values ≡ length method.now.inputs }
    ensures { AsksWanted S.seen schema.now method.now requests.now result lanes.old lanes.new }
{
    let line = line_of(schema, method.rel);
    let lane = &mut lanes[0];
    let result = ask_all(
        alloc,
        lane,
        &line.kind,
        method.rel,
        &method.inputs,
        requests,
    );
    lane.stopped = result.is_err();
    result
}

// Asks copies of the requests of a method in one round, each once by one of the lanes.
fn ask_shared<R: Threads + Sync, S: Source + Send + Drop>(
    rt: &R,
    alloc: Global,
    schema: &Schema,
    lanes: &mut [Lane<S>],
    method: &Method,
    requests: &PackedRows,
) -> Result<Answers, CallFault>
    requires lanes { (0 < length lanes.old) × (length lanes.old ≤ 8) }
    requires askable { OnEach lanes.old (λ kinds. IsAskable S.seen schema.now kinds method.now) }
    requires few { length requests.now ≤ 1_000_000 }
    requires values { (values : List (List ℕ)) → Contains requests.now values → length values ≡ length method.now.inputs }
    ensures { AsksWanted S.seen schema.now method.now requests.now result lanes.old lanes.new }
{
    let line = line_of(schema, method.rel);
    let asks = match asks_of(alloc, &line.kind, method, requests) {
        Ok(asks) => asks,
        Err(_) => return Err(CallFault::NoMemory),
    };
    match ask_round(rt, alloc, asks.as_slice(), lanes) {
        Ok(answers) => Ok(answers),
        Err(AskFault::NoMemory) => Err(CallFault::NoMemory),
        Err(AskFault::CallFailed { .. }) => Err(CallFault::Failed),
    }
}

// The requests of the method with these values, each for a source of the kind.
fn asks_of(
    alloc: Global,
    kind: &Text,
    method: &Method,
    requests: &PackedRows,
) -> Result<Vec<Ask>, NoMemory>
    ensures { IfOk result (λ asks. asks.items ≡ map (ask_of kind.now method.now) requests.now) }
{
    let mut asks = Vec::with_capacity(alloc, requests.len())?;
    for number in 0..requests.len() {
        asks.push(one_ask(alloc, kind, method, &requests.at(number))?)?;
    }
    Ok(asks)
}

fn one_ask(
    alloc: Global,
    kind: &Text,
    method: &Method,
    values: &LentRow<'_>,
) -> Result<Ask, NoMemory>
    ensures { IfOk result (λ ask. ask ≡ ask_of kind.now method.now values.now) }
{
    let request = Request {
        rel: method.rel,
        positions: method.inputs.copy(alloc)?,
        values: values.copy(alloc)?,
    };
    Ok(Ask {
        kind: kind.copy(alloc)?,
        request,
    })
}
