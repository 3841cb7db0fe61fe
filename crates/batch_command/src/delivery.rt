// From plans to what is written of their execution.
ghost use Rattle.std.specs.Prelude.{◌≡◌, ◌≤◌, ◌<◌, ◌^◌, ◌++◌, ℕ, List, Ok, Contains, IfOk, OnOk, length};
ghost use Rattle.meaning.specs.declared.types.Plan.{Plan};
ghost use Rattle.meaning.specs.declared.types.Statement.{Statement};
ghost use Rattle.meaning.specs.Plans.{IsLawful};
ghost use Rattle.access_schema.specs.Meaning.{meaning_of};
ghost use Rattle.sql_select.specs.Statements.{result_names as names_of};
ghost use Rattle.source_trait.specs.Causes.{Rose};
ghost use Rattle.source_trait.specs.Lanes.{LanesStay};
ghost use Rattle.row_text.specs.RowText.{IsRowText};
ghost use Rattle.plan_course.specs.Courses.{CanNumber};
ghost use Rattle.command_io.specs.Executing.{Delivers};
ghost use Rattle.batch_command.specs.Ends.{answer_line, AreParts, IsGiven, ExecutesOrStops};

use access_schema::Schema;
use command_io::{Stop, print, stop_of_batch};
use lists::{Bytes, NoMemory};
use meaning::types::{Plan, Statement};
use middleware::{Run, csv_text};
use plan_batches::batch;
use pq_text::print_number;
use source_trait::{Lane, Sink, Source};
use sql_select::result_names;
use std::alloc::Global;
use std::thread::Threads;

/// Executes lawful plans together on all of the lanes, of which there are at most 8, with at most `cap` requests, and writes the rows of
/// each statement behind the line of its number.
pub fn deliver_all<R: Threads + Sync, S: Source + Send + Drop, O: Sink>(
    rt: &R,
    alloc: Global,
    schema: &Schema,
    statements: &[Statement],
    plans: &[Plan],
    cap: u32,
    lanes: &mut [Lane<S>],
    out: &mut O,
) -> Result<(), Stop>
    requires lawful { (plan : Plan) → Contains plans.now plan → (constants : List (List ℕ))
        × IsLawful plan (meaning_of schema.now) constants }
    requires short { (plan : Plan) → Contains plans.now plan → CanNumber plan }
    requires some { (statement : Statement) → Contains statements.now statement → 1 ≤ length statement.selects }
    requires same { length statements.now ≡ length plans.now }
    requires few { length plans.now < 2 ^ 32 }
    requires cap { cap ≤ 1_000_000 }
    requires lanes { length lanes.old ≤ 8 }
    ensures delivers { Delivers (ExecutesOrStops S.seen schema.now cap lanes.old lanes.new plans.now)
        (AreParts IsGiven statements.now plans.now)
        (O.taken out.old) (O.taken out.new) (Rose (O.faults out.old) (O.faults out.new)) result }
    ensures lanes { LanesStay S.seen lanes.old lanes.new }
    ensures later { O.faults out.old ≤ O.faults out.new }
{
    match batch(rt, alloc, plans, schema, lanes, cap) {
        Ok(runs) => write_runs(alloc, statements, runs.as_slice(), out),
        Err(why) => Err(stop_of_batch(why.plan, why.fault)),
    }
}

// Writes the rows of each run behind the line of its number.
fn write_runs<O: Sink>(
    alloc: Global,
    statements: &[Statement],
    runs: &[Run],
    out: &mut O,
) -> Result<(), Stop>
    requires some { (statement : Statement) → Contains statements.now statement → 1 ≤ length statement.selects }
    requires same { length statements.now ≡ length runs.now }
    requires few { length runs.now < 2 ^ 32 }
    ensures delivers { (plans : List Plan) → Delivers (λ ended. ended ≡ Ok runs.now) (AreParts IsGiven statements.now plans)
        (O.taken out.old) (O.taken out.new) (Rose (O.faults out.old) (O.faults out.new)) result }
    ensures later { O.faults out.old ≤ O.faults out.new }
{
    let text = match runs_text(alloc, statements, runs) {
        Ok(text) => text,
        Err(_) => return Err(Stop::Memory),
    };
    print(out, text.as_slice(), Stop::ResultWrite)
}

// The rows of each run, behind the line of its number.
fn runs_text(alloc: Global, statements: &[Statement], runs: &[Run]) -> Result<Bytes, NoMemory>
    requires some { (statement : Statement) → Contains statements.now statement → 1 ≤ length statement.selects }
    requires same { length statements.now ≡ length runs.now }
    requires few { length runs.now < 2 ^ 32 }
    ensures { IfOk result (λ text. (plans : List Plan) → AreParts IsGiven statements.now plans runs.now text) }
{
    let mut text = Vec::new(alloc);
    for place in 0..runs.len() {
        push_run(
            alloc,
            &mut text,
            place as u32 + 1,
            &statements[place],
            &runs[place],
        )?;
    }
    Ok(Bytes::from_vec(text))
}

// Adds the rows of a run, behind the line of its number.
fn push_run(
    alloc: Global,
    text: &mut Vec<u8>,
    number: u32,
    statement: &Statement,
    run: &Run,
) -> Result<(), NoMemory>
    requires { 1 ≤ length statement.now.selects }
    ensures { OnOk result ((part : List ℕ) × IsRowText (names_of statement.now.selects) (Contains run.now.rows) part
        × (text.new.items ≡ text.old.items ++ (answer_line number ++ part))) }
{
    let part = csv_text(alloc, result_names(statement), &run.rows)?;
    push_answer_line(text, number)?;
    text.extend_from_slice(part.as_slice())
}

// The line in front of rows.
fn push_answer_line(text: &mut Vec<u8>, number: u32) -> Result<(), NoMemory>
    ensures { OnOk result (text.new.items ≡ text.old.items ++ answer_line number) }
{
    text.extend_from_slice(b"-- query ")?;
    print_number(text, number as u64)?;
    text.extend_from_slice(b"\n")
}
