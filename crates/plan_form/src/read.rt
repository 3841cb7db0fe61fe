// Plans from text.
ghost use Rattle.std.specs.Prelude.{◌≡◌, ◌≤◌, ◌^◌, length, IfOk, IfErr};
ghost use Rattle.meaning.specs.declared.types.Plan.{Plan};
ghost use Rattle.plan_form.specs.declared.progress.Progress.TheVariants.{Opening};
ghost use Rattle.plan_form.specs.declared.fault.PlanReadFault.TheVariants.{NoMemory, Line as LineFault};
ghost use Rattle.plan_form.specs.Fitting.{PlanFits};
ghost use Rattle.plan_form.specs.Grammar.{IsPlanText, IsFirstMisfit, IsPlanReadFault, OkOrNoMemory, places_of};
ghost use Rattle.plan_form.specs.Reading.{plan_of, progress_from, ProgressGives, HasLineFault};

use crate::fault::PlanReadFault;
use crate::progress::{Progress, next};
use meaning::types::Plan;
use pq_text::{Line, Misfit, next_line, read_utf8, text_lines};
use std::alloc::Global;

/// The plan of a text, or the first byte that begins no character, or the first line that does not fit.
///
/// Lines without tokens are passed over. Where the text ends early, the line is one more than the line feeds.
pub fn read_plan(alloc: Global, bytes: &[u8]) -> Result<Plan, PlanReadFault>
    requires { length bytes.now ≤ 2 ^ 20 }

    // What is read is the plan that the grammar relates to the bytes, which are a text.
    ensures read { IfOk result (λ plan. IsPlanText bytes.now plan) }

    // The text of a plan is read as that plan, unless memory runs out.
    ensures only { (plan : Plan) → IsPlanText bytes.now plan → OkOrNoMemory plan result }
    ensures fits { IfOk result (λ plan. PlanFits plan) }
    ensures places { IfOk result (λ plan. places_of plan ≤ length bytes.now) }
    ensures fault { IfErr result (λ fault. IsPlanReadFault bytes.now fault) }
{
    match read_utf8(bytes) {
        Ok(text) => text_plan(alloc, text),
        Err(offset) => Err(PlanReadFault::NotUtf8 { offset }),
    }
}

fn text_plan(alloc: Global, text: &str) -> Result<Plan, PlanReadFault>
    requires { length text.now ≤ 2 ^ 20 }
    ensures read { IfOk result (λ plan. IsPlanText text.now plan) }
    ensures fault { IfErr result (λ fault. HasLineFault text.now fault) }
{
    let told = text_lines(alloc, text)?;
    let done = lines_progress(alloc, told.whole.as_slice())?;
    match told.broken {
        Some(line) => Err(PlanReadFault::Line { line }),
        None => match finished(done) {
            Some(plan) => Ok(plan),
            None => Err(PlanReadFault::Line {
                line: next_line(text),
            }),
        },
    }
}

// The plan, where its last line has been read.
fn finished(done: Progress) -> Option<Plan>
    ensures { result ≡ plan_of done }
{
    match done {
        Progress::Ended(plan) => Some(plan),
        _ => None,
    }
}

// What the lines say of a plan, or the first line that does not fit behind those before it.
fn lines_progress(alloc: Global, lines: &[Line]) -> Result<Progress, PlanReadFault>
    ensures { ProgressGives result (progress_from Opening lines.now) }
{
    let mut done = Progress::Opening;
    let mut left = lines;
    while let [line, rest @ ..] = left {
        if let [_, ..] = line.tokens.as_slice() {
            match next(alloc, done, line.tokens.as_slice()) {
                Ok(more) => done = more,
                Err(Misfit::NoFit) => return Err(PlanReadFault::Line { line: line.number }),
                Err(Misfit::NoMemory) => return Err(PlanReadFault::NoMemory),
            }
        }
        left = rest;
    }
    Ok(done)
}
