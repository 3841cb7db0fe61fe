// A plan, line by line.
ghost use Rattle.std.specs.Prelude.{◌≡◌, [], codes};
ghost use Rattle.pq_text.specs.Lexemes.{Gives, GivesRest};
ghost use Rattle.plan_form.specs.Reading.{opening_at, access_at, output_at, lone_at, next_at, GivesNext};

use crate::parts::{outs, places, plain};
use lists::Seq;
use meaning::types::{Branch, Branches, Outs, Plan, Step, Steps};
use pq_text::{Cursor, Lexeme, Misfit};
use std::alloc::Global;

/// What has been read of a plan: nothing, whole branches, the steps of a branch behind them, or all.
#[derive(Drop)]
pub enum Progress {
    Opening,
    Between {
        width: u32,
        branches: Branches,
    },
    Inside {
        width: u32,
        branches: Branches,
        steps: Steps,
    },
    Ended(Plan),
}

/// What has been read with one line more.
pub fn next(alloc: Global, done: Progress, line: &[Lexeme]) -> Result<Progress, Misfit>
    ensures { GivesNext result (next_at done line.now) }
{
    match done {
        Progress::Opening => begin(alloc, line),
        Progress::Between { width, branches } => between(alloc, width, branches, line),
        Progress::Inside {
            width,
            branches,
            steps,
        } => inside(alloc, width, branches, steps, line),
        Progress::Ended(_) => Err(Misfit::NoFit),
    }
}

fn begin(alloc: Global, line: &[Lexeme]) -> Result<Progress, Misfit>
    ensures { GivesNext result (next_at Progress.Opening line.now) }
{
    let width = opening(alloc, line)?;
    Ok(Progress::Between {
        width,
        branches: Seq::new(alloc),
    })
}

fn between(
    alloc: Global,
    width: u32,
    branches: Branches,
    line: &[Lexeme],
) -> Result<Progress, Misfit>
    ensures { GivesNext result (next_at (Progress.Between width branches) line.now) }
{
    if Cursor::new(line).is_word(b"branch") {
        lone(line, b"branch")?;
        Ok(Progress::Inside {
            width,
            branches,
            steps: Seq::new(alloc),
        })
    } else {
        lone(line, b"end")?;
        Ok(Progress::Ended(Plan { width, branches }))
    }
}

fn inside(
    alloc: Global,
    width: u32,
    branches: Branches,
    steps: Steps,
    line: &[Lexeme],
) -> Result<Progress, Misfit>
    ensures { GivesNext result (next_at (Progress.Inside width branches steps) line.now) }
{
    let mut branches = branches;
    let mut steps = steps;
    if Cursor::new(line).is_word(b"access") {
        steps.push(access(alloc, line)?)?;
        Ok(Progress::Inside {
            width,
            branches,
            steps,
        })
    } else {
        let output = outputs(alloc, line)?;
        branches.push(Branch { steps, output })?;
        Ok(Progress::Between { width, branches })
    }
}

// plan Number
#[tactic(auto, unfolding(crate::specs::Reading::opening_at))]
fn opening(alloc: Global, line: &[Lexeme]) -> Result<u32, Misfit>
    ensures { Gives [] result (opening_at line.now) }
{
    let mut cursor = Cursor::new(line);
    cursor.word(b"plan")?;
    let width = plain(alloc, &mut cursor)?;
    cursor.end()?;
    if width >= 1 && width <= 64 {
        Ok(width)
    } else {
        Err(Misfit::NoFit)
    }
}

// access NAME ( PLACE , .. )
#[tactic(auto, unfolding(crate::specs::Reading::access_at))]
fn access(alloc: Global, line: &[Lexeme]) -> Result<Step, Misfit>
    ensures { Gives [] result (access_at line.now) }
{
    let mut cursor = Cursor::new(line);
    cursor.word(b"access")?;
    let method = cursor.name(alloc)?;
    cursor.symbol(b"(")?;
    let places = places(alloc, &mut cursor)?;
    cursor.symbol(b")")?;
    cursor.end()?;
    Ok(Step { method, places })
}

// output OUT , ..
#[tactic(auto, unfolding(crate::specs::Reading::output_at))]
fn outputs(alloc: Global, line: &[Lexeme]) -> Result<Outs, Misfit>
    ensures { Gives [] result (output_at line.now) }
{
    let mut cursor = Cursor::new(line);
    cursor.word(b"output")?;
    let list = outs(alloc, &mut cursor)?;
    cursor.end()?;
    Ok(list)
}

// A line of one word.
#[tactic(auto, unfolding(crate::specs::Reading::lone_at))]
fn lone(line: &[Lexeme], text: &[u8]) -> Result<(), Misfit>
    ensures { GivesRest [] result (lone_at text.now line.now) }
{
    let mut cursor = Cursor::new(line);
    cursor.word(text)?;
    cursor.end()
}
