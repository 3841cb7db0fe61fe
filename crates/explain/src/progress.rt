// A refutation, line by line.
ghost use Rattle.std.specs.Prelude.{◌≡◌, []};
ghost use Rattle.pq_text.specs.Lexemes.{Gives, GivesRest};
ghost use Rattle.explain.specs.Reading.{is_lone, opening_at, opened_at, begun_at, answer_at, fact_at, fact_of, next_at, GivesNext};

use access_schema::Schema;
use findings::Witness;
use lists::{Row, Seq, Text};
use meaning::types::{Fact, Instance};
use pq_text::{Cursor, Lexeme, Misfit};
use std::alloc::Global;

/// What has been read of a refutation: nothing, the opening line, the answer, facts of the first instance, facts of the second
/// one behind them, or all.
#[derive(Drop)]
pub enum Progress {
    Opening,
    Opened,
    Answered(Row),
    First {
        answer: Row,
        first: Instance,
    },
    Second {
        answer: Row,
        first: Instance,
        second: Instance,
    },
    Ended(Witness),
}

/// What has been read with one line more.
pub fn next(
    alloc: Global,
    schema: &Schema,
    done: Progress,
    line: &[Lexeme],
) -> Result<Progress, Misfit>
    ensures { GivesNext result (next_at schema.now done line.now) }
{
    match done {
        Progress::Opening => opened(line),
        Progress::Opened => Ok(Progress::Answered(answer(alloc, line)?)),
        Progress::Answered(answer) => begin_first(alloc, answer, line),
        Progress::First { answer, first } => in_first(alloc, schema, answer, first, line),
        Progress::Second {
            answer,
            first,
            second,
        } => in_second(alloc, schema, answer, first, second, line),
        Progress::Ended(_) => Err(Misfit::NoFit),
    }
}

fn begin_first(alloc: Global, answer: Row, line: &[Lexeme]) -> Result<Progress, Misfit>
    ensures { GivesNext result (begun_at answer line.now) }
{
    if !is_lone(line, b"first") {
        return Err(Misfit::NoFit);
    }
    Ok(Progress::First {
        answer,
        first: Seq::new(alloc),
    })
}

fn in_first(
    alloc: Global,
    schema: &Schema,
    answer: Row,
    first: Instance,
    line: &[Lexeme],
) -> Result<Progress, Misfit>
    ensures { GivesNext result (next_at schema.now (Progress.First answer first) line.now) }
{
    let mut first = first;
    if is_lone(line, b"second") {
        let second = Seq::new(alloc);
        return Ok(Progress::Second {
            answer,
            first,
            second,
        });
    }
    first.push(fact(alloc, schema, line)?)?;
    Ok(Progress::First { answer, first })
}

fn in_second(
    alloc: Global,
    schema: &Schema,
    answer: Row,
    first: Instance,
    second: Instance,
    line: &[Lexeme],
) -> Result<Progress, Misfit>
    ensures { GivesNext result (next_at schema.now (Progress.Second answer first second) line.now) }
{
    let mut second = second;
    if is_lone(line, b"end") {
        return Ok(Progress::Ended(Witness {
            first,
            second,
            answer,
        }));
    }
    second.push(fact(alloc, schema, line)?)?;
    Ok(Progress::Second {
        answer,
        first,
        second,
    })
}

// Whether the line is this word alone.
fn is_lone(line: &[Lexeme], text: &[u8]) -> bool
    ensures { result ≡ is_lone text.now line.now }
{
    match line {
        [token] => token.is_word(text),
        _ => false,
    }
}

// no plan
fn opened(line: &[Lexeme]) -> Result<Progress, Misfit>
    ensures { GivesNext result (opened_at line.now) }
{
    opening(line)?;
    Ok(Progress::Opened)
}

#[tactic(auto, unfolding(crate::specs::Reading::opening_at))]
fn opening(line: &[Lexeme]) -> Result<(), Misfit>
    ensures { GivesRest [] result (opening_at line.now) }
{
    let mut cursor = Cursor::new(line);
    cursor.word(b"no")?;
    cursor.word(b"plan")?;
    cursor.end()
}

// answer VALUE , ..
#[tactic(auto, unfolding(crate::specs::Reading::answer_at))]
fn answer(alloc: Global, line: &[Lexeme]) -> Result<Row, Misfit>
    ensures { Gives [] result (answer_at line.now) }
{
    let mut cursor = Cursor::new(line);
    cursor.word(b"answer")?;
    let answer = cursor.values(alloc)?;
    cursor.end()?;
    Ok(answer)
}

// NAME ( VALUE , .. )
#[tactic(auto, unfolding(crate::specs::Reading::fact_at))]
fn fact(alloc: Global, schema: &Schema, line: &[Lexeme]) -> Result<Fact, Misfit>
    ensures { Gives [] result (fact_at schema.now.relations line.now) }
{
    let mut cursor = Cursor::new(line);
    let name = cursor.name(alloc)?;
    cursor.symbol(b"(")?;
    let row = cursor.values(alloc)?;
    cursor.symbol(b")")?;
    cursor.end()?;
    match fitting(schema, &name, row) {
        Some(fact) => Ok(fact),
        None => Err(Misfit::NoFit),
    }
}

// The fact of the relation of this name, where it has so many columns.
fn fitting(schema: &Schema, name: &Text, row: Row) -> Option<Fact>
    ensures { result ≡ fact_of schema.now.relations name.now row }
{
    let rel = schema.relation(name)?;
    let relation = schema.relations.get(rel as usize)?;
    if row.len() == relation.columns.len() {
        Some(Fact { rel, row })
    } else {
        None
    }
}
