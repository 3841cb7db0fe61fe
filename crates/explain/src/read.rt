// Refutations from text.
ghost use Rattle.std.specs.Prelude.{◌≡◌, ◌≤◌, ◌^◌, length, IfOk, IfErr};
ghost use Rattle.findings.specs.declared.refutation.Witness.{Witness};
ghost use Rattle.explain.specs.declared.progress.Progress.TheVariants.{Opening};
ghost use Rattle.explain.specs.Grammar.{IsWitnessText, IsWitnessReadFault, OkOrNoMemory};
ghost use Rattle.explain.specs.Reading.{witness_of, progress_from, ProgressGives, HasLineFault};

use crate::fault::WitnessReadFault;
use crate::progress::{Progress, next};
use access_schema::Schema;
use findings::Witness;
use pq_text::{Line, Misfit, next_line, read_utf8, text_lines};
use std::alloc::Global;

/// The refutation of a text, or the first byte that begins no character, or the first line that does not fit: one that is not
/// of the grammar, or whose relation the schema lacks, or whose values are not as many as the relation's columns.
///
/// Lines without tokens are passed over. Where the text ends early, the line is one more than the line feeds.
pub fn read_witness(
    alloc: Global,
    bytes: &[u8],
    schema: &Schema,
) -> Result<Witness, WitnessReadFault>
    requires { length bytes.now ≤ 2 ^ 30 }

    // What is read is the pair that the grammar relates to the bytes, which are a text.
    ensures read { IfOk result (λ pair. IsWitnessText schema.now bytes.now pair) }

    // The text of a pair is read as that pair, unless memory runs out.
    ensures only { (pair : Witness) → IsWitnessText schema.now bytes.now pair → OkOrNoMemory pair result }
    ensures fault { IfErr result (λ fault. IsWitnessReadFault schema.now bytes.now fault) }
{
    match read_utf8(bytes) {
        Ok(text) => text_witness(alloc, text, schema),
        Err(offset) => Err(WitnessReadFault::NotUtf8 { offset }),
    }
}

fn text_witness(alloc: Global, text: &str, schema: &Schema) -> Result<Witness, WitnessReadFault>
    requires { length text.now ≤ 2 ^ 30 }
    ensures read { IfOk result (λ pair. IsWitnessText schema.now text.now pair) }
    ensures fault { IfErr result (λ fault. HasLineFault schema.now text.now fault) }
{
    let told = text_lines(alloc, text)?;
    let done = lines_progress(alloc, schema, told.whole.as_slice())?;
    match told.broken {
        Some(line) => Err(WitnessReadFault::Line { line }),
        None => match finished(done) {
            Some(pair) => Ok(pair),
            None => Err(WitnessReadFault::Line {
                line: next_line(text),
            }),
        },
    }
}

// The pair, where its last line has been read.
fn finished(done: Progress) -> Option<Witness>
    ensures { result ≡ witness_of done }
{
    match done {
        Progress::Ended(pair) => Some(pair),
        _ => None,
    }
}

// What the lines say of a pair, or the first line that does not fit behind those before it.
fn lines_progress(
    alloc: Global,
    schema: &Schema,
    lines: &[Line],
) -> Result<Progress, WitnessReadFault>
    ensures { ProgressGives result (progress_from schema.now Opening lines.now) }
{
    let mut done = Progress::Opening;
    let mut left = lines;
    while let [line, rest @ ..] = left {
        if let [_, ..] = line.tokens.as_slice() {
            match next(alloc, schema, done, line.tokens.as_slice()) {
                Ok(more) => done = more,
                Err(Misfit::NoFit) => return Err(WitnessReadFault::Line { line: line.number }),
                Err(Misfit::NoMemory) => return Err(WitnessReadFault::NoMemory),
            }
        }
        left = rest;
    }
    Ok(done)
}
