// The declarations of a text, or the first line that is none.
ghost use Rattle.std.specs.Prelude.{◌≡◌, ◌≤◌, ◌^◌, [], length, IfOk, IfErr};
ghost use Rattle.tgd_reader.specs.declared.parts.Declared.{Declared};
ghost use Rattle.tgd_reader.specs.declared.fault.PartsFault.TheVariants.{NoMemory};
ghost use Rattle.tgd_reader.specs.Reading.{parts_from, PartsGive};
ghost use Rattle.tgd_reader.specs.Grammar.{AreDeclared, IsFault, HasParts, HasFaultyLine, OkOrNoMemory};

use crate::declaration::read_line;
use crate::fault::PartsFault;
use crate::version::version_and_rest;
use access_schema::Parts;
use lists::{Places, Seq};
use pq_text::{Line, Misfit, text_lines};
use std::alloc::Global;

/// The parts of a text, and the number of the line on which each stands.
#[derive(Drop)]
pub struct Declared {
    pub parts: Parts,
    pub lines: Places,
}

/// The part of each line that has tokens and does not name the version, or the first line that is no declaration.
pub fn read_parts(alloc: Global, text: &str) -> Result<Declared, PartsFault>
    requires { length text.now ≤ 2 ^ 30 }
    ensures found { IfOk result (λ declared. HasParts text.now declared) }
    ensures only { (declared : Declared) → HasParts text.now declared → OkOrNoMemory declared result }
    ensures fault { IfErr result (λ fault. HasFaultyLine text.now fault) }
{
    text_parts(alloc, text)
}

fn text_parts(alloc: Global, text: &str) -> Result<Declared, PartsFault>
    requires { length text.now ≤ 2 ^ 30 }
    ensures found { IfOk result (λ declared. HasParts text.now declared) }
    ensures fault { IfErr result (λ fault. HasFaultyLine text.now fault) }
{
    let told = text_lines(alloc, text)?;
    let declared = lines_parts(alloc, told.whole.as_slice())?;
    match told.broken {
        None => Ok(declared),
        Some(line) => Err(PartsFault::Line { line }),
    }
}

fn lines_parts(alloc: Global, lines: &[Line]) -> Result<Declared, PartsFault>
    ensures found { IfOk result (λ declared. AreDeclared lines.now declared.parts declared.lines) }
    ensures fault { IfErr result (λ fault. IsFault lines.now fault) }
{
    let (has_sorts, declarations) = version_and_rest(lines);
    all_parts(alloc, has_sorts, declarations)
}

fn all_parts(alloc: Global, has_sorts: bool, lines: &[Line]) -> Result<Declared, PartsFault>
    ensures { PartsGive result (parts_from has_sorts [] [] lines.now) }
{
    let mut parts = Seq::new(alloc);
    let mut numbers = Seq::new(alloc);
    let mut left = lines;
    while let [line, rest @ ..] = left {
        if let [_, ..] = line.tokens.as_slice() {
            match read_line(alloc, has_sorts, line.number, line.tokens.as_slice()) {
                Ok(part) => {
                    parts.push(part)?;
                    numbers.push(line.number)?;
                }
                Err(Misfit::NoFit) => return Err(PartsFault::Line { line: line.number }),
                Err(Misfit::NoMemory) => return Err(PartsFault::NoMemory),
            }
        }
        left = rest;
    }
    Ok(Declared {
        parts,
        lines: numbers,
    })
}
