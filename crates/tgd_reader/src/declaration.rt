// One declaration.
ghost use Rattle.std.specs.Prelude.{◌≡◌, [], IfOk, IsErrOf, Some};
ghost use Rattle.pq_text.specs.Lexemes.{Gives};
ghost use Rattle.access_schema.specs.declared.part.Part.{Part};
ghost use Rattle.tgd_reader.specs.Grammar.{IsDeclaration};
ghost use Rattle.tgd_reader.specs.Reading.{cost_at, relation_at, method_at, rule_at, foreign_key_at, constant_at, source_at, part_at, declaration_at};

use crate::column::{names, read_columns, sorts};
use crate::listed::{atoms, inputs, relation_columns};
use access_schema::Part;
use pq_text::{Cursor, Lexeme, Misfit, value_up_to};
use std::alloc::Global;

/// The declaration of a line with this number, in a version where columns may be given sorts or may not.
pub fn read_declaration(
    alloc: Global,
    has_sorts: bool,
    number: u32,
    line: &[Lexeme],
) -> Result<Part, Misfit>
    // What is read is the declaration that the grammar relates to the line.
    ensures found { IfOk result (λ part. IsDeclaration has_sorts number line.now part) }

    // Each declaration is read, unless memory runs out.
    ensures only { (part : Part) → IsDeclaration has_sorts number line.now part → Gives [] result (Some (part, [])) }

    // A line that does not fit is no declaration.
    ensures misfit { IsErrOf result Misfit.NoFit → (part : Part) → IsDeclaration has_sorts number line.now part → ⊥ }
{
    read_line(alloc, has_sorts, number, line)
}

/// The same, with the place where reading ends.
pub fn read_line(
    alloc: Global,
    has_sorts: bool,
    number: u32,
    line: &[Lexeme],
) -> Result<Part, Misfit>
    ensures { Gives [] result (declaration_at has_sorts number line.now) }
{
    let mut cursor = Cursor::new(line);
    let part = part(alloc, has_sorts, number, &mut cursor)?;
    cursor.end()?;
    Ok(part)
}

// The declaration that begins with the next word, which is looked at and not taken.
fn part(
    alloc: Global,
    has_sorts: bool,
    number: u32,
    cursor: &mut Cursor<'_>,
) -> Result<Part, Misfit>
    ensures { Gives cursor.new result (part_at has_sorts number cursor.old) }
{
    if cursor.is_word(b"relation") {
        relation(alloc, has_sorts, cursor)
    } else if cursor.is_word(b"method") {
        method(alloc, cursor)
    } else if cursor.is_word(b"rule") {
        rule(alloc, number, cursor)
    } else if cursor.is_word(b"foreign") {
        foreign_key(alloc, number, cursor)
    } else if cursor.is_word(b"constant") {
        constant(alloc, cursor)
    } else {
        source(alloc, cursor)
    }
}

#[tactic(auto, unfolding(crate::specs::Reading::relation_at))]
fn relation(alloc: Global, has_sorts: bool, cursor: &mut Cursor<'_>) -> Result<Part, Misfit>
    ensures { Gives cursor.new result (relation_at has_sorts cursor.old) }
{
    cursor.word(b"relation")?;
    let name = cursor.name(alloc)?;
    cursor.symbol(b"(")?;
    let columns = read_columns(alloc, has_sorts, cursor)?;
    cursor.symbol(b")")?;
    Ok(Part::Relation {
        name,
        columns: names(alloc, columns.as_slice())?,
        sorts: sorts(alloc, columns.as_slice())?,
    })
}

#[tactic(auto, unfolding(crate::specs::Reading::cost_at))]
fn cost(alloc: Global, cursor: &mut Cursor<'_>) -> Result<u64, Misfit>
    ensures { Gives cursor.new result (cost_at cursor.old) }
{
    cursor.word(b"cost")?;
    let digits = cursor.number(alloc)?;
    Ok(value_up_to(&digits, 1_000_001))
}

#[tactic(auto, unfolding(crate::specs::Reading::method_at))]
fn method(alloc: Global, cursor: &mut Cursor<'_>) -> Result<Part, Misfit>
    ensures { Gives cursor.new result (method_at cursor.old) }
{
    cursor.word(b"method")?;
    let name = cursor.name(alloc)?;
    cursor.word(b"on")?;
    let relation = cursor.name(alloc)?;
    cursor.symbol(b"(")?;
    let inputs = inputs(alloc, cursor)?;
    let cost = cost(alloc, cursor)?;
    Ok(Part::Method {
        name,
        relation,
        inputs,
        cost,
    })
}

#[tactic(auto, unfolding(crate::specs::Reading::rule_at))]
fn rule(alloc: Global, number: u32, cursor: &mut Cursor<'_>) -> Result<Part, Misfit>
    ensures { Gives cursor.new result (rule_at number cursor.old) }
{
    cursor.word(b"rule")?;
    let body = atoms(alloc, cursor)?;
    cursor.symbol(b"->")?;
    let head = atoms(alloc, cursor)?;
    Ok(Part::Rule {
        line: number,
        body,
        head,
    })
}

#[tactic(auto, unfolding(crate::specs::Reading::foreign_key_at))]
fn foreign_key(alloc: Global, number: u32, cursor: &mut Cursor<'_>) -> Result<Part, Misfit>
    ensures { Gives cursor.new result (foreign_key_at number cursor.old) }
{
    cursor.word(b"foreign")?;
    cursor.word(b"key")?;
    let from = relation_columns(alloc, cursor)?;
    cursor.word(b"references")?;
    let to = relation_columns(alloc, cursor)?;
    Ok(Part::ForeignKey {
        line: number,
        relation: from.relation,
        columns: from.columns,
        target: to.relation,
        target_columns: to.columns,
    })
}

#[tactic(auto, unfolding(crate::specs::Reading::constant_at))]
fn constant(alloc: Global, cursor: &mut Cursor<'_>) -> Result<Part, Misfit>
    ensures { Gives cursor.new result (constant_at cursor.old) }
{
    cursor.word(b"constant")?;
    let text = cursor.value(alloc)?;
    Ok(Part::Constant { text })
}

#[tactic(auto, unfolding(crate::specs::Reading::source_at))]
fn source(alloc: Global, cursor: &mut Cursor<'_>) -> Result<Part, Misfit>
    ensures { Gives cursor.new result (source_at cursor.old) }
{
    cursor.word(b"source")?;
    let relation = cursor.name(alloc)?;
    let kind = cursor.name(alloc)?;
    let locator = cursor.text(alloc)?;
    Ok(Part::Source {
        relation,
        kind,
        locator,
    })
}
