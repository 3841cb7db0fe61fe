// The constants of the schema and of the statement, each once, by first occurrence.
ghost use Rattle.std.specs.Prelude.{◌≡◌, ◌↔◌, ◌⊎◌, ℕ, List, IfOk, Contains};
ghost use Rattle.access_schema.specs.Lists.{once_after};
ghost use Rattle.access_schema.specs.Names.{AllDiffer};
ghost use Rattle.sql_select.specs.Known.{literals_in, with_operand, with_items, with_conditions, with_selects};

use access_schema::{Schema, add_once};
use lists::{Copies, Seq, Text, Texts};
use meaning::types::{Condition, Operand, Select, Statement};
use std::alloc::{AllocError, Global};

/// The known constants: those of the schema, and then those of the statement by first occurrence, each once.
pub fn known(alloc: Global, schema: &Schema, statement: &Statement) -> Result<Texts, AllocError>
    ensures order { IfOk result (λ texts. texts ≡ once_after schema.now.constants (literals_in statement.now.selects)) }
    ensures once { IfOk result (λ texts. AllDiffer texts) }
    ensures members { IfOk result (λ texts. (text : List ℕ) → Contains texts text
        ↔ (Contains schema.now.constants text ⊎ Contains (literals_in statement.now.selects) text)) }
{
    collect(alloc, schema, statement)
}

fn collect(alloc: Global, schema: &Schema, statement: &Statement) -> Result<Texts, AllocError>
    ensures { IfOk result (λ texts. texts ≡ with_selects schema.now.constants statement.now.selects) }
{
    let mut seen = schema.constants.copy(alloc)?.into_vec();
    note_selects(alloc, &mut seen, statement.selects.as_slice())?;
    Ok(Seq::from_vec(seen))
}

fn note_selects(alloc: Global, seen: &mut Vec<Text>, selects: &[Select]) -> Result<(), AllocError>
    ensures { IfOk result (λ _. seen.new.items ≡ with_selects seen.old.items selects.now) }
{
    let mut left = selects;
    while let [select, rest @ ..] = left {
        note_items(alloc, seen, select.items.as_slice())?;
        note_conditions(alloc, seen, select.conditions.as_slice())?;
        left = rest;
    }
    Ok(())
}

fn note_items(alloc: Global, seen: &mut Vec<Text>, items: &[Operand]) -> Result<(), AllocError>
    ensures { IfOk result (λ _. seen.new.items ≡ with_items seen.old.items items.now) }
{
    let mut left = items;
    while let [item, rest @ ..] = left {
        note_operand(alloc, seen, item)?;
        left = rest;
    }
    Ok(())
}

fn note_conditions(
    alloc: Global,
    seen: &mut Vec<Text>,
    conditions: &[Condition],
) -> Result<(), AllocError>
    ensures { IfOk result (λ _. seen.new.items ≡ with_conditions seen.old.items conditions.now) }
{
    let mut left = conditions;
    while let [condition, rest @ ..] = left {
        note_operand(alloc, seen, &condition.left)?;
        note_operand(alloc, seen, &condition.right)?;
        left = rest;
    }
    Ok(())
}

fn note_operand(alloc: Global, seen: &mut Vec<Text>, operand: &Operand) -> Result<(), AllocError>
    ensures { IfOk result (λ _. seen.new.items ≡ with_operand seen.old.items operand.now) }
{
    match operand {
        Operand::Literal(text) => add_once(alloc, seen, text),
        Operand::Column { .. } => Ok(()),
    }
}
