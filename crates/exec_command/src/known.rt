// The constants that are known to a plan, and the names of its columns.
ghost use Rattle.std.specs.Prelude.{◌≡◌, ◌↔◌, ◌++◌, ◌≤◌, ℕ, List, Contains, IfOk, OnOk, flat_map};
ghost use Rattle.exec_command.specs.Known.{constant_in, constant_out, constants_of_step, constants_of_branch, known_to, column_names as names_of_columns, column_name as name_of_column};

use access_schema::Schema;
use lists::{Copies, Seq, Text, Texts};
use meaning::types::{Branch, Out, Place, Plan, Step};
use std::alloc::{AllocError, Global};

/// The constants of the schema and of the plan, ascending, each once.
pub fn known(alloc: Global, schema: &Schema, plan: &Plan) -> Result<Vec<Text>, AllocError>
    ensures { IfOk result (λ texts. (text : List ℕ) → Contains texts.items text ↔ Contains (known_to schema.now plan.now) text) }
{
    let mut texts = all_known(alloc, schema, plan)?;
    keep_once(&mut texts);
    Ok(texts)
}

// Sorts the texts, and keeps each once.
fn keep_once(texts: &mut Vec<Text>)
    ensures { (text : List ℕ) → Contains texts.new.items text ↔ Contains texts.old.items text }
{
    texts.sort_unstable();
    texts.dedup();
}

// The constants of the schema, and then those of the plan, in the order of its text.
fn all_known(alloc: Global, schema: &Schema, plan: &Plan) -> Result<Vec<Text>, AllocError>
    ensures { IfOk result (λ texts. texts.items ≡ known_to schema.now plan.now) }
{
    let mut texts = schema.constants.copy(alloc)?.into_vec();
    add_branches(alloc, &mut texts, plan.branches.as_slice())?;
    Ok(texts)
}

fn add_branches(alloc: Global, texts: &mut Vec<Text>, branches: &[Branch]) -> Result<(), AllocError>
    ensures { OnOk result (texts.new.items ≡ texts.old.items ++ flat_map constants_of_branch branches.now) }
{
    for branch in branches {
        add_branch(alloc, texts, branch)?;
    }
    Ok(())
}

fn add_branch(alloc: Global, texts: &mut Vec<Text>, branch: &Branch) -> Result<(), AllocError>
    ensures { OnOk result (texts.new.items ≡ texts.old.items ++ constants_of_branch branch.now) }
{
    add_steps(alloc, texts, branch.steps.as_slice())?;
    add_outs(alloc, texts, branch.output.as_slice())
}

fn add_steps(alloc: Global, texts: &mut Vec<Text>, steps: &[Step]) -> Result<(), AllocError>
    ensures { OnOk result (texts.new.items ≡ texts.old.items ++ flat_map constants_of_step steps.now) }
{
    for step in steps {
        add_places(alloc, texts, step.places.as_slice())?;
    }
    Ok(())
}

fn add_places(alloc: Global, texts: &mut Vec<Text>, places: &[Place]) -> Result<(), AllocError>
    ensures { OnOk result (texts.new.items ≡ texts.old.items ++ flat_map constant_in places.now) }
{
    for place in places {
        add_place(alloc, texts, place)?;
    }
    Ok(())
}

fn add_place(alloc: Global, texts: &mut Vec<Text>, place: &Place) -> Result<(), AllocError>
    ensures { OnOk result (texts.new.items ≡ texts.old.items ++ constant_in place.now) }
{
    match place {
        Place::Const(text) => Ok(texts.push(text.copy(alloc)?)?),
        Place::Col(_) => Ok(()),
        Place::New => Ok(()),
    }
}

fn add_outs(alloc: Global, texts: &mut Vec<Text>, outs: &[Out]) -> Result<(), AllocError>
    ensures { OnOk result (texts.new.items ≡ texts.old.items ++ flat_map constant_out outs.now) }
{
    for out in outs {
        add_out(alloc, texts, out)?;
    }
    Ok(())
}

fn add_out(alloc: Global, texts: &mut Vec<Text>, out: &Out) -> Result<(), AllocError>
    ensures { OnOk result (texts.new.items ≡ texts.old.items ++ constant_out out.now) }
{
    match out {
        Out::Const(text) => Ok(texts.push(text.copy(alloc)?)?),
        Out::Col(_) => Ok(()),
    }
}

/// The names of the columns of a plan that is so wide.
pub fn column_names(alloc: Global, width: u32) -> Result<Texts, AllocError>
    requires { width ≤ 64 }
    ensures { IfOk result (λ names. names ≡ names_of_columns width) }
{
    let mut names = Vec::new(alloc);
    for number in 0..width {
        names.push(column_name(alloc, number)?)?;
    }
    Ok(Seq::from_vec(names))
}

// The name of the column with this number; columns are counted from 0, and in their names from 1.
fn column_name(alloc: Global, number: u32) -> Result<Text, AllocError>
    requires { number ≤ 64 }
    ensures { IfOk result (λ name. name ≡ name_of_column number) }
{
    Text::from_string(format!(in alloc; "column{}", number + 1)?)
}
