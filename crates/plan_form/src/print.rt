// The text of a plan.
ghost use Rattle.std.specs.Prelude.{◌≡◌, ◌++◌, OnOk, IfOk, codes, flat_map};
ghost use Rattle.std.specs.Str.{IsUtf8};
ghost use Rattle.pq_text.specs.Utf8.{KeepsUtf8};
ghost use Rattle.plan_form.specs.Fitting.{IsWritable};
ghost use Rattle.plan_form.specs.Grammar.{IsPlanText};
ghost use Rattle.plan_form.specs.Printing.{place_text, out_text, column_text, step_text, branch_text, plan_text};

use lists::Bytes;
use meaning::types::{Branch, Out, Place, Plan, Step};
use pq_text::{Prints, print_listed, print_name, print_number, print_value};
use std::alloc::{AllocError, Global};

/// The text of a plan: its width, its branches with their access lines and output lines, and the line `end`.
pub fn plan_text(alloc: Global, plan: &Plan) -> Result<Bytes, AllocError>
    ensures text { IfOk result (λ text. text ≡ plan_text plan.now) }

    // The text is UTF-8, and so it is read as the plan again.
    ensures utf8 { IfOk result (λ text. IsUtf8 text) }
    ensures read { IsWritable plan.now → IfOk result (λ text. IsPlanText text plan.now) }
{
    let mut out = Vec::new(alloc);
    push_plan(&mut out, plan)?;
    Ok(Bytes::from_vec(out))
}

fn push_plan(out: &mut Vec<u8>, plan: &Plan) -> Result<(), AllocError>
    ensures text { OnOk result (out.new.items ≡ out.old.items ++ plan_text plan.now) }
    ensures utf8 { OnOk result (KeepsUtf8 out.old.items out.new.items) }
{
    out.extend_from_slice(b"plan ")?;
    print_number(out, plan.width as u64)?;
    out.extend_from_slice(b"\n")?;
    push_branches(out, plan.branches.as_slice())?;
    out.extend_from_slice(b"end\n")?;
    Ok(())
}

fn push_branches(out: &mut Vec<u8>, branches: &[Branch]) -> Result<(), AllocError>
    ensures text { OnOk result (out.new.items ≡ out.old.items ++ flat_map branch_text branches.now) }
    ensures utf8 { OnOk result (KeepsUtf8 out.old.items out.new.items) }
{
    for branch in branches {
        push_branch(out, branch)?;
    }
    Ok(())
}

fn push_branch(out: &mut Vec<u8>, branch: &Branch) -> Result<(), AllocError>
    ensures text { OnOk result (out.new.items ≡ out.old.items ++ branch_text branch.now) }
    ensures utf8 { OnOk result (KeepsUtf8 out.old.items out.new.items) }
{
    out.extend_from_slice(b"branch\n")?;
    push_steps(out, branch.steps.as_slice())?;
    out.extend_from_slice(b"output ")?;
    print_listed(out, &OutText, branch.output.as_slice())?;
    out.extend_from_slice(b"\n")?;
    Ok(())
}

fn push_steps(out: &mut Vec<u8>, steps: &[Step]) -> Result<(), AllocError>
    ensures text { OnOk result (out.new.items ≡ out.old.items ++ flat_map step_text steps.now) }
    ensures utf8 { OnOk result (KeepsUtf8 out.old.items out.new.items) }
{
    for step in steps {
        push_step(out, step)?;
    }
    Ok(())
}

fn push_step(out: &mut Vec<u8>, step: &Step) -> Result<(), AllocError>
    ensures text { OnOk result (out.new.items ≡ out.old.items ++ step_text step.now) }
    ensures utf8 { OnOk result (KeepsUtf8 out.old.items out.new.items) }
{
    out.extend_from_slice(b"access ")?;
    print_name(out, &step.method)?;
    out.extend_from_slice(b"(")?;
    print_listed(out, &PlaceText, step.places.as_slice())?;
    out.extend_from_slice(b")\n")?;
    Ok(())
}

// Places of steps as they are printed.
struct PlaceText;

impl Prints for PlaceText {
    type Item = Place;

    ghost text = { λ form. place_text };

    fn print(&self, out: &mut Vec<u8>, item: &Place) -> Result<(), AllocError> {
        push_place(out, item)
    }
}

fn push_place(out: &mut Vec<u8>, place: &Place) -> Result<(), AllocError>
    ensures text { OnOk result (out.new.items ≡ out.old.items ++ place_text place.now) }
    ensures utf8 { OnOk result (KeepsUtf8 out.old.items out.new.items) }
{
    match place {
        Place::Const(text) => print_value(out, text),
        Place::Col(column) => push_column(out, *column),
        Place::New => {
            out.extend_from_slice(b"new")?;
            Ok(())
        }
    }
}

// Places of outputs as they are printed.
struct OutText;

impl Prints for OutText {
    type Item = Out;

    ghost text = { λ form. out_text };

    fn print(&self, out: &mut Vec<u8>, item: &Out) -> Result<(), AllocError> {
        push_out(out, item)
    }
}

fn push_out(out: &mut Vec<u8>, member: &Out) -> Result<(), AllocError>
    ensures text { OnOk result (out.new.items ≡ out.old.items ++ out_text member.now) }
    ensures utf8 { OnOk result (KeepsUtf8 out.old.items out.new.items) }
{
    match member {
        Out::Const(text) => print_value(out, text),
        Out::Col(column) => push_column(out, *column),
    }
}

fn push_column(out: &mut Vec<u8>, column: u32) -> Result<(), AllocError>
    ensures text { OnOk result (out.new.items ≡ out.old.items ++ column_text column) }
    ensures utf8 { OnOk result (KeepsUtf8 out.old.items out.new.items) }
{
    out.extend_from_slice(b"$")?;
    print_number(out, column as u64)
}
