// The text of a plan, with what was chosen for each select.
ghost use Rattle.std.specs.Prelude.{◌≡◌, ◌++◌, ◌+◌, ◌<◌, ◌^◌, OnOk, IfOk, codes, length};
ghost use Rattle.std.specs.Str.{IsUtf8};
ghost use Rattle.pq_text.specs.Utf8.{KeepsUtf8};
ghost use Rattle.plan_form.specs.Printing.{plan_text};
ghost use Rattle.explain.specs.Printing.{entry_line, entry_lines, entry_text, least_text, planned_text};

use crate::push::push_number;
use fact_lines::push_str;
use findings::{Chosen, ChosenList, Least};
use lists::{Bytes, NoMemory};
use meaning::types::Plan;
use plan_form::plan_text;
use std::alloc::Global;

/// The text of a plan behind a comment line for each select, by the law `printed_plans_say_the_plan` one that says the plan.
pub fn planned_text(alloc: Global, plan: &Plan, selects: &ChosenList) -> Result<Bytes, NoMemory>
    ensures text { IfOk result (λ text. text ≡ planned_text selects.now plan.now) }
    ensures utf8 { IfOk result (λ text. IsUtf8 text) }
{
    let mut out = Vec::new(alloc);
    push_entries(&mut out, selects.as_slice())?;
    push_plan(alloc, &mut out, plan)?;
    Ok(Bytes::from_vec(out))
}

// Appends the text of a plan.
fn push_plan(alloc: Global, out: &mut Vec<u8>, plan: &Plan) -> Result<(), NoMemory>
    ensures text { OnOk result (out.new.items ≡ out.old.items ++ plan_text plan.now) }
    ensures utf8 { OnOk result (KeepsUtf8 out.old.items out.new.items) }
{
    let text = plan_text(alloc, plan)?;
    out.extend_from_slice(text.as_slice())?;
    Ok(())
}

// Appends a comment line for each select.
fn push_entries(out: &mut Vec<u8>, entries: &[Chosen]) -> Result<(), NoMemory>
    ensures text { OnOk result (out.new.items ≡ out.old.items ++ entry_lines 1 entries.now) }
    ensures utf8 { OnOk result (KeepsUtf8 out.old.items out.new.items) }
{
    let mut number = 1;
    let mut left = entries;
    while let [entry, rest @ ..] = left {
        push_entry(out, number, entry)?;
        number += 1;
        left = rest;
    }
    Ok(())
}

// Appends the comment line of the select with that number.
fn push_entry(out: &mut Vec<u8>, number: u64, entry: &Chosen) -> Result<(), NoMemory>
    ensures text { OnOk result (out.new.items ≡ out.old.items ++ entry_line number entry.now) }
    ensures utf8 { OnOk result (KeepsUtf8 out.old.items out.new.items) }
{
    push_str(out, "# select ")?;
    push_number(out, number)?;
    push_chosen(out, *entry)?;
    push_str(out, "\n")
}

// Appends what is said of a select.
fn push_chosen(out: &mut Vec<u8>, entry: Chosen) -> Result<(), NoMemory>
    ensures text { OnOk result (out.new.items ≡ out.old.items ++ entry_text entry) }
    ensures utf8 { OnOk result (KeepsUtf8 out.old.items out.new.items) }
{
    match entry {
        Chosen::NoRow => push_str(out, " no row"),
        Chosen::Branch { cost, least } => {
            push_str(out, " cost ")?;
            push_number(out, cost)?;
            push_str(out, " ")?;
            push_least(out, least)
        }
    }
}

// Appends what is said of the cost of a branch.
fn push_least(out: &mut Vec<u8>, least: Least) -> Result<(), NoMemory>
    ensures text { OnOk result (out.new.items ≡ out.old.items ++ least_text least) }
    ensures utf8 { OnOk result (KeepsUtf8 out.old.items out.new.items) }
{
    match least {
        Least::Shown => push_str(out, "least"),
        Least::SearchSpent { units } => {
            push_str(out, "search spent after ")?;
            push_number(out, units as u64)
        }
        Least::FiringsSpent { firings } => {
            push_str(out, "firings spent after ")?;
            push_number(out, firings as u64)
        }
    }
}
