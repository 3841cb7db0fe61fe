// The text of what is found of a plan.
ghost use Rattle.std.specs.Prelude.{◌≡◌, ◌++◌, ◌+◌, OnOk, IfOk, map, flat_map, codes};
ghost use Rattle.std.specs.Fmt.{decimal};
ghost use Rattle.std.specs.Str.{IsUtf8};
ghost use Rattle.pq_text.specs.Utf8.{KeepsUtf8};
ghost use Rattle.plan_form.specs.Printing.{illegal_text};
ghost use Rattle.fact_lines.specs.Lent.{lent_fact};
ghost use Rattle.explain.specs.Verdicts.{separation_text, IsPrintedSeparation, side_text, base_text, count_text, spent_text, IsVerdictText};

use crate::firings::push_trigger;
use crate::push::push_number;
use access_schema::Schema;
use fact_lines::{ascending, push_facts, push_str};
use findings::{Side, Verdict};
use lists::{Bytes, NoMemory, Row, Text};
use meaning::types::{Instance, Trigger, Triggers};
use plan_form::{PlanFault, illegal_text};
use pq_text::print_values;
use std::alloc::Global;

/// The text of a verdict: the word `equivalent`, the line of the plan's fault, the row and the instance that separate, with each fact
/// once and in ascending order, or the firings that were spent.
pub fn verdict_text(alloc: Global, verdict: &Verdict, schema: &Schema) -> Result<Bytes, NoMemory>
    ensures text { IfOk result (λ text. IsVerdictText schema.now verdict.now text) }
    ensures utf8 { IfOk result (λ text. IsUtf8 text) }
{
    match verdict {
        Verdict::Equivalent => equivalent_text(alloc),
        Verdict::Illegal(fault) => fault_text(alloc, *fault),
        Verdict::Loses(instance, row) => separation(alloc, schema, "loses ", instance, row),
        Verdict::Adds(instance, row) => separation(alloc, schema, "adds ", instance, row),
        Verdict::Undecided { side, log } => spent(alloc, schema, *side, log),
    }
}

fn equivalent_text(alloc: Global) -> Result<Bytes, NoMemory>
    ensures text { IfOk result (λ text. text ≡ codes "equivalent\n") }
    ensures utf8 { IfOk result (λ text. IsUtf8 text) }
{
    let mut out = Vec::new(alloc);
    push_str(&mut out, "equivalent\n")?;
    Ok(Bytes::from_vec(out))
}

// The line of a fault, which is that of the command `exec` too.
fn fault_text(alloc: Global, fault: PlanFault) -> Result<Bytes, NoMemory>
    ensures text { IfOk result (λ text. text ≡ illegal_text fault) }
    ensures utf8 { IfOk result (λ text. IsUtf8 text) }
{
    let text = illegal_text(alloc, &fault)?;
    Ok(text)
}

// The row and the instance that separate, behind a word.
fn separation(
    alloc: Global,
    schema: &Schema,
    word: &str,
    instance: &Instance,
    row: &Row,
) -> Result<Bytes, NoMemory>
    ensures text { IfOk result (λ text. IsPrintedSeparation schema.now word.now instance.now row.now text) }
    ensures utf8 { IfOk result (λ text. IsUtf8 text) }
{
    let listing = ascending(alloc, instance.as_slice())?;
    let mut out = Vec::new(alloc);
    push_separation(&mut out, schema, word, row.as_slice(), listing.as_slice())?;
    Ok(Bytes::from_vec(out))
}

// Appends a word, a row, and the facts of an instance as they stand.
fn push_separation(
    out: &mut Vec<u8>,
    schema: &Schema,
    word: &str,
    row: &[Text],
    facts: &[(u32, &Row)],
) -> Result<(), NoMemory>
    ensures text { OnOk result (out.new.items ≡ out.old.items ++ separation_text schema.now.relations word.now row.now (map lent_fact facts.now)) }
    ensures utf8 { OnOk result (KeepsUtf8 out.old.items out.new.items) }
{
    push_str(out, word)?;
    print_values(out, row)?;
    push_str(out, "\ninstance\n")?;
    push_facts(out, schema, facts)?;
    push_str(out, "end\n")
}

// How many firings were spent, the side that was tried, and the firings in order.
fn spent(alloc: Global, schema: &Schema, side: Side, log: &Triggers) -> Result<Bytes, NoMemory>
    ensures text { IfOk result (λ text. text ≡ spent_text schema.now side log.now) }
    ensures utf8 { IfOk result (λ text. IsUtf8 text) }
{
    let mut out = Vec::new(alloc);
    push_count(&mut out, log.len() as u64)?;
    push_side(&mut out, side)?;
    push_triggers(&mut out, schema, log.as_slice())?;
    push_str(&mut out, "end\n")?;
    Ok(Bytes::from_vec(out))
}

// Appends how many firings were spent.
fn push_count(out: &mut Vec<u8>, count: u64) -> Result<(), NoMemory>
    ensures text { OnOk result (out.new.items ≡ out.old.items ++ count_text count) }
    ensures utf8 { OnOk result (KeepsUtf8 out.old.items out.new.items) }
{
    push_str(out, "undecided after ")?;
    push_number(out, count)?;
    push_str(out, " firings\n")
}

// Appends the side that was tried.
fn push_side(out: &mut Vec<u8>, side: Side) -> Result<(), NoMemory>
    ensures text { OnOk result (out.new.items ≡ out.old.items ++ side_text side) }
    ensures utf8 { OnOk result (KeepsUtf8 out.old.items out.new.items) }
{
    match side {
        Side::Select(number) => push_numbered(out, "select ", number),
        Side::Branch(number) => push_numbered(out, "branch ", number),
    }
}

// Appends a line of a word and a number that is counted from 1.
fn push_numbered(out: &mut Vec<u8>, word: &str, number: u32) -> Result<(), NoMemory>
    ensures text { OnOk result (out.new.items ≡ out.old.items ++ word.now ++ decimal (number + 1) ++ codes "\n") }
    ensures utf8 { OnOk result (KeepsUtf8 out.old.items out.new.items) }
{
    push_str(out, word)?;
    push_number(out, number as u64 + 1)?;
    push_str(out, "\n")
}

// Appends a line for each firing.
fn push_triggers(out: &mut Vec<u8>, schema: &Schema, log: &[Trigger]) -> Result<(), NoMemory>
    ensures text { OnOk result (out.new.items ≡ out.old.items ++ flat_map (base_text schema.now.rules) log.now) }
    ensures utf8 { OnOk result (KeepsUtf8 out.old.items out.new.items) }
{
    for trigger in log {
        push_base(out, schema, trigger)?;
    }
    Ok(())
}

// Appends the line of a firing.
fn push_base(out: &mut Vec<u8>, schema: &Schema, trigger: &Trigger) -> Result<(), NoMemory>
    ensures text { OnOk result (out.new.items ≡ out.old.items ++ base_text schema.now.rules trigger.now) }
    ensures utf8 { OnOk result (KeepsUtf8 out.old.items out.new.items) }
{
    push_str(out, "base ")?;
    push_trigger(out, schema, trigger)
}
