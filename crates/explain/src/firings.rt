// The text of a select that is not decided.
ghost use Rattle.std.specs.Prelude.{◌≡◌, ◌++◌, ◌<◌, ◌≤◌, ◌^◌, ◌+◌, OnOk, IfOk, map, flat_map, slice_get, codes, length};
ghost use Rattle.std.specs.List.{range_with_len};
ghost use Rattle.std.specs.Str.{IsUtf8};
ghost use Rattle.pq_text.specs.Utf8.{KeepsUtf8};
ghost use Rattle.pq_text.specs.Listed.{listed};
ghost use Rattle.meaning.specs.declared.types.Val.TheVariants.{Label};
ghost use Rattle.explain.specs.Printing.{val_text, existentials, arrow_text, trigger_text, method_text, exposure_text, firing_text, opening_text, undecided_text};

use crate::push::push_number;
use access_schema::{MOST_VARIABLES, Schema};
use fact_lines::push_str;
use homomorphism::variables_width;
use lists::{Bytes, NoMemory};
use meaning::types::{Firing, Firings, Ground, Trigger, Val};
use pq_text::{Prints, print_listed, print_name, print_value};
use std::alloc::{AllocError, Global};

/// The text of a select that is not decided: how many firings were spent, the number of the select counted from 1, and the
/// firings in order.
pub fn undecided_text(
    alloc: Global,
    select: u32,
    log: &Firings,
    schema: &Schema,
) -> Result<Bytes, NoMemory>
    ensures text { IfOk result (λ text. text ≡ undecided_text schema.now select log.now) }
    ensures utf8 { IfOk result (λ text. IsUtf8 text) }
{
    let mut out = Vec::new(alloc);
    push_opening(&mut out, log.len() as u64, select)?;
    push_firings(&mut out, schema, log.as_slice())?;
    push_str(&mut out, "end\n")?;
    Ok(Bytes::from_vec(out))
}

// Appends how many firings there are and the number of the select, counted from 1.
fn push_opening(out: &mut Vec<u8>, count: u64, select: u32) -> Result<(), NoMemory>
    ensures text { OnOk result (out.new.items ≡ out.old.items ++ opening_text count select) }
    ensures utf8 { OnOk result (KeepsUtf8 out.old.items out.new.items) }
{
    push_str(out, "undecided after ")?;
    push_number(out, count)?;
    push_str(out, " firings\nselect ")?;
    push_number(out, select as u64 + 1)?;
    push_str(out, "\n")
}

// Appends a line for each firing.
fn push_firings(out: &mut Vec<u8>, schema: &Schema, log: &[Firing]) -> Result<(), NoMemory>
    ensures text { OnOk result (out.new.items ≡ out.old.items ++ flat_map (firing_text schema.now.rules schema.now.methods) log.now) }
    ensures utf8 { OnOk result (KeepsUtf8 out.old.items out.new.items) }
{
    for firing in log {
        push_firing(out, schema, firing)?;
    }
    Ok(())
}

// Appends the line of a firing.
fn push_firing(out: &mut Vec<u8>, schema: &Schema, firing: &Firing) -> Result<(), NoMemory>
    ensures text { OnOk result (out.new.items ≡ out.old.items ++ firing_text schema.now.rules schema.now.methods firing.now) }
    ensures utf8 { OnOk result (KeepsUtf8 out.old.items out.new.items) }
{
    match firing {
        Firing::Base(trigger) => {
            push_str(out, "base ")?;
            push_trigger(out, schema, trigger)
        }
        Firing::Copy(trigger) => {
            push_str(out, "copy ")?;
            push_trigger(out, schema, trigger)
        }
        Firing::Expose { method, fact } => push_exposure(out, schema, *method, fact),
    }
}

// Appends the line of an exposure.
fn push_exposure(
    out: &mut Vec<u8>,
    schema: &Schema,
    method: u32,
    fact: &Ground,
) -> Result<(), NoMemory>
    ensures text { OnOk result (out.new.items ≡ out.old.items ++ exposure_text schema.now.methods method fact.now) }
    ensures utf8 { OnOk result (KeepsUtf8 out.old.items out.new.items) }
{
    push_str(out, "expose ")?;
    push_method(out, schema, method)?;
    push_str(out, "(")?;
    push_vals(out, fact.vals.as_slice())?;
    push_str(out, ")\n")
}

// Appends the name of a method.
fn push_method(out: &mut Vec<u8>, schema: &Schema, method: u32) -> Result<(), NoMemory>
    ensures text { OnOk result (out.new.items ≡ out.old.items ++ method_text (slice_get schema.now.methods method)) }
    ensures utf8 { OnOk result (KeepsUtf8 out.old.items out.new.items) }
{
    match schema.methods.get(method as usize) {
        Some(method) => print_name(out, &method.name),
        None => Ok(()),
    }
}

/// Appends the number of a trigger's rule, its values and its new labels.
pub fn push_trigger(out: &mut Vec<u8>, schema: &Schema, trigger: &Trigger) -> Result<(), NoMemory>
    ensures text { OnOk result (out.new.items ≡ out.old.items ++ trigger_text schema.now.rules trigger.now) }
    ensures utf8 { OnOk result (KeepsUtf8 out.old.items out.new.items) }
{
    push_number(out, trigger.rule as u64 + 1)?;
    push_str(out, ": ")?;
    push_vals(out, trigger.values.as_slice())?;
    let count = existentials(schema, trigger.rule);
    push_new_labels(out, trigger.fresh as u64, count as u64)?;
    push_str(out, "\n")
}

// How many existential variables a rule has.
fn existentials(schema: &Schema, rule: u32) -> usize
    ensures count { result ≡ existentials (slice_get schema.now.rules rule) }
    ensures few { result ≤ MOST_VARIABLES }
{
    match schema.rules.get(rule as usize) {
        Some(rule) => {
            let width = variables_width(rule.head.as_slice());
            width.saturating_sub(variables_width(rule.body.as_slice()))
        }
        None => 0,
    }
}

// Appends an arrow and so many labels from a number on, and nothing where they are none.
fn push_new_labels(out: &mut Vec<u8>, from: u64, count: u64) -> Result<(), NoMemory>
    requires { from + count < 2 ^ 64 }
    ensures text { OnOk result (out.new.items ≡ out.old.items ++ arrow_text (map Label (range_with_len from count))) }
    ensures utf8 { OnOk result (KeepsUtf8 out.old.items out.new.items) }
{
    if count == 0 {
        return Ok(());
    }
    push_str(out, " -> ")?;
    push_label(out, from)?;
    push_further_labels(out, from + 1, count - 1)
}

// Appends a comma, a blank and a label, for each of so many labels from a number on.
fn push_further_labels(out: &mut Vec<u8>, from: u64, count: u64) -> Result<(), NoMemory>
    requires { from + count < 2 ^ 64 }
    ensures text { OnOk result (out.new.items ≡ out.old.items ++ flat_map (λ y. codes ", " ++ val_text y) (map Label (range_with_len from count))) }
    ensures utf8 { OnOk result (KeepsUtf8 out.old.items out.new.items) }
{
    for place in 0..count {
        push_str(out, ", ")?;
        push_label(out, from + place)?;
    }
    Ok(())
}

// Appends values, with a comma and a blank between two.
fn push_vals(out: &mut Vec<u8>, vals: &[Val]) -> Result<(), NoMemory>
    ensures text { OnOk result (out.new.items ≡ out.old.items ++ listed val_text vals.now) }
    ensures utf8 { OnOk result (KeepsUtf8 out.old.items out.new.items) }
{
    print_listed(out, &ValText, vals)
}

// Constants and labels as they are printed.
struct ValText;

impl Prints for ValText {
    type Item = Val;

    ghost text = { λ form. val_text };

    fn print(&self, out: &mut Vec<u8>, item: &Val) -> Result<(), AllocError> {
        push_val(out, item)
    }
}

// Appends a constant or a label.
fn push_val(out: &mut Vec<u8>, val: &Val) -> Result<(), NoMemory>
    ensures text { OnOk result (out.new.items ≡ out.old.items ++ val_text val.now) }
    ensures utf8 { OnOk result (KeepsUtf8 out.old.items out.new.items) }
{
    match val {
        Val::Const(text) => print_value(out, text),
        Val::Label(label) => push_label(out, *label as u64),
    }
}

// Appends a label.
fn push_label(out: &mut Vec<u8>, label: u64) -> Result<(), NoMemory>
    ensures text { OnOk result (out.new.items ≡ out.old.items ++ val_text (Label label)) }
    ensures utf8 { OnOk result (KeepsUtf8 out.old.items out.new.items) }
{
    push_str(out, "#")?;
    push_number(out, label)
}
