// What a proof lends, as text.
use super::calls::write_number;
use accessible_copy::Proof;
use lists::NoMemory;
use meaning::types::{Firing, Ground, Trigger, Val};
use std::alloc::Global;
use std::slice;

fn write_val(alloc: Global, made: &mut String, val: &Val) -> Result<(), NoMemory> {
    match val {
        Val::Label(label) => made.push_str(format!(in alloc; " #{label}")?.as_str()),
        Val::Const(text) => made.push_str(format!(in alloc; " {}", text.as_str())?.as_str()),
    }
}

fn write_vals(alloc: Global, made: &mut String, vals: &[Val]) -> Result<(), NoMemory> {
    for val in vals {
        write_val(alloc, made, val)?;
    }
    made.push_str("; ")
}

fn write_fact(alloc: Global, made: &mut String, kind: &str, fact: &Ground) -> Result<(), NoMemory> {
    made.push_str(format!(in alloc; "{kind} {}", fact.rel)?.as_str())?;
    write_vals(alloc, made, fact.vals.as_slice())
}

fn write_shown(
    alloc: Global,
    made: &mut String,
    method: u32,
    fact: &Ground,
) -> Result<(), NoMemory> {
    made.push_str(format!(in alloc; "by {method} {}", fact.rel)?.as_str())?;
    write_vals(alloc, made, fact.vals.as_slice())
}

fn write_trigger(
    alloc: Global,
    made: &mut String,
    kind: &str,
    trigger: &Trigger,
) -> Result<(), NoMemory> {
    made.push_str(format!(in alloc;
        "{kind} {} from {} at",
        trigger.rule, trigger.fresh
    )?.as_str())?;
    write_vals(alloc, made, trigger.values.as_slice())
}

pub(crate) fn write_firing(
    alloc: Global,
    made: &mut String,
    firing: &Firing,
) -> Result<(), NoMemory> {
    match firing {
        Firing::Base(trigger) => write_trigger(alloc, made, "base", trigger),
        Firing::Copy(trigger) => write_trigger(alloc, made, "copy", trigger),
        Firing::Expose { method, fact } => write_shown(alloc, made, *method, fact),
    }
}

/// The first twenty firings of the log.
pub(crate) fn write_log(alloc: Global, made: &mut String, proof: &Proof) -> Result<(), NoMemory> {
    for number in 0..20 {
        if let Some(firing) = proof.log(number) {
            write_firing(alloc, made, firing)?;
        }
    }
    Ok(())
}

/// The members with this number of the lists that a proof lends.
fn write_members(
    alloc: Global,
    made: &mut String,
    proof: &Proof,
    number: usize,
) -> Result<(), NoMemory> {
    if let Some(fact) = proof.base(number) {
        write_fact(alloc, made, "base", fact)?;
    }
    if let Some((fact, method)) = proof.exposed(number) {
        write_shown(alloc, made, method, fact)?;
    }
    if let Some(fact) = proof.copy(number) {
        write_fact(alloc, made, "copy", fact)?;
    }
    if let Some(val) = proof.known(number) {
        made.push_str("known")?;
        write_vals(alloc, made, slice::from_ref(val))?;
    }
    Ok(())
}

/// All that a proof lends but its log: of each list the first members, then the second ones, and so on, and the next label.
pub(crate) fn write_state(alloc: Global, made: &mut String, proof: &Proof) -> Result<(), NoMemory> {
    for number in 0..20 {
        write_members(alloc, made, proof, number)?;
    }
    write_number(alloc, made, "next", proof.next() as u64)
}
