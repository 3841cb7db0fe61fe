// What is looked at behind some calls, as text.
ghost use Rattle.access_schema.specs.Meaning.{meaning_of};
ghost use Rattle.accessible_copy.specs.Proving.{IsProofOf, IsOrdered};

use super::calls::{Call, make_all, round_word, settle_copies, start};
use super::queries::{SECOND_PAIRS, counted, pair, query};
use super::schemas::schema;
use super::texts::{write_firing, write_log, write_state};
use access_schema::Schema;
use accessible_copy::{MethodIndex, Proof, exposures, goal, goes_on, indexed_exposures};
use lists::NoMemory;
use meaning::types::{Ground, Vals};
use std::alloc::Global;
use std::test::Fail;

/// What is looked at behind some calls: their answers alone, all that the proof lends, what is open, where the base facts
/// stand, or the copy behind a pass over its rules.
#[derive(Clone, Copy)]
pub(crate) enum Look {
    Answers,
    All,
    Open,
    Places,
    Settled([u32; 2]),
}

/// The exposures that are listed, and whether as many are where all base facts are tried.
fn write_exposures(
    alloc: Global,
    made: &mut String,
    proof: &Proof,
    schema: &Schema,
) -> Result<(), NoMemory>
    requires { IsProofOf (meaning_of schema.now) proof.now }
{
    let methods = MethodIndex::of(alloc, schema)?;
    let all = indexed_exposures(alloc, proof, schema, &methods)?;
    let found = exposures(alloc, proof, schema)?;
    for firing in found.as_slice() {
        write_firing(alloc, made, firing)?;
    }
    made.push_str(if found.len() == all.len() {
        ""
    } else {
        "not all; "
    })
}

/// Whether the atoms have a match in the copy with these values for x and y.
fn is_found_with(
    alloc: Global,
    proof: &Proof,
    atoms: &[(u32, &str)],
    head: &Vals,
) -> Result<bool, NoMemory> {
    let queries = counted(alloc, query(alloc, atoms)?)?;
    Ok(goal(alloc, proof, &queries, head)?.is_some())
}

fn write_found(
    alloc: Global,
    made: &mut String,
    proof: &Proof,
    atoms: &[(u32, &str)],
    labels: [u32; 2],
) -> Result<(), NoMemory> {
    let head = pair(alloc, labels)?;
    let found = is_found_with(alloc, proof, atoms, &head)?;
    made.push_str(if found { "found" } else { "none" })
}

/// Writes which exposures are active, whether anything is, and whether the atoms have a match with the labels 0 and 1.
fn write_open(
    alloc: Global,
    made: &mut String,
    proof: &Proof,
    schema: &Schema,
    atoms: &[(u32, &str)],
) -> Result<(), NoMemory>
    requires run { IsProofOf (meaning_of schema.now) proof.now }
    requires ordered { IsOrdered (meaning_of schema.now) proof.now }
{
    write_exposures(alloc, made, proof, schema)?;
    let going = goes_on(alloc, proof, schema)?;
    made.push_str(if going { "goes on; " } else { "rests; " })?;
    write_found(alloc, made, proof, atoms, [0, 1])
}

/// Writes the answer of a pass over the copy rules, the log behind it, and whether the copy has the pair of these labels.
fn write_settled(
    alloc: Global,
    made: &mut String,
    proof: &mut Proof,
    schema: &Schema,
    labels: [u32; 2],
) -> Result<(), Fail>
    requires { IsProofOf (meaning_of schema.now) proof.old }
{
    let ended = settle_copies(alloc, proof, schema)?;
    made.push_str(round_word(ended))?;
    made.push_str("; ")?;
    write_log(alloc, made, proof)?;
    write_found(alloc, made, proof, &SECOND_PAIRS, labels)?;
    Ok(())
}

/// Where a fact stands, and which of its values are known.
fn write_place(made: &mut String, proof: &Proof, fact: &Ground) -> Result<(), NoMemory> {
    made.push_str(if proof.has_base(fact) { "base " } else { "" })?;
    made.push_str(if proof.has_exposed(fact) {
        "exposed "
    } else {
        ""
    })?;
    made.push_str(if proof.has_copy(fact) { "copy " } else { "" })?;
    for val in fact.vals.as_slice() {
        made.push_str(if proof.knows(val) { "+" } else { "-" })?;
    }
    made.push_str("; ")
}

/// Where the first twenty base facts stand.
fn write_places(made: &mut String, proof: &Proof) -> Result<(), NoMemory> {
    for number in 0..20 {
        if let Some(fact) = proof.base(number) {
            write_place(made, proof, fact)?;
        }
    }
    Ok(())
}

/// Writes what is looked at.
fn write_look(
    alloc: Global,
    proof: &mut Proof,
    schema: &Schema,
    atoms: &[(u32, &str)],
    look: Look,
    made: &mut String,
) -> Result<(), Fail>
    requires run { IsProofOf (meaning_of schema.now) proof.old }
    requires ordered { IsOrdered (meaning_of schema.now) proof.old }
{
    match look {
        Look::Answers => {}
        Look::All => {
            write_log(alloc, made, proof)?;
            write_state(alloc, made, proof)?;
        }
        Look::Open => write_open(alloc, made, proof, schema, atoms)?,
        Look::Places => write_places(made, proof)?,
        Look::Settled(labels) => write_settled(alloc, made, proof, schema, labels)?,
    }
    Ok(())
}

/// Makes the calls, and writes their answers and what is looked at.
fn write_calls(
    alloc: Global,
    proof: &mut Proof,
    schema: &Schema,
    atoms: &[(u32, &str)],
    calls: &[Call],
    look: Look,
    made: &mut String,
) -> Result<(), Fail>
    requires run { IsProofOf (meaning_of schema.now) proof.old }
    requires ordered { IsOrdered (meaning_of schema.now) proof.old }
{
    make_all(alloc, proof, schema, calls, made)?;
    write_look(alloc, proof, schema, atoms, look, made)
}

/// The same from the proof of the empty log.
fn write_from_start(
    alloc: Global,
    schema: &Schema,
    atoms: &[(u32, &str)],
    calls: &[Call],
    look: Look,
    made: &mut String,
) -> Result<(), Fail> {
    let mut proof = start(alloc, schema, atoms)?;
    write_calls(alloc, &mut proof, schema, atoms, calls, look, made)
}

/// Whether this is what is written.
pub(crate) fn is_seen(
    alloc: Global,
    schema: &Schema,
    atoms: &[(u32, &str)],
    calls: &[Call],
    look: Look,
    wanted: &str,
) -> Result<bool, Fail> {
    let mut made = String::new(alloc);
    write_from_start(alloc, schema, atoms, calls, look, &mut made)?;
    Ok(made.as_str() == wanted)
}

/// The same over a schema of these parts.
pub(crate) fn is_seen_over(
    alloc: Global,
    parts: &[[&str; 4]],
    atoms: &[(u32, &str)],
    calls: &[Call],
    look: Look,
    wanted: &str,
) -> Result<bool, Fail> {
    let schema = schema(alloc, parts)?;
    is_seen(alloc, &schema, atoms, calls, look, wanted)
}
