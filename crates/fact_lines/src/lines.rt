// The lines of facts.
ghost use Rattle.std.specs.Prelude.{◌≡◌, ◌++◌, ◌<◌, ◌+◌, ℕ, true, OnOk, IfOk, IsTrue, length, map, flat_map, slice_get, slice_index_or};
ghost use Rattle.std.specs.List.Sorted.{IsStrictlySortedBy};
ghost use Rattle.std.specs.Str.{IsUtf8};
ghost use Rattle.std.specs.declared.cmp.Ordering.TheVariants.{Less};
ghost use Rattle.meaning.specs.declared.types.Fact.{Fact};
ghost use Rattle.pq_text.specs.Utf8.{KeepsUtf8};
ghost use Rattle.fact_lines.specs.Lent.{lent_fact};
ghost use Rattle.fact_lines.specs.Lines.{relation_text, fact_cmp, fact_text, IsFactsText};

use crate::listing::ascending;
use crate::push::push_str;
use access_schema::Schema;
use lists::{Bytes, NoMemory, Row};
use meaning::types::{Fact, Instance};
use pq_text::{print_name, print_values};
use std::alloc::Global;

/// The text of an instance: a line for each fact, each once and in ascending order. Facts that stand so are compared as they are printed,
/// and neither listed nor sorted.
pub fn facts_text(alloc: Global, schema: &Schema, facts: &Instance) -> Result<Bytes, NoMemory>
    ensures text { IfOk result (λ text. IsFactsText schema.now facts.now text) }
    ensures utf8 { IfOk result (λ text. IsUtf8 text) }
{
    let mut out = Vec::new(alloc);
    if push_ascending(&mut out, schema, facts.as_slice())? {
        return Ok(Bytes::from_vec(out));
    }
    sorted_text(alloc, schema, facts)
}

// The text of facts in any order.
fn sorted_text(alloc: Global, schema: &Schema, facts: &Instance) -> Result<Bytes, NoMemory>
    ensures text { IfOk result (λ text. IsFactsText schema.now facts.now text) }
    ensures utf8 { IfOk result (λ text. IsUtf8 text) }
{
    let listing = ascending(alloc, facts.as_slice())?;
    let mut out = Vec::new(alloc);
    push_facts(&mut out, schema, listing.as_slice())?;
    Ok(Bytes::from_vec(out))
}

// Appends a line for each fact, up to the first that is not above the one before it. Whether there was none such.
fn push_ascending(out: &mut Vec<u8>, schema: &Schema, facts: &[Fact]) -> Result<bool, NoMemory>
    ensures ascends { IfOk result (λ all. all ≡ true → IsStrictlySortedBy fact_cmp facts.now) }
    ensures text { IfOk result (λ all. all ≡ true → out.new.items ≡ out.old.items ++ flat_map (fact_text schema.now.relations) facts.now) }
    ensures utf8 { OnOk result (KeepsUtf8 out.old.items out.new.items) }
{
    for number in 0..facts.len() {
        if !is_above_last(facts, number) {
            return Ok(false);
        }
        let fact = &facts[number];
        push_fact(out, schema, fact.rel, &fact.row)?;
    }
    Ok(true)
}

// Whether the fact of a number is above the one before it, if there is one.
fn is_above_last(facts: &[Fact], number: usize) -> bool
    requires { number < length facts.now }
    ensures { IsTrue result → (k : ℕ) (d : Fact) → k + 1 ≡ number → fact_cmp (slice_index_or facts.now k d) (slice_index_or facts.now number d) ≡ Less }
{
    if number == 0 {
        return true;
    }
    is_below(&facts[number - 1], &facts[number])
}

fn is_below(fact: &Fact, other: &Fact) -> bool
    ensures { IsTrue result → fact_cmp fact.now other.now ≡ Less }
{
    (fact.rel, &fact.row).cmp(&(other.rel, &other.row)).is_lt()
}

/// Appends a line for each fact, as they stand.
pub fn push_facts(out: &mut Vec<u8>, schema: &Schema, facts: &[(u32, &Row)]) -> Result<(), NoMemory>
    ensures text { OnOk result (out.new.items ≡ out.old.items ++ flat_map (fact_text schema.now.relations) (map lent_fact facts.now)) }
    ensures utf8 { OnOk result (KeepsUtf8 out.old.items out.new.items) }
{
    for (rel, row) in facts {
        push_fact(out, schema, *rel, row)?;
    }
    Ok(())
}

// Appends the line of a fact.
fn push_fact(out: &mut Vec<u8>, schema: &Schema, rel: u32, row: &Row) -> Result<(), NoMemory>
    ensures text { OnOk result (out.new.items ≡ out.old.items ++ fact_text schema.now.relations (record { rel = rel; row = row.now })) }
    ensures utf8 { OnOk result (KeepsUtf8 out.old.items out.new.items) }
{
    push_relation(out, schema, rel)?;
    push_str(out, "(")?;
    print_values(out, row.as_slice())?;
    push_str(out, ")\n")
}

// Appends the name of a relation.
fn push_relation(out: &mut Vec<u8>, schema: &Schema, rel: u32) -> Result<(), NoMemory>
    ensures text { OnOk result (out.new.items ≡ out.old.items ++ relation_text (slice_get schema.now.relations rel)) }
    ensures utf8 { OnOk result (KeepsUtf8 out.old.items out.new.items) }
{
    match schema.relations.get(rel as usize) {
        Some(relation) => print_name(out, &relation.name),
        None => Ok(()),
    }
}
