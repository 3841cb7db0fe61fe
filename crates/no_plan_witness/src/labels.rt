// The labels of facts.
ghost use Rattle.std.specs.Prelude.{◌≡◌, ◌++◌, ◌↔◌, ℕ, Contains, IfOk, OnOk};
ghost use Rattle.std.specs.List.Sorted.{IsStrictlyIncreasing};
ghost use Rattle.access_schema.specs.Meaning.{meaning_of};
ghost use Rattle.no_plan_witness.specs.Texts.{labels_among, labels_in, labels_of as labels_of_value};
ghost use Rattle.no_plan_witness.specs.Standing.{integers_at, integers_among, integers_in, sorts_at};

use access_schema::Schema;
use lists::NoMemory;
use meaning::types::{Ground, Sort, Val};
use std::alloc::Global;

/// The labels that occur in the first or in the second facts, ascending, each once.
pub fn labels_of(alloc: Global, first: &[Ground], second: &[Ground]) -> Result<Vec<u32>, NoMemory>
    ensures ascend { IfOk result (λ labels. IsStrictlyIncreasing labels.items) }
    ensures exactly { IfOk result (λ labels. (label : ℕ) → Contains labels.items label ↔ Contains (labels_in (first.now ++ second.now)) label) }
{
    let mut labels = Vec::new(alloc);
    add_labels(&mut labels, first)?;
    add_labels(&mut labels, second)?;
    labels.sort_unstable();
    labels.dedup();
    Ok(labels)
}

/// Those of them that stand at an integer column of one of the facts, ascending, each once.
pub fn integers_of(
    alloc: Global,
    schema: &Schema,
    first: &[Ground],
    second: &[Ground],
) -> Result<Vec<u32>, NoMemory>
    ensures ascend { IfOk result (λ labels. IsStrictlyIncreasing labels.items) }
    ensures exactly { IfOk result (λ labels. (label : ℕ) → Contains labels.items label ↔ Contains (integers_in (meaning_of schema.now) (first.now ++ second.now)) label) }
{
    let mut labels = Vec::new(alloc);
    add_integers(&mut labels, schema, first)?;
    add_integers(&mut labels, schema, second)?;
    labels.sort_unstable();
    labels.dedup();
    Ok(labels)
}

/// The labels that are not among these, which ascend, in their order.
pub fn others_of(alloc: Global, labels: &[u32], integers: &[u32]) -> Result<Vec<u32>, NoMemory>
    requires labels { IsStrictlyIncreasing labels.now }
    requires integers { IsStrictlyIncreasing integers.now }
    ensures ascend { IfOk result (λ others. IsStrictlyIncreasing others.items) }
    ensures within { IfOk result (λ others. (label : ℕ) → Contains others.items label → Contains labels.now label) }
    ensures apart { IfOk result (λ others. (label : ℕ) → Contains others.items label → Contains integers.now label → ⊥) }
    ensures all { IfOk result (λ others. (label : ℕ) → Contains labels.now label → (Contains integers.now label → ⊥) → Contains others.items label) }
{
    let mut others = Vec::new(alloc);
    for label in labels {
        if integers.binary_search(label).is_err() {
            others.push(*label)?;
        }
    }
    Ok(others)
}

fn add_labels(labels: &mut Vec<u32>, facts: &[Ground]) -> Result<(), NoMemory>
    ensures { OnOk result (labels.new.items ≡ labels.old.items ++ labels_in facts.now) }
{
    for fact in facts {
        add_fact_labels(labels, fact.vals.as_slice())?;
    }
    Ok(())
}

fn add_fact_labels(labels: &mut Vec<u32>, vals: &[Val]) -> Result<(), NoMemory>
    ensures { OnOk result (labels.new.items ≡ labels.old.items ++ labels_among vals.now) }
{
    for val in vals {
        add_label(labels, val)?;
    }
    Ok(())
}

fn add_label(labels: &mut Vec<u32>, val: &Val) -> Result<(), NoMemory>
    ensures { OnOk result (labels.new.items ≡ labels.old.items ++ labels_of_value val.now) }
{
    match val {
        Val::Label(label) => labels.push(*label)?,
        Val::Const(_) => {}
    }
    Ok(())
}

fn add_integers(labels: &mut Vec<u32>, schema: &Schema, facts: &[Ground]) -> Result<(), NoMemory>
    ensures { OnOk result (labels.new.items ≡ labels.old.items ++ integers_in (meaning_of schema.now) facts.now) }
{
    for fact in facts {
        add_fact_integers(labels, sorts_of(schema, fact.rel), fact.vals.as_slice())?;
    }
    Ok(())
}

// The sorts of the columns of a relation; none where there is no relation.
fn sorts_of(schema: &Schema, rel: u32) -> &[Sort]
    ensures { result.now ≡ sorts_at (meaning_of schema.now) rel }
{
    match schema.relations.get(rel as usize) {
        Some(relation) => relation.sorts.as_slice(),
        None => &[],
    }
}

fn add_fact_integers(labels: &mut Vec<u32>, sorts: &[Sort], vals: &[Val]) -> Result<(), NoMemory>
    ensures { OnOk result (labels.new.items ≡ labels.old.items ++ integers_among sorts.now vals.now) }
{
    let mut columns = sorts;
    let mut left = vals;
    while let ([sort, others @ ..], [val, rest @ ..]) = (columns, left) {
        add_integer(labels, *sort, val)?;
        columns = others;
        left = rest;
    }
    Ok(())
}

fn add_integer(labels: &mut Vec<u32>, sort: Sort, val: &Val) -> Result<(), NoMemory>
    ensures { OnOk result (labels.new.items ≡ labels.old.items ++ integers_at sort val.now) }
{
    match sort {
        Sort::Int => add_label(labels, val),
        Sort::Text => Ok(()),
    }
}
