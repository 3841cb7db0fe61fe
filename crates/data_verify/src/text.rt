// The text of a verification.
ghost use Rattle.std.specs.Prelude.{◌≡◌, ◌++◌, OnOk, IfOk, slice_get};
ghost use Rattle.pq_text.specs.Listed.{listed};
ghost use Rattle.data_verify.specs.Telling.{fact_text, name_text, line_of, broken_text, verification_text};

use crate::broken::Broken;
use access_schema::Schema;
use lists::{Bytes, NoMemory, Seq};
use meaning::types::{Fact, Relation};
use pq_text::{print_name, print_number, print_values};
use std::alloc::Global;

/// The line that tells that all rules are met, or the first rule that is not, with the facts that break it.
pub fn verification_text(
    alloc: Global,
    schema: &Schema,
    found: &Option<Broken>,
) -> Result<Bytes, NoMemory>
    ensures { IfOk result (λ text. text ≡ verification_text schema.now found.now) }
{
    let mut out = Vec::new(alloc);
    match found {
        None => out.extend_from_slice(b"all rules are met\n")?,
        Some(broken) => {
            push_broken(&mut out, schema, broken)?;
            out.extend_from_slice(b"\n")?;
        }
    }
    Ok(Seq::from_vec(out))
}

fn push_broken(out: &mut Vec<u8>, schema: &Schema, broken: &Broken) -> Result<(), NoMemory>
    ensures { OnOk result (out.new.items ≡ out.old.items ++ broken_text schema.now broken.now) }
{
    out.extend_from_slice(b"rule on line ")?;
    print_number(out, line_at(schema, broken.rule) as u64)?;
    out.extend_from_slice(b" is not met by ")?;
    push_facts(out, schema.relations.as_slice(), broken.rows.as_slice())?;
    Ok(())
}

/// The line that the rule with this number stands on, or 0.
fn line_at(schema: &Schema, number: u32) -> u32
    ensures { result ≡ line_of (slice_get schema.now.rules number) }
{
    match schema.rules.get(number as usize) {
        Some(rule) => rule.line,
        None => 0,
    }
}

/// Writes the facts, parted by a comma and a blank.
fn push_facts(out: &mut Vec<u8>, relations: &[Relation], facts: &[Fact]) -> Result<(), NoMemory>
    ensures { OnOk result (out.new.items ≡ out.old.items ++ listed (fact_text relations.now) facts.now) }
{
    let [first, rest @ ..] = facts else {
        return Ok(());
    };
    push_fact(out, relations, first)?;
    for fact in rest {
        out.extend_from_slice(b", ")?;
        push_fact(out, relations, fact)?;
    }
    Ok(())
}

/// Writes the relation's name, and the values in parentheses.
fn push_fact(out: &mut Vec<u8>, relations: &[Relation], fact: &Fact) -> Result<(), NoMemory>
    ensures { OnOk result (out.new.items ≡ out.old.items ++ fact_text relations.now fact.now) }
{
    push_relation(out, relations, fact.rel)?;
    out.extend_from_slice(b"(")?;
    print_values(out, fact.row.as_slice())?;
    out.extend_from_slice(b")")?;
    Ok(())
}

/// Writes the name of the relation with this number, if there is one.
fn push_relation(out: &mut Vec<u8>, relations: &[Relation], number: u32) -> Result<(), NoMemory>
    ensures { OnOk result (out.new.items ≡ out.old.items ++ name_text (slice_get relations.now number)) }
{
    match relations.get(number as usize) {
        Some(relation) => print_name(out, &relation.name),
        None => Ok(()),
    }
}
