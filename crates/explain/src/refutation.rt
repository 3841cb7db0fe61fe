// The text of a refutation.
ghost use Rattle.std.specs.Prelude.{◌≡◌, ◌++◌, OnOk, IfOk};
ghost use Rattle.std.specs.Str.{IsUtf8};
ghost use Rattle.pq_text.specs.Utf8.{KeepsUtf8};
ghost use Rattle.explain.specs.Grammar.{FitsSchema, IsReadAs};
ghost use Rattle.explain.specs.Lent.{lent_pair};
ghost use Rattle.explain.specs.Printing.{pair_text, IsPrintedWitness};

use access_schema::Schema;
use fact_lines::{ascending, push_facts, push_str};
use findings::Witness;
use lists::{Bytes, NoMemory, Row, Text};
use pq_text::print_values;
use std::alloc::Global;

/// The text of a refutation: the answer, and the facts of both instances, each once and in ascending order.
pub fn witness_text(alloc: Global, pair: &Witness, schema: &Schema) -> Result<Bytes, NoMemory>
    ensures text { IfOk result (λ text. IsPrintedWitness schema.now pair.now text) }
    ensures utf8 { IfOk result (λ text. IsUtf8 text) }

    // What is printed is read with the same facts, in their order and each once.
    ensures read { FitsSchema schema.now pair.now → IfOk result (λ text. IsReadAs schema.now text pair.now) }
{
    let first = ascending(alloc, pair.first.as_slice())?;
    let second = ascending(alloc, pair.second.as_slice())?;
    let mut out = Vec::new(alloc);
    let answer = pair.answer.as_slice();
    push_refutation(
        &mut out,
        schema,
        answer,
        first.as_slice(),
        second.as_slice(),
    )?;
    Ok(Bytes::from_vec(out))
}

// Appends the text of a refutation, with the facts as they stand.
fn push_refutation(
    out: &mut Vec<u8>,
    schema: &Schema,
    answer: &[Text],
    first: &[(u32, &Row)],
    second: &[(u32, &Row)],
) -> Result<(), NoMemory>
    ensures text { OnOk result (out.new.items ≡ out.old.items ++ pair_text schema.now.relations (lent_pair first.now second.now answer.now)) }
    ensures utf8 { OnOk result (KeepsUtf8 out.old.items out.new.items) }
{
    push_str(out, "no plan\nanswer ")?;
    print_values(out, answer)?;
    push_str(out, "\nfirst\n")?;
    push_facts(out, schema, first)?;
    push_str(out, "second\n")?;
    push_facts(out, schema, second)?;
    push_str(out, "end\n")
}
