// The refutation of a proof.
ghost use Rattle.std.specs.Prelude.{◌≡◌, IfOk};
ghost use Rattle.access_schema.specs.Meaning.{meaning_of};
ghost use Rattle.no_plan_witness.specs.Witnesses.{IsWitnessOf};

use crate::naming::Naming;
use access_schema::Schema;
use accessible_copy::Proof;
use findings::Witness;
use lists::{Copies, NoMemory, Texts};
use meaning::types::{Ground, Vals};
use std::alloc::Global;

/// The base facts and the copy facts of a proof, and the head, named as in `named_pair`.
pub fn witness(
    alloc: Global,
    schema: &Schema,
    proof: &Proof,
    known: &Texts,
    head: &Vals,
) -> Result<Witness, NoMemory>
    ensures { IfOk result (IsWitnessOf (meaning_of schema.now) known.now proof.now.end.base proof.now.end.copy head.now) }
{
    let base = base_facts(alloc, proof)?;
    let copy = copy_facts(alloc, proof)?;
    named_pair(alloc, schema, base.as_slice(), copy.as_slice(), known, head)
}

/// The facts of both lists, and the head, with texts for their labels. In ascending order, each label that stands at an integer column
/// takes the next of `1`, `2`, `3` and so on that is not a known constant, and each other label the next of `_1`, `_2`, `_3` and so on.
/// So two labels never get one text, and none gets a constant's.
///
/// A label of the head that is in no fact has the empty text.
pub fn named_pair(
    alloc: Global,
    schema: &Schema,
    first: &[Ground],
    second: &[Ground],
    known: &Texts,
    head: &Vals,
) -> Result<Witness, NoMemory>
    ensures { IfOk result (IsWitnessOf (meaning_of schema.now) known.now first.now second.now head.now) }
{
    let naming = Naming::new(alloc, schema, first, second, known)?;
    Ok(Witness {
        first: naming.instance(alloc, first)?,
        second: naming.instance(alloc, second)?,
        answer: naming.row(alloc, head.as_slice())?,
    })
}

/// Copies of the base facts.
pub fn base_facts(alloc: Global, proof: &Proof) -> Result<Vec<Ground>, NoMemory>
    ensures { IfOk result (λ facts. facts.items ≡ proof.now.end.base) }
{
    let mut facts = Vec::new(alloc);
    while let Some(fact) = proof.base(facts.len()) {
        facts.push(fact.copy(alloc)?)?;
    }
    Ok(facts)
}

/// Copies of the copy facts.
pub fn copy_facts(alloc: Global, proof: &Proof) -> Result<Vec<Ground>, NoMemory>
    ensures { IfOk result (λ facts. facts.items ≡ proof.now.end.copy) }
{
    let mut facts = Vec::new(alloc);
    while let Some(fact) = proof.copy(facts.len()) {
        facts.push(fact.copy(alloc)?)?;
    }
    Ok(facts)
}
