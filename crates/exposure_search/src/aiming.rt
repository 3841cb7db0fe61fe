// What is looked for in the space of a proof.
ghost use Rattle.std.specs.Prelude.{◌≡◌, ◌≤◌, ◌^◌, Contains, IfOk, length};
ghost use Rattle.meaning.specs.declared.types.Query.{Query};
ghost use Rattle.access_schema.specs.Meaning.{meaning_of};
ghost use Rattle.rule_pass.specs.declared.pass.TheConstants.{MOST_FIRINGS};
ghost use Rattle.accessible_copy.specs.Goals.{IsCounted};
ghost use Rattle.exposure_search.specs.Making.{IsBaseProof};
ghost use Rattle.exposure_search.specs.Exploring.{exploring_of};
ghost use Rattle.exposure_search.specs.Aims.{space_of, IsAimed, AreNamedFor};

use crate::candidate_index::CandidateIndex;
use crate::candidates::{Candidate, candidates_of};
use crate::marks::{Marks, marked_numbers};
use crate::relevance::relevant_facts;
use access_schema::Schema;
use accessible_copy::{MethodIndex, Proof, mark};
use lists::{Copies, NoMemory};
use meaning::types::{Ground, Queries, Vals};
use std::alloc::Global;

/// What is looked for: a match of one of the queries with this head, in runs of at most `budget` firings over the schema. The base
/// facts of these runs, how many base firings made them, the index of the schema's methods, marks of the base facts and rules on which
/// a match can rest, the numbers of these rules, the candidates that expose these facts, and which of them expose each fact.
#[derive(Drop)]
pub struct Aim<'a> {
    pub alloc: Global,
    pub schema: &'a Schema,
    pub queries: &'a Queries,
    pub head: &'a Vals,
    pub budget: u32,
    pub facts: Vec<Ground>,
    pub bases: u64,
    pub methods: MethodIndex,
    pub marks: Marks,
    pub makers: Vec<usize>,
    pub candidates: Vec<Candidate>,
    pub index: CandidateIndex,
}

impl<'a> Aim<'a> {
    /// What is looked for in the space of a proof of base firings alone. What is kept for it is made here, once.
    pub(crate) fn of(
        alloc: Global,
        schema: &'a Schema,
        proof: &Proof,
        queries: &'a Queries,
        head: &'a Vals,
        budget: u32,
    ) -> Result<Aim<'a>, NoMemory>
        requires base { IsBaseProof (meaning_of schema.now) proof.now }
        requires counted { (query : Query) → Contains queries.now query → IsCounted query }
        requires few { length queries.now ≤ 2 ^ 32 }
        requires budget { budget ≤ MOST_FIRINGS }
        requires named { AreNamedFor (meaning_of schema.now) proof.now.constants proof.now.end.base proof.now.end.next queries.now head.now }
        ensures space { IfOk result (λ aim. space_of aim proof.now ≡
            exploring_of (meaning_of schema.now) proof.now queries.now head.now budget aim.marks) }
        ensures aimed { IfOk result (λ aim. IsAimed aim proof.now) }
    {
        let facts = base_facts(alloc, proof)?;
        let bases = mark(proof).firings;
        let methods = MethodIndex::of(alloc, schema)?;
        let marks = relevant_facts(
            alloc,
            proof,
            schema,
            queries,
            head,
            &methods,
            facts.as_slice(),
        )?;
        let makers = marked_numbers(alloc, marks.makers.as_slice())?;
        let candidates = candidates_of(alloc, proof, schema, &methods, facts.as_slice(), &marks)?;
        let index = CandidateIndex::of(alloc, candidates.as_slice(), facts.len())?;
        Ok(Aim {
            alloc,
            schema,
            queries,
            head,
            budget,
            facts,
            bases,
            methods,
            marks,
            makers,
            candidates,
            index,
        })
    }
}

/// Copies of the base facts.
fn base_facts(alloc: Global, proof: &Proof) -> Result<Vec<Ground>, NoMemory>
    ensures { IfOk result (λ facts. facts.items ≡ proof.now.end.base) }
{
    let mut facts = Vec::new(alloc);
    while let Some(fact) = proof.base(facts.len()) {
        facts.push(fact.copy(alloc)?)?;
    }
    Ok(facts)
}
