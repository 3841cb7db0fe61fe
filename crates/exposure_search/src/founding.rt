// The proof of the base firings of a query.
ghost use Rattle.std.specs.Prelude.{◌≡◌, ◌≤◌, [], IfOk, OnOk, IfSome, IfNone, Ok, true, false, length};
ghost use Rattle.meaning.specs.Triggers.{bound};
ghost use Rattle.meaning.specs.Runs.{opening};
ghost use Rattle.access_schema.specs.Meaning.{meaning_of};
ghost use Rattle.rule_pass.specs.declared.pass.TheConstants.{MOST_FIRINGS, HIGHEST_FIRST_LABEL};
ghost use Rattle.accessible_copy.specs.Proving.{IsProofOf};
ghost use Rattle.exposure_search.specs.Making.{IsBaseProof};
ghost use Rattle.exposure_search.specs.Exploring.{IsRunBeyond};

use access_schema::Schema;
use accessible_copy::{Proof, Round, settle};
use lists::{NoMemory, Texts};
use meaning::types::{Queries, Query};
use std::alloc::Global;

/// The proof of the query's base firings alone, after which no base trigger is active. None comes only where some run has more
/// firings than the budget.
///
/// Its copy is made for matches of the goals.
pub fn base_proof(
    alloc: Global,
    schema: &Schema,
    query: &Query,
    goals: &Queries,
    known: &Texts,
    budget: u32,
) -> Result<Option<Proof>, NoMemory>
    requires counted { bound query.now.atoms ≤ query.now.variables }
    requires few { query.now.variables ≤ HIGHEST_FIRST_LABEL }
    requires budget { budget ≤ MOST_FIRINGS }
    ensures base { IfOk result (λ made. IfSome made (λ proof. IsBaseProof (meaning_of schema.now) proof)) }
    ensures start { IfOk result (λ made. IfSome made (λ proof. proof.start ≡ opening query.now)) }
    ensures constants { IfOk result (λ made. IfSome made (λ proof. proof.constants ≡ known.now)) }
    ensures few { IfOk result (λ made. IfSome made (λ proof. length proof.entries ≤ budget)) }
    ensures none { IfOk result (λ made. IfNone made (IsRunBeyond (meaning_of schema.now) known.now (opening query.now) budget)) }
{
    let mut proof = Proof::start(alloc, schema, query, goals, known)?;
    let Ok(quiet) = fire_base(alloc, &mut proof, schema, budget) else {
        // written out, since it is proved as one call, and at the end of the scope as a call for each list in the proof
        drop(proof);
        return Err(NoMemory);
    };
    Ok(quiet.then_some(proof))
}

/// Makes the base firings of a proof of the empty log. Whether none is active at the end; where one is, some run has more firings than
/// the budget.
fn fire_base(
    alloc: Global,
    proof: &mut Proof,
    schema: &Schema,
    budget: u32,
) -> Result<bool, NoMemory>
    requires run { IsProofOf (meaning_of schema.now) proof.old }
    requires empty { proof.old.entries ≡ [] }
    requires budget { budget ≤ MOST_FIRINGS }
    ensures start { OnOk result (proof.new.start ≡ proof.old.start) }
    ensures constants { OnOk result (proof.new.constants ≡ proof.old.constants) }
    ensures quiet { result ≡ Ok true → IsBaseProof (meaning_of schema.now) proof.new }
    ensures few { OnOk result (length proof.new.entries ≤ budget) }
    ensures spent { result ≡ Ok false → IsRunBeyond (meaning_of schema.now) proof.old.constants proof.old.start budget }
{
    match settle(alloc, proof, schema, false, budget)? {
        Round::Quiet => Ok(true),
        Round::Done => unreachable!(),
        Round::Spent => Ok(false),
    }
}
