// The proof of a query.
ghost use Rattle.std.specs.Prelude.{◌≡◌, ◌≤◌, [], Ok, true, false, IfOk, OnOk, length};
ghost use Rattle.meaning.specs.declared.types.Val.TheVariants.{Const};
ghost use Rattle.meaning.specs.Matching.{MeetsAll, GroundsOf};
ghost use Rattle.meaning.specs.Runs.{NoExposure, last_part};
ghost use Rattle.access_schema.specs.Meaning.{meaning_of};
ghost use Rattle.rule_pass.specs.declared.pass.TheConstants.{MOST_FIRINGS};
ghost use Rattle.accessible_copy.specs.Proving.{log_of};
ghost use Rattle.accessible_copy.specs.Rounds.{IsAllQuiet, GoesOn};
ghost use Rattle.proof_search.specs.Searches.{IsSearch};
ghost use Rattle.proof_search.specs.Questions.{IsQuestion, IsSearchFor};

use crate::exposing::{Turn, expose_all};
use crate::question::Question;
use access_schema::Schema;
use accessible_copy::{Proof, Round, settle};
use lists::NoMemory;
use std::alloc::Global;

/// The proof of a query: base firings, exposures and copy firings, those of each kind while they are active and the log has
/// fewer than `firings`, and exposures in turns of this kind. Whether nothing is active at the end.
///
/// Its copy is made for matches of the queries.
pub fn prove(alloc: Global, question: &Question<'_>, turn: Turn) -> Result<(Proof, bool), NoMemory>
    requires { IsQuestion question.now }
    ensures search { IfOk result (λ made. IsSearchFor question.now made.0) }
    ensures quiet { IfOk result (λ made. made.1 ≡ true → IsAllQuiet (meaning_of question.now.schema.now) made.0) }
    ensures spent { IfOk result (λ made. made.1 ≡ false → (question.now.firings ≤ length made.0.entries) × GoesOn (meaning_of question.now.schema.now) made.0) }
{
    let mut proof = Proof::start(
        alloc,
        question.schema,
        question.query,
        question.queries,
        question.known,
    )?;
    let Ok(quiet) = fire_all(alloc, &mut proof, question.schema, question.firings, turn) else {
        // written out, since it is proved as one call, and at the end of the scope as a call for each list in the proof
        drop(proof);
        return Err(NoMemory);
    };
    Ok((proof, quiet))
}

/// The firings of a proof of the empty log, those of each kind in turn. Whether nothing is active at the end.
fn fire_all(
    alloc: Global,
    proof: &mut Proof,
    schema: &Schema,
    firings: u32,
    turn: Turn,
) -> Result<bool, NoMemory>
    requires search { IsSearch (meaning_of schema.now) firings proof.old.start proof.old.constants proof.old }
    requires empty { proof.old.entries ≡ [] }
    requires firings { firings ≤ MOST_FIRINGS }
    ensures search { OnOk result (IsSearch (meaning_of schema.now) firings proof.old.start proof.old.constants proof.new) }
    ensures quiet { result ≡ Ok true → IsAllQuiet (meaning_of schema.now) proof.new }
    ensures spent { result ≡ Ok false → (firings ≤ length proof.new.entries) × GoesOn (meaning_of schema.now) proof.new }
{
    if !fire_base(alloc, proof, schema, firings)? {
        return Ok(false);
    }
    if !expose_all(alloc, proof, schema, firings, turn)? {
        return Ok(false);
    }
    fire_copies(alloc, proof, schema, firings)
}

/// The base firings of a proof of the empty log. Whether none is active at the end.
fn fire_base(
    alloc: Global,
    proof: &mut Proof,
    schema: &Schema,
    firings: u32,
) -> Result<bool, NoMemory>
    requires search { IsSearch (meaning_of schema.now) firings proof.old.start proof.old.constants proof.old }
    requires empty { proof.old.entries ≡ [] }
    requires firings { firings ≤ MOST_FIRINGS }
    ensures search { OnOk result (IsSearch (meaning_of schema.now) firings proof.old.start proof.old.constants proof.new) }
    ensures part { OnOk result (last_part 0 (log_of proof.new) ≤ 1) }
    ensures met { result ≡ Ok true → MeetsAll Const (GroundsOf proof.new.end.base) schema.now.rules }
    ensures spent { result ≡ Ok false → (firings ≤ length proof.new.entries) × GoesOn (meaning_of schema.now) proof.new }
{
    match settle(alloc, proof, schema, false, firings)? {
        Round::Quiet => Ok(true),
        Round::Done => unreachable!(),
        Round::Spent => Ok(false),
    }
}

/// The copy firings of a proof in which no exposure is active. Whether nothing is active at the end.
fn fire_copies(
    alloc: Global,
    proof: &mut Proof,
    schema: &Schema,
    firings: u32,
) -> Result<bool, NoMemory>
    requires search { IsSearch (meaning_of schema.now) firings proof.old.start proof.old.constants proof.old }
    requires met { MeetsAll Const (GroundsOf proof.old.end.base) schema.now.rules }
    requires exposed { NoExposure (meaning_of schema.now) proof.old.constants proof.old.end }
    requires firings { firings ≤ MOST_FIRINGS }
    ensures search { OnOk result (IsSearch (meaning_of schema.now) firings proof.old.start proof.old.constants proof.new) }
    ensures quiet { result ≡ Ok true → IsAllQuiet (meaning_of schema.now) proof.new }
    ensures spent { result ≡ Ok false → (firings ≤ length proof.new.entries) × GoesOn (meaning_of schema.now) proof.new }
{
    match settle(alloc, proof, schema, true, firings)? {
        Round::Quiet => Ok(true),
        Round::Done => unreachable!(),
        Round::Spent => Ok(false),
    }
}
