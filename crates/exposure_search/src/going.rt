// Going to the proof whose exposures are those of a path.
ghost use Rattle.std.specs.Prelude.{◌≡◌, ◌<◌, ◌≤◌, List, Bool, IsTrue, OnOk, Some, length, take, slice_get};
ghost use Rattle.access_schema.specs.Meaning.{meaning_of};
ghost use Rattle.accessible_copy.specs.Proving.{log_of};
ghost use Rattle.least_search.specs.Walks.{IsWalk, no_facts};
ghost use Rattle.exposure_search.specs.Tries.{IsOpen};
ghost use Rattle.exposure_search.specs.Making.{bases_of, OnlyExposes, SameBase, fact_at, made_by, all_made};

use access_schema::Schema;
use accessible_copy::{Mark, Proof, expose, mark, undo};
use least_search::Move;
use lists::{Exact, NoMemory};
use meaning::types::Ground;
use std::alloc::Global;

/// Undoes the exposures that are not of the path, and makes those of the rest of the path, in order.
///
/// The base firings are the first `bases` of the log, and `facts` are the base facts.
pub(crate) fn go_along(
    alloc: Global,
    proof: &mut Proof,
    schema: &Schema,
    facts: &[Ground],
    bases: u64,
    path: &[Move],
) -> Result<(), NoMemory>
    requires exposes { OnlyExposes (meaning_of schema.now) proof.old }
    requires facts { facts.now ≡ proof.old.end.base }
    requires bases { bases ≡ length (bases_of (log_of proof.old)) }
    requires walk { (set : List Bool) × IsWalk (IsOpen (meaning_of schema.now) proof.old.constants proof.old.end.base)
        (no_facts (length proof.old.end.base)) path.now set }
    ensures exposes { OnlyExposes (meaning_of schema.now) proof.new }
    ensures same { SameBase proof.old proof.new }
    ensures made { OnOk result (proof.new.exposed ≡ all_made proof.old.end.base path.now) }
{
    let front = common_front(proof, facts, path);
    go_back(proof, schema, bases, front);
    for number in front..path.len() {
        let step = path[number];
        let fact = fact_at(facts, step.fact);
        expose(alloc, proof, schema, step.method, fact)?;
    }
    Ok(())
}

/// The base fact with this number.
pub(crate) fn fact_at(facts: &[Ground], number: usize) -> &Ground
    requires { number < length facts.now }
    ensures { result.now ≡ fact_at facts.now number }
{
    &facts[number]
}

/// Undoes all exposures but the first `front`.
fn go_back(proof: &mut Proof, schema: &Schema, bases: u64, front: usize)
    requires exposes { OnlyExposes (meaning_of schema.now) proof.old }
    requires bases { bases ≡ length (bases_of (log_of proof.old)) }
    requires front { front ≤ length proof.old.exposed }
    ensures exposes { OnlyExposes (meaning_of schema.now) proof.new }
    ensures same { SameBase proof.old proof.new }
    ensures exposed { proof.new.exposed ≡ take front proof.old.exposed }
{
    let firings = mark(proof).firings;
    let undone = firings - bases - front as u64;
    undo(
        proof,
        Mark {
            firings: firings - undone,
        },
    );
}

/// How many of the first moves of the path made the first exposures of the proof.
fn common_front(proof: &Proof, facts: &[Ground], path: &[Move]) -> usize
    ensures path { result ≤ length path.now }
    ensures exposed { result ≤ length proof.now.exposed }
    ensures made { take result proof.now.exposed ≡ all_made facts.now (take result path.now) }
{
    for (number, step) in path.iter().enumerate() {
        if !is_made(proof, facts, number, step) {
            return number;
        }
    }
    path.len()
}

/// Whether the move made the exposure with this number.
fn is_made(proof: &Proof, facts: &[Ground], number: usize, step: &Move) -> bool
    ensures { IsTrue result → slice_get proof.now.exposed number ≡ Some (made_by facts.now step.now) }
{
    let Some((fact, method)) = proof.exposed(number) else {
        return false;
    };
    match facts.get(step.fact) {
        Some(base) => method == step.method && fact.same(base),
        None => false,
    }
}
