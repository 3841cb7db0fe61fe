// The candidates of each base fact.
ghost use Rattle.std.specs.Prelude.{◌≡◌, ◌<◌, ◌≢◌, ℕ, ◌∷◌, [], ◌++◌, Contains, IfOk, OnOk, length, slice_index_or};
ghost use Rattle.exposure_search.specs.declared.candidates.Candidate.{Candidate as TheCandidate};
ghost use Rattle.exposure_search.specs.Candidates.{numbers_of, IsCandidateIndex};

use crate::candidates::Candidate;
use lists::{NoMemory, Seq};
use std::alloc::Global;
use std::marker::Model;

/// For each base fact the numbers of the candidates that expose it. Contracts see the list of these lists.
#[derive(Drop)]
pub struct CandidateIndex {
    numbers: Vec<Seq<usize>>,
}

impl Model for CandidateIndex {
    ghost use Rattle.std.specs.Prelude.{List, ℕ};

    ghost Value = { List (List ℕ) };

    ghost view = { λ i. i.numbers.items };
}

impl CandidateIndex {
    /// The index of candidates, each of which exposes one of so many base facts.
    pub(crate) fn of(
        alloc: Global,
        candidates: &[Candidate],
        facts: usize,
    ) -> Result<CandidateIndex, NoMemory>
        requires { (candidate : TheCandidate) → Contains candidates.now candidate → candidate.step.fact < facts }
        ensures { IfOk result (λ index. IsCandidateIndex candidates.now index) }
    {
        let mut numbers = empty_lists(alloc, facts)?;
        for (number, candidate) in candidates.iter().enumerate() {
            note(&mut numbers, candidate.step.fact, number)?;
        }
        Ok(CandidateIndex { numbers })
    }

    /// The numbers of the candidates that expose the fact. Takes no memory.
    pub(crate) fn numbers(&self, fact: usize) -> &[usize]
        ensures { result.now ≡ numbers_of self.now fact }
    {
        match self.numbers.get(fact) {
            Some(numbers) => numbers.as_slice(),
            None => &[],
        }
    }
}

/// So many empty lists.
fn empty_lists(alloc: Global, count: usize) -> Result<Vec<Seq<usize>>, NoMemory>
    ensures { IfOk result (λ lists. length lists.items ≡ count) }
{
    let mut lists = Vec::with_capacity(alloc, count)?;
    for _ in 0..count {
        lists.push(Seq::new(alloc))?;
    }
    Ok(lists)
}

/// Puts the number at the end of the fact's list.
fn note(lists: &mut Vec<Seq<usize>>, fact: usize, number: usize) -> Result<(), NoMemory>
    requires { fact < length lists.old.items }
    ensures here { OnOk result (numbers_of lists.new.items fact ≡ numbers_of lists.old.items fact ++ number ∷ []) }
    ensures others { OnOk result ((other : ℕ) → other ≢ fact → numbers_of lists.new.items other ≡ numbers_of lists.old.items other) }
    ensures long { OnOk result (length lists.new.items ≡ length lists.old.items) }
{
    let list = &mut lists[fact];
    list.push(number)?;
    Ok(())
}
