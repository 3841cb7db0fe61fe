// The base facts on which a match can rest.
ghost use Rattle.std.specs.Prelude.{◌≡◌, ◌<◌, ◌≤◌, ℕ, [], ◌∷◌, ◌++◌, Contains, IfOk, OnOk, IfSome, IfNone, Some, length, slice_get, true};
ghost use Rattle.meaning.specs.declared.types.Query.{Query as TheQuery};
ghost use Rattle.meaning.specs.declared.types.Val.{Val as TheVal};
ghost use Rattle.meaning.specs.Triggers.{bound};
ghost use Rattle.access_schema.specs.Meaning.{meaning_of};
ghost use Rattle.accessible_copy.specs.Goals.{IsCounted};
ghost use Rattle.accessible_copy.specs.Known.{known_values};
ghost use Rattle.accessible_copy.specs.Methods.{methods_of, IsMethodIndex};
ghost use Rattle.accessible_copy.specs.OpenFacts.{AreHolders};
ghost use Rattle.exposure_search.specs.Tries.{IsMarked};
ghost use Rattle.exposure_search.specs.Relevance.{AreRelevant, Keeps, IsImageOf, IsImageAmong, IsMade, WantedMarked, HoldsInput, IsAskedBy, Grows, IsOfKind, IsFollowed, IsFollowing};

use crate::images::{fits_some, head_bindings};
use crate::marks::{Marks, is_marked};
use crate::wanted::{making_rules, wanted_relations};
use access_schema::Schema;
use accessible_copy::{Holders, MethodIndex, Proof};
use lists::NoMemory;
use meaning::types::{Atom, Ground, Queries, Query, Val, Vals};
use std::alloc::Global;

/// Marks of the base facts and rules on which a match of the queries can rest. `facts` are the base facts, none of which is exposed.
///
/// Needed are the facts that fit an atom of a query whose head has these values, and the facts of wanted relations. Relevant are
/// these, and each fact that holds a value which is no known constant and which a relevant fact has at an input of a method. Each
/// marked fact is followed once.
pub(crate) fn relevant_facts(
    alloc: Global,
    proof: &Proof,
    schema: &Schema,
    queries: &Queries,
    head: &Vals,
    methods: &MethodIndex,
    facts: &[Ground],
) -> Result<Marks, NoMemory>
    requires counted { (query : TheQuery) → Contains queries.now query → IsCounted query }
    requires facts { facts.now ≡ proof.now.end.base }
    requires none { proof.now.end.exposed ≡ [] }
    requires methods { IsMethodIndex schema.now.methods methods.now }
    ensures { IfOk result (λ marks. AreRelevant (meaning_of schema.now) proof.now.constants proof.now.end.base
        proof.now.end.next queries.now head.now marks) }
{
    let rules = schema.rules.as_slice();
    let asked = queries.as_slice();
    let next = proof.next();
    let wanted = wanted_relations(alloc, rules, next, asked, head)?;
    let makers = making_rules(alloc, rules, next, asked, head, wanted.as_slice())?;
    let seen = seen_facts(alloc, facts, wanted.as_slice(), asked, head)?;
    let needed = Vec::from_slice(alloc, seen.marks.as_slice())?;
    let relevant = closed_marks(alloc, proof, schema, methods, seen)?;
    Ok(Marks {
        relevant,
        needed,
        makers,
    })
}

/// A mark for each fact of a wanted relation, and for each that a match with this head can make of an atom of a query. Each of these
/// waits.
fn seen_facts(
    alloc: Global,
    facts: &[Ground],
    wanted: &[bool],
    queries: &[Query],
    head: &Vals,
) -> Result<Marking, NoMemory>
    requires { (query : TheQuery) → Contains queries.now query → IsCounted query }
    ensures long { IfOk result (λ seen. length seen.marks.items ≡ length facts.now) }
    ensures wanted { IfOk result (λ seen. WantedMarked wanted.now facts.now seen.marks.items) }
    ensures images { IfOk result (λ seen. (number : ℕ) → IsOfKind facts.now (IsImageAmong queries.now head.now) number →
        IsMarked seen.marks.items number) }
    ensures wait { IfOk result (λ seen. (number : ℕ) → IsMarked seen.marks.items number → Contains seen.waiting.items number) }
{
    let mut marking = wanted_facts(alloc, facts, wanted)?;
    marking.reach_images(alloc, queries, head, facts)?;
    Ok(marking)
}

/// The marks, with those of the facts for which marked ones ask, until there are no more.
fn closed_marks(
    alloc: Global,
    proof: &Proof,
    schema: &Schema,
    methods: &MethodIndex,
    mut marking: Marking,
) -> Result<Vec<bool>, NoMemory>
    requires none { proof.now.end.exposed ≡ [] }
    requires methods { IsMethodIndex schema.now.methods methods.now }
    requires begun { IsFollowing (meaning_of schema.now) proof.now.constants proof.now.end.base marking }
    ensures stays { IfOk result (λ marks. Keeps marking.marks.items marks.items) }
    ensures closed { IfOk result (λ marks. (number : ℕ) → IsMarked marks.items number →
        IsFollowed (meaning_of schema.now) proof.now.constants proof.now.end.base marks.items number) }
{
    let holders = proof.holders(alloc)?;
    marking.follow_all(proof, schema, methods, &holders)?;
    let Marking { marks, .. } = marking;
    Ok(marks)
}

/// A mark for each fact of a wanted relation. Each of these waits.
fn wanted_facts(alloc: Global, facts: &[Ground], wanted: &[bool]) -> Result<Marking, NoMemory>
    ensures long { IfOk result (λ marking. length marking.marks.items ≡ length facts.now) }
    ensures wanted { IfOk result (λ marking. WantedMarked wanted.now facts.now marking.marks.items) }
    ensures wait { IfOk result (λ marking. (number : ℕ) → IsMarked marking.marks.items number → Contains marking.waiting.items number) }
{
    let mut marking = Marking {
        marks: Vec::new(alloc),
        waiting: Vec::new(alloc),
    };
    for fact in facts {
        marking.add(is_marked(wanted, fact.rel as usize))?;
    }
    Ok(marking)
}

/// Marks of facts, and the numbers of those marked ones that were not followed yet.
#[derive(Drop)]
pub struct Marking {
    marks: Vec<bool>,
    waiting: Vec<usize>,
}

impl Marking {
    /// One more mark; where it is set, its fact waits.
    fn add(&mut self, mark: bool) -> Result<(), NoMemory>
        ensures marks { OnOk result (self.new.marks.items ≡ self.old.marks.items ++ mark ∷ []) }
        ensures waits { OnOk result ((number : ℕ) → Contains self.old.waiting.items number → Contains self.new.waiting.items number) }
        ensures new { OnOk result (mark ≡ true → Contains self.new.waiting.items (length self.old.marks.items)) }
    {
        if mark {
            self.waiting.push(self.marks.len())?;
        }
        self.marks.push(mark)?;
        Ok(())
    }

    /// Marks the facts that a match with this head can make of the queries' atoms.
    fn reach_images(
        &mut self,
        alloc: Global,
        queries: &[Query],
        head: &Vals,
        facts: &[Ground],
    ) -> Result<(), NoMemory>
        requires { (query : TheQuery) → Contains queries.now query → IsCounted query }
        ensures grows { OnOk result (Grows self.old self.new) }
        ensures reached { OnOk result ((number : ℕ) → IsOfKind facts.now (IsImageAmong queries.now head.now) number →
            number < length self.old.marks.items → IsMarked self.new.marks.items number) }
    {
        for query in queries {
            self.reach_query(alloc, query, head, facts)?;
        }
        Ok(())
    }

    /// Marks the facts that a match with this head can make of the query's atoms.
    fn reach_query(
        &mut self,
        alloc: Global,
        query: &Query,
        head: &Vals,
        facts: &[Ground],
    ) -> Result<(), NoMemory>
        requires { IsCounted query.now }
        ensures grows { OnOk result (Grows self.old self.new) }
        ensures reached { OnOk result ((number : ℕ) → IsOfKind facts.now (IsImageOf query.now head.now) number →
            number < length self.old.marks.items → IsMarked self.new.marks.items number) }
    {
        match head_bindings(alloc, query, head)? {
            Some(given) => self.reach_fitting(given.as_slice(), query.atoms.as_slice(), facts),
            None => Ok(()),
        }
    }

    /// Marks the facts that fit one of the atoms.
    fn reach_fitting(
        &mut self,
        given: &[Option<Val>],
        atoms: &[Atom],
        facts: &[Ground],
    ) -> Result<(), NoMemory>
        requires { bound atoms.now ≤ length given.now }
        ensures grows { OnOk result (Grows self.old self.new) }
        ensures reached { OnOk result ((number : ℕ) → IsOfKind facts.now (IsMade given.now atoms.now) number →
            number < length self.old.marks.items → IsMarked self.new.marks.items number) }
    {
        for (number, fact) in facts.iter().enumerate() {
            if fits_some(given, atoms, fact) {
                self.reach(number)?;
            }
        }
        Ok(())
    }

    /// Follows the facts that wait, until none does.
    fn follow_all(
        &mut self,
        proof: &Proof,
        schema: &Schema,
        methods: &MethodIndex,
        holders: &Holders,
    ) -> Result<(), NoMemory>
        requires none { proof.now.end.exposed ≡ [] }
        requires methods { IsMethodIndex schema.now.methods methods.now }
        requires holders { AreHolders proof.now.end.base holders.now }
        requires begun { IsFollowing (meaning_of schema.now) proof.now.constants proof.now.end.base self.old }
        ensures stays { OnOk result (Keeps self.old.marks.items self.new.marks.items) }
        ensures closed { OnOk result ((number : ℕ) → IsMarked self.new.marks.items number →
            IsFollowed (meaning_of schema.now) proof.now.constants proof.now.end.base self.new.marks.items number) }
    {
        for _ in 0..usize::MAX {
            let Some(number) = self.waiting.pop() else {
                return Ok(());
            };
            if let Some(fact) = proof.base(number) {
                self.follow(proof, schema, methods, holders, fact)?;
            }
        }
        // each turn takes a fact that was kept in memory, which has no room for so many
        Err(NoMemory)
    }

    /// Marks the facts that hold a value which the fact has at an input of one of its relation's methods.
    fn follow(
        &mut self,
        proof: &Proof,
        schema: &Schema,
        methods: &MethodIndex,
        holders: &Holders,
        fact: &Ground,
    ) -> Result<(), NoMemory>
        ensures grows { OnOk result (Grows self.old self.new) }
        ensures reached { OnOk result ((number : ℕ) → IsAskedBy schema.now.methods holders.now
            (known_values proof.now.constants proof.now.end.exposed) fact.now.vals (methods_of methods.now fact.now.rel) number →
            number < length self.old.marks.items → IsMarked self.new.marks.items number) }
    {
        for number in methods.numbers(fact.rel) {
            if let Some(method) = schema.methods.get(*number as usize) {
                self.follow_inputs(
                    proof,
                    holders,
                    fact.vals.as_slice(),
                    method.inputs.as_slice(),
                )?;
            }
        }
        Ok(())
    }

    /// Marks the facts that hold one of the values at these places which are not known.
    fn follow_inputs(
        &mut self,
        proof: &Proof,
        holders: &Holders,
        vals: &[Val],
        places: &[u32],
    ) -> Result<(), NoMemory>
        ensures grows { OnOk result (Grows self.old self.new) }
        ensures reached { OnOk result ((number : ℕ) → HoldsInput holders.now
            (known_values proof.now.constants proof.now.end.exposed) vals.now places.now number →
            number < length self.old.marks.items → IsMarked self.new.marks.items number) }
    {
        for place in places {
            if let Some(val) = unknown_at(proof, vals, *place) {
                self.reach_all(holders.numbers(val))?;
            }
        }
        Ok(())
    }

    /// Marks the facts with these numbers, where there are any.
    fn reach_all(&mut self, numbers: &[usize]) -> Result<(), NoMemory>
        ensures grows { OnOk result (Grows self.old self.new) }
        ensures reached { OnOk result ((number : ℕ) → Contains numbers.now number →
            number < length self.old.marks.items → IsMarked self.new.marks.items number) }
    {
        for number in numbers {
            self.reach(*number)?;
        }
        Ok(())
    }

    /// Marks the fact with this number, where there is one; if it was not marked, it waits.
    fn reach(&mut self, number: usize) -> Result<(), NoMemory>
        ensures grows { OnOk result (Grows self.old self.new) }
        ensures reached { OnOk result (number < length self.old.marks.items → IsMarked self.new.marks.items number) }
    {
        if number < self.marks.len() && !self.marks[number] {
            self.waiting.push(number)?;
            self.marks[number] = true;
        }
        Ok(())
    }
}

/// The value at the place, where it is not known. Takes no memory.
fn unknown_at<'a>(proof: &Proof, vals: &'a [Val], place: u32) -> Option<&'a Val>
    ensures some { IfSome result (λ val. slice_get vals.now place ≡ Some val.now) }
    ensures none { IfNone result ((val : TheVal) → slice_get vals.now place ≡ Some val →
        Contains (known_values proof.now.constants proof.now.end.exposed) val) }
{
    match vals.get(place as usize) {
        Some(val) if !proof.knows(val) => Some(val),
        _ => None,
    }
}
