// A proof, and what it lends.
ghost use Rattle.std.specs.Prelude.{◌≡◌, ◌≤◌, ◌↔◌, [], IsTrue, IfOk, IfSome, IfNone, Contains, slice_get, option_copied, None, Some};
ghost use Rattle.meaning.specs.Triggers.{bound};
ghost use Rattle.meaning.specs.Runs.{opening, opening_state};
ghost use Rattle.access_schema.specs.Meaning.{meaning_of};
ghost use Rattle.rule_pass.specs.declared.pass.TheConstants.{HIGHEST_FIRST_LABEL};
ghost use Rattle.accessible_copy.specs.Known.{known_values};
ghost use Rattle.accessible_copy.specs.OpenFacts.{AreHolders};
ghost use Rattle.accessible_copy.specs.Proving.{IsProofOf, IsOrdered, log_of, sizes_of};

use crate::entry::{Entry, Sizes};
use crate::history::History;
use crate::holders::Holders;
use crate::known::Known;
use crate::open_facts::OpenFacts;
use access_schema::Schema;
use homomorphism::{Freezing, Positions, ground_under};
use lists::{NoMemory, Texts};
use meaning::types::{Firing, Ground, Queries, Query, Val};
use rule_pass::State;
use std::alloc::Global;
use std::marker::Model;

/// Base facts, exposed facts and copy facts, the next label, the known values, and the log of the firings.
///
/// `open_facts` is what is kept to list exposures fast, from the first exposure on. Contracts do not see it. It stands in a
/// box, so that a pointer moves where it is taken out and put back.
#[derive(Drop)]
pub struct Proof {
    pub(crate) opening: State,
    pub(crate) base: State,
    pub(crate) copy: State,
    pub(crate) known: Known,
    pub(crate) history: History,
    pub(crate) open_facts: Option<Box<OpenFacts>>,
}

impl Model for Proof {
    ghost use Rattle.std.specs.Prelude.{◌≡◌, [], IfSome};
    ghost use Rattle.accessible_copy.specs.Known.{facts_of};
    ghost use Rattle.accessible_copy.specs.Proving.{Proving};
    ghost use Rattle.accessible_copy.specs.OpenFacts.{AreOpenFacts};

    ghost Value = { Proving };

    ghost view = { λ p. record {
      constants = p.known.constants;
      start = record { base = p.opening.facts; exposed = []; copy = []; next = p.opening.next };
      exposed = p.known.exposed;
      entries = p.history.entries;
      end = record { base = p.base.facts; exposed = facts_of p.known.exposed; copy = p.copy.facts; next = p.base.next };
    } };

    ghost invariant = { λ p. (p.copy.next ≡ p.base.next)
        × IfSome p.open_facts (λ kept. AreOpenFacts p.base.facts p.known.constants p.known.exposed kept.value) };
}

impl Proof {
    /// The proof of the empty log, whose base facts are the query's atoms, with variable k as label k.
    ///
    /// Its copy is made for matches of these goals: by other values than those that they and the rules look for, no copy fact
    /// is found quickly.
    pub fn start(
        alloc: Global,
        schema: &Schema,
        query: &Query,
        goals: &Queries,
        known: &Texts,
    ) -> Result<Proof, NoMemory>
        requires counted { bound query.now.atoms ≤ query.now.variables }
        requires few { query.now.variables ≤ HIGHEST_FIRST_LABEL }
        ensures run { IfOk result (λ proof. IsProofOf (meaning_of schema.now) proof) }
        ensures ordered { IfOk result (λ proof. IsOrdered (meaning_of schema.now) proof) }
        ensures start { IfOk result (λ proof. proof.start ≡ opening query.now) }
        ensures constants { IfOk result (λ proof. proof.constants ≡ known.now) }
        ensures empty { IfOk result (λ proof. proof.entries ≡ []) }
    {
        let base = opening_state(
            alloc,
            query,
            Positions::of_rules(alloc, schema.rules.as_slice())?,
        )?;
        let Ok(copy) = empty_copy(alloc, schema, query, goals) else {
            drop(base);
            return Err(NoMemory);
        };
        let Ok(known) = Known::start(alloc, known) else {
            drop(copy);
            drop(base);
            return Err(NoMemory);
        };
        let Ok(opening) = opening_state(alloc, query, Positions::none(alloc)) else {
            drop(known);
            drop(copy);
            drop(base);
            return Err(NoMemory);
        };
        Ok(Proof {
            opening,
            base,
            copy,
            known,
            history: History::new(alloc),
            open_facts: None,
        })
    }

    /// The base fact with this number. Takes no memory.
    pub fn base(&self, number: usize) -> Option<&Ground>
        ensures { option_copied result ≡ slice_get self.now.end.base number }
    {
        self.base.store().get(number)
    }

    /// The copy fact with this number. Takes no memory.
    pub fn copy(&self, number: usize) -> Option<&Ground>
        ensures { option_copied result ≡ slice_get self.now.end.copy number }
    {
        self.copy.store().get(number)
    }

    /// The exposed fact with this number, and the number of its method. Takes no memory.
    pub fn exposed(&self, number: usize) -> Option<(&Ground, u32)>
        ensures some { IfSome result (λ pair. slice_get self.now.exposed number ≡ Some (record { method = pair.1; fact = pair.0.now })) }
        ensures none { IfNone result (slice_get self.now.exposed number ≡ None) }
    {
        self.known.get(number)
    }

    /// The known value with this number. Takes no memory.
    pub fn known(&self, number: usize) -> Option<&Val>
        ensures { option_copied result ≡ slice_get (known_values self.now.constants self.now.end.exposed) number }
    {
        self.known.value(number)
    }

    /// For each value the numbers of the base facts that hold it.
    pub fn holders(&self, alloc: Global) -> Result<Holders, NoMemory>
        ensures { IfOk result (λ holders. AreHolders self.now.end.base holders) }
    {
        Holders::of(alloc, self.base.store())
    }

    /// Whether the fact is a base fact, found by an index. Takes no memory.
    pub fn has_base(&self, fact: &Ground) -> bool
        ensures { IsTrue result ↔ Contains self.now.end.base fact.now }
    {
        self.base.store().contains(fact)
    }

    /// Whether the fact is exposed, found by an index. Takes no memory.
    pub fn has_exposed(&self, fact: &Ground) -> bool
        ensures { IsTrue result ↔ Contains self.now.end.exposed fact.now }
    {
        self.known.has(fact)
    }

    /// Whether the fact is a copy fact, found by an index. Takes no memory.
    pub fn has_copy(&self, fact: &Ground) -> bool
        ensures { IsTrue result ↔ Contains self.now.end.copy fact.now }
    {
        self.copy.store().contains(fact)
    }

    /// Whether the value is known, found by a look at the place where it stood first. Takes no memory.
    pub fn knows(&self, val: &Val) -> bool
        ensures { IsTrue result ↔ Contains (known_values self.now.constants self.now.end.exposed) val.now }
    {
        self.known.knows(val)
    }

    /// The firing with this number. Takes no memory.
    pub fn log(&self, number: usize) -> Option<&Firing>
        ensures { option_copied result ≡ slice_get (log_of self.now) number }
    {
        match self.history.get(number) {
            Some(entry) => Some(&entry.firing),
            None => None,
        }
    }

    /// The firing with this number, and the sizes of the state before it. Takes no memory.
    pub fn entry(&self, number: usize) -> Option<&Entry>
        ensures { option_copied result ≡ slice_get self.now.entries number }
    {
        self.history.get(number)
    }

    /// The sizes of the state. Takes no memory.
    pub fn sizes(&self) -> Sizes
        ensures { result ≡ sizes_of self.now.constants self.now.end }
    {
        Sizes {
            base: self.base.store().len(),
            exposed: self.known.len(),
            copy: self.copy.store().len(),
            known: self.known.width(),
            next: self.base.next(),
        }
    }

    /// The next label. Takes no memory.
    pub fn next(&self) -> u32
        ensures { result ≡ self.now.end.next }
    {
        self.base.next()
    }
}

/// The opening state of the query: its atoms, with variable k as label k. Facts are found by their values at these positions.
pub fn opening_state(alloc: Global, query: &Query, positions: Positions) -> Result<State, NoMemory>
    requires { bound query.now.atoms ≤ query.now.variables }
    ensures { IfOk result (λ state. state ≡ opening_state query.now) }
{
    let facts = ground_under(alloc, query.atoms.as_slice(), &Freezing)?;
    Ok(State::start(alloc, facts, query.variables, positions)?)
}

/// A copy without facts, made for matches of the goals, with the variables of the query as labels that are taken.
fn empty_copy(
    alloc: Global,
    schema: &Schema,
    query: &Query,
    goals: &Queries,
) -> Result<State, NoMemory>
    ensures { IfOk result (λ state. state ≡ record { facts = []; next = query.now.variables }) }
{
    let positions = looked_for(alloc, schema, goals)?;
    Ok(State::start(alloc, Vec::new(alloc), query.variables, positions)?)
}

/// The positions that the rules look for, and all of the goals' atoms.
fn looked_for(alloc: Global, schema: &Schema, goals: &Queries) -> Result<Positions, NoMemory> {
    let mut positions = Positions::of_rules(alloc, schema.rules.as_slice())?;
    for goal in goals.as_slice() {
        positions.add_atoms(goal.atoms.as_slice())?;
    }
    Ok(positions)
}
