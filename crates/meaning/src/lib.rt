//! The meaning of schemas, queries, plans and refutations: plain data, and every definition that the contracts of
//! the crates above cite.
//!
//! The definitions stand in `specs/`, in the reading order of `specs/Lib.antt`; docs/DEFINITIONS.md goes through
//! them by an example. The laws between them are the crate `meaning_laws`.
#![tactic(auto)]

mod copied;
mod hashing;
mod integers;
mod sameness;
pub mod types;

ghost use Rattle.std.specs.Prelude.{◌≡◌, ◌↔◌, ◌+◌, ◌<◌, ◌^◌, IsTrue, length};
ghost use Rattle.meaning.specs.Plans.{made};

pub use integers::is_integer;
use types::{Fact, Place};

/// Whether the fact is one of the relation.
pub fn is_of_relation(fact: &Fact, rel: u32) -> bool
    ensures { IsTrue result ↔ (fact.now.rel ≡ rel) }
{
    fact.rel == rel
}

/// How many columns there are after a step with these places.
pub fn columns_made(columns: u32, places: &[Place]) -> u32
    requires { columns + length places.now < 2 ^ 32 }
    ensures { result ≡ made columns places.now }
{
    let mut total = columns;
    for place in places {
        if let Place::New = place {
            total += 1;
        }
    }
    total
}
