// The queries of selects, of which some have none.
ghost use Rattle.std.specs.Prelude.{◌≡◌, ◌<◌, ◌^◌, IfOk, length};
ghost use Rattle.proof_search.specs.Forms.{queries_in, place_in};

use lists::{Copies, NoMemory, Seq};
use meaning::types::{Queries, Query};
use std::alloc::Global;

/// Copies of the queries of those selects that have one, in order.
pub fn queries_of(alloc: Global, forms: &[Option<Query>]) -> Result<Queries, NoMemory>
    ensures { IfOk result (λ queries. queries ≡ queries_in forms.now) }
{
    let mut queries = Seq::new(alloc);
    let mut left = forms;
    while let [form, rest @ ..] = left {
        if let Some(query) = form {
            queries.push(copied(alloc, query)?)?;
        }
        left = rest;
    }
    Ok(queries)
}

/// A copy of a query.
pub(crate) fn copied(alloc: Global, query: &Query) -> Result<Query, NoMemory>
    ensures { IfOk result (λ copy. copy ≡ query.now) }
{
    Ok(Query {
        atoms: query.atoms.copy(alloc)?,
        head: query.head.copy(alloc)?,
        variables: query.variables,
    })
}

/// The number of the select whose query has this number. Takes no memory.
pub fn place_of(forms: &[Option<Query>], number: u32) -> u32
    requires { length forms.now < 2 ^ 32 }
    ensures { result ≡ place_in forms.now number }
{
    let mut place: u32 = 0;
    let mut before = number;
    let mut left = forms;
    while let [form, rest @ ..] = left {
        if form.is_some() {
            if before == 0 {
                return place;
            }
            before -= 1;
        }
        place += 1;
        left = rest;
    }
    place
}
