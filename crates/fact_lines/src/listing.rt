// The facts of an instance in order.
ghost use Rattle.std.specs.Prelude.{◌≡◌, map, IfOk};
ghost use Rattle.fact_lines.specs.Lines.{IsListing};
ghost use Rattle.fact_lines.specs.Lent.{lent_fact};

use lists::{NoMemory, Row};
use meaning::types::Fact;
use std::alloc::Global;

/// The facts, each once and in ascending order, as relations with rows that are lent.
pub fn ascending(alloc: Global, facts: &[Fact]) -> Result<Vec<(u32, &Row)>, NoMemory>
    ensures { IfOk result (λ listing. IsListing facts.now (map lent_fact listing.items)) }
{
    let mut listing = lent(alloc, facts)?;
    listing.sort_unstable();
    listing.dedup();
    Ok(listing)
}

// The facts as they stand.
fn lent(alloc: Global, facts: &[Fact]) -> Result<Vec<(u32, &Row)>, NoMemory>
    ensures { IfOk result (λ listing. map lent_fact listing.items ≡ facts.now) }
{
    let mut listing = Vec::with_capacity(alloc, facts.len())?;
    for fact in facts {
        listing.push((fact.rel, &fact.row))?;
    }
    Ok(listing)
}
