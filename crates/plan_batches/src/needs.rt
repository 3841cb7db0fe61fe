// The relations that plans access.
ghost use Rattle.std.specs.Prelude.{◌≡◌, ◌↔◌, ◌<◌, ◌^◌, ℕ, Contains, IfOk, length};
ghost use Rattle.std.specs.List.Sorted.{IsStrictlyIncreasing};
ghost use Rattle.plan_batches.specs.Each.{Both};
ghost use Rattle.plan_batches.specs.Needing.{Accesses, IsFirstIn, StandsIn};
ghost use Rattle.plan_batches.specs.declared.needs.Accessed.{Accessed};

use access_schema::Schema;
use lists::NoMemory;
use meaning::types::Plan;
use middleware::accessed;
use std::alloc::Global;

/// The relations that one plan accesses.
#[derive(Drop)]
pub struct Accessed {
    pub rels: Vec<u32>,
}

/// The relations that each of the plans accesses.
pub fn accessed_by_each(
    alloc: Global,
    schema: &Schema,
    plans: &[Plan],
) -> Result<Vec<Accessed>, NoMemory>
    ensures { IfOk result (λ each. Both (Accesses schema.now) plans.now each.items) }
{
    let mut each = Vec::with_capacity(alloc, plans.len())?;
    for plan in plans {
        each.push(Accessed {
            rels: accessed(alloc, schema, plan)?,
        })?;
    }
    Ok(each)
}

/// The relations of all of these, ascending, each once.
pub fn all_accessed(alloc: Global, each: &[Accessed]) -> Result<Vec<u32>, NoMemory>
    ensures ascends { IfOk result (λ rels. IsStrictlyIncreasing rels.items) }
    ensures exactly { IfOk result (λ rels. (rel : ℕ) → Contains rels.items rel ↔ StandsIn each.now rel) }
{
    let mut rels = joined(alloc, each)?;
    rels.sort_unstable();
    rels.dedup();
    Ok(rels)
}

fn joined(alloc: Global, each: &[Accessed]) -> Result<Vec<u32>, NoMemory>
    ensures { IfOk result (λ rels. (rel : ℕ) → Contains rels.items rel ↔ StandsIn each.now rel) }
{
    let mut rels = Vec::new(alloc);
    for one in each {
        rels.extend_from_slice(one.rels.as_slice())?;
    }
    Ok(rels)
}

/// The number of the first of these that has the relation.
pub fn first_on(each: &[Accessed], rel: u32) -> u32
    requires some { StandsIn each.now rel }
    requires few { length each.now < 2 ^ 32 }
    ensures { IsFirstIn each.now result rel }
{
    let mut number: u32 = 0;
    for one in each {
        if one.rels.as_slice().contains(&rel) {
            return number;
        }
        number += 1;
    }
    unreachable!()
}
