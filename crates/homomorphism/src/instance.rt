// The facts of an instance as labelled facts.
ghost use Rattle.std.specs.Prelude.{◌≡◌, map, IfOk};
ghost use Rattle.meaning.specs.declared.types.Val.TheVariants.{Const};
ghost use Rattle.meaning.specs.Search.{AreDistinct};
ghost use Rattle.homomorphism.specs.Instances.{AreFactsOf, pair_of, ground_pair};

use lists::{NoMemory, Row, Seq};
use meaning::types::{Ground, Instance, Val, Vals};
use std::alloc::Global;

/// The facts of the instance, each once, with each text as a constant.
pub fn distinct_grounds(alloc: Global, instance: Instance) -> Result<Vec<Ground>, NoMemory>
    ensures same { IfOk result (λ facts. AreFactsOf instance facts.items) }
    ensures once { IfOk result (λ facts. AreDistinct facts.items) }
{
    let mut rows = pairs(alloc, instance)?;
    rows.sort_unstable();
    rows.dedup();
    Ok(grounds(alloc, rows)?)
}

/// The relation and the row of each fact, in order.
fn pairs(alloc: Global, instance: Instance) -> Result<Vec<(u32, Row)>, NoMemory>
    ensures { IfOk result (λ rows. rows.items ≡ map pair_of instance) }
{
    let mut rows = Vec::with_capacity(alloc, instance.len())?;
    for fact in instance.into_vec() {
        rows.push((fact.rel, fact.row))?;
    }
    Ok(rows)
}

/// A labelled fact for each relation with a row, in order.
fn grounds(alloc: Global, rows: Vec<(u32, Row)>) -> Result<Vec<Ground>, NoMemory>
    ensures { IfOk result (λ facts. facts.items ≡ map ground_pair rows.items) }
{
    let mut facts = Vec::with_capacity(alloc, rows.len())?;
    for (rel, row) in rows {
        facts.push(Ground {
            rel,
            vals: constants(alloc, row)?,
        })?;
    }
    Ok(facts)
}

/// Each text as a constant.
fn constants(alloc: Global, row: Row) -> Result<Vals, NoMemory>
    ensures { IfOk result (λ vals. vals ≡ map Const row) }
{
    let mut vals = Vec::with_capacity(alloc, row.len())?;
    for text in row.into_vec() {
        vals.push(Val::Const(text))?;
    }
    Ok(Seq::from_vec(vals))
}
