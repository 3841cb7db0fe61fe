// The branch of exposures.
ghost use Rattle.std.specs.Prelude.{◌≡◌, ◌≤◌, ◌+◌, ◌^◌, length, map, IfOk, OnOk};
ghost use Rattle.meaning.specs.Extract.{places_of, columns_after, steps_of, all_columns, out_of as place_of, branch_of};
ghost use Rattle.plan_extract.specs.Lent.{exposures_of, values_in};

use crate::columns::Columns;
use crate::exposures::Exposure;
use lists::{Copies, NoMemory, Seq};
use meaning::types::{Branch, Out, Place, Step, Val};
use std::alloc::Global;

/// The branch that asks for the exposed facts in order and gives the head.
///
/// A step has the method of its exposure, and a place for each value of the fact: a constant is itself, a label that an earlier
/// place has is that column, and another label makes a new column. The output has a place for each value of the head.
pub fn read_off(alloc: Global, exposures: &[Exposure<'_>], head: &[Val]) -> Result<Branch, NoMemory>
    requires { values_in (exposures_of exposures.now) ≤ 2 ^ 32 }
    ensures { IfOk result (λ branch. branch ≡ branch_of (exposures_of exposures.now) head.now) }
{
    let mut columns = Columns::new(alloc);
    let steps = steps(alloc, &mut columns, exposures)?;
    let output = outs(alloc, &columns, head)?;
    Ok(Branch { steps, output })
}

// One step for each exposure, behind the columns that are there.
fn steps(
    alloc: Global,
    columns: &mut Columns,
    exposures: &[Exposure<'_>],
) -> Result<Seq<Step>, NoMemory>
    requires { length columns.old + values_in (exposures_of exposures.now) ≤ 2 ^ 32 }
    ensures steps { IfOk result (λ steps. steps ≡ steps_of columns.old (exposures_of exposures.now)) }
    ensures columns { OnOk result (columns.new ≡ all_columns columns.old (exposures_of exposures.now)) }
    ensures few { OnOk result (length columns.new ≤ 2 ^ 32) }
{
    let mut steps = Seq::new(alloc);
    for exposure in exposures {
        let method = exposure.method.name.copy(alloc)?;
        let places = places(alloc, columns, exposure.fact.vals.as_slice())?;
        steps.push(Step { method, places })?;
    }
    Ok(steps)
}

// The places of a fact's values.
fn places(alloc: Global, columns: &mut Columns, vals: &[Val]) -> Result<Seq<Place>, NoMemory>
    requires { length columns.old + length vals.now ≤ 2 ^ 32 }
    ensures places { IfOk result (λ places. places ≡ places_of columns.old vals.now) }
    ensures columns { OnOk result (columns.new ≡ columns_after columns.old vals.now) }
{
    let mut places = Seq::new(alloc);
    for value in vals {
        let place = match value {
            Val::Const(text) => Place::Const(text.copy(alloc)?),
            Val::Label(label) => columns.place(*label)?,
        };
        places.push(place)?;
    }
    Ok(places)
}

// The places of the head's values.
fn outs(alloc: Global, columns: &Columns, head: &[Val]) -> Result<Seq<Out>, NoMemory>
    requires { length columns.now ≤ 2 ^ 32 }
    ensures { IfOk result (λ outs. outs ≡ map (place_of columns.now) head.now) }
{
    let mut outs = Vec::with_capacity(alloc, head.len())?;
    for value in head {
        outs.push(out(alloc, columns, value)?)?;
    }
    Ok(Seq::from_vec(outs))
}

fn out(alloc: Global, columns: &Columns, value: &Val) -> Result<Out, NoMemory>
    requires { length columns.now ≤ 2 ^ 32 }
    ensures { IfOk result (λ out. out ≡ place_of columns.now value.now) }
{
    match value {
        Val::Const(text) => Ok(Out::Const(text.copy(alloc)?)),
        Val::Label(label) => Ok(columns.out(*label)),
    }
}
