// Whether a plan is lawful, and otherwise its first fault.
ghost use Rattle.std.specs.Prelude.{◌≡◌, ◌≤◌, ◌<◌, ◌+◌, ◌^◌, ◌↔◌, ℕ, IsOk, IfOk, IfErr, length, option_copied};
ghost use Rattle.access_schema.specs.Meaning.{meaning_of};
ghost use Rattle.meaning.specs.Plans.{IsLawful};
ghost use Rattle.plan_form.specs.Fitting.{HasFewSteps};
ghost use Rattle.plan_form.specs.Faults.{IsFirstFault};
ghost use Rattle.plan_form.specs.Judging.{is_input_at, place_fault, count_place, judged_places, method_of, judged_step, out_fault, judged_outs, judged_output, judged_steps, judged_branches};

use crate::fault::{PlanFault, PlanFaultKind};
use crate::known::Known;
use access_schema::Schema;
use lists::Text;
use meaning::types::{Branch, Method, Out, Place, Plan, Step};

/// Whether a plan is lawful over the schema and the known constants, and otherwise its first fault.
///
/// Takes no memory. Each constant of the plan is looked for among the known ones, by bisection where these ascend, and each
/// step's name among the methods.
pub fn lawful(plan: &Plan, schema: &Schema, known: &[Text]) -> Result<(), PlanFault>
    requires few { HasFewSteps plan.now }
    ensures exact { IsOk result ↔ IsLawful plan.now (meaning_of schema.now) known.now }
    ensures first { IfErr result (λ fault. IsFirstFault plan.now (meaning_of schema.now) known.now fault) }
{
    judge_plan(plan, schema, &Known::new(known))
}

fn judge_plan(plan: &Plan, schema: &Schema, known: &Known<'_>) -> Result<(), PlanFault>
    requires few { HasFewSteps plan.now }
    ensures { result ≡ judged_branches (meaning_of schema.now) known.now plan.now.width 0 plan.now.branches }
{
    let mut number: u32 = 0;
    let mut left = plan.branches.as_slice();
    while let [branch, rest @ ..] = left {
        judge_branch(schema, known, plan.width, number, branch)?;
        number += 1;
        left = rest;
    }
    Ok(())
}

// The first fault of the branch with this number.
fn judge_branch(
    schema: &Schema,
    known: &Known<'_>,
    width: u32,
    number: u32,
    branch: &Branch,
) -> Result<(), PlanFault>
    requires few { length branch.now.steps ≤ 1048576 }
    ensures { result ≡ judged_steps (meaning_of schema.now) known.now width number 0 0 branch.now.steps branch.now.output }
{
    let mut step_number: u32 = 0;
    let mut columns: usize = 0;
    let mut left = branch.steps.as_slice();
    while let [step, rest @ ..] = left {
        match judge_step(schema, known, columns, step) {
            Ok(after) => columns = after,
            Err(spot) => return Err(spot.at(number, step_number)),
        }
        step_number += 1;
        left = rest;
    }
    match judge_output(known, width, columns, branch.output.as_slice()) {
        Ok(()) => Ok(()),
        Err(spot) => Err(spot.at(number, step_number)),
    }
}

/// What is wrong with a step or an output, and at which of its places.
#[derive(Clone, Copy, Debug, PartialEq, Eq)]
pub struct Spot {
    pub place: u32,
    pub kind: PlanFaultKind,
}

impl Spot {
    ghost use Rattle.std.specs.Prelude.{◌≡◌};
    ghost use Rattle.plan_form.specs.Judging.{fault_at};

    // The fault at a step of a branch.
    fn at(self, branch: u32, step: u32) -> PlanFault
        ensures { result ≡ fault_at branch step self }
    {
        PlanFault {
            branch,
            step,
            place: self.place,
            kind: self.kind,
        }
    }
}

// The columns behind a step, or its first fault.
fn judge_step(
    schema: &Schema,
    known: &Known<'_>,
    columns: usize,
    step: &Step,
) -> Result<usize, Spot>
    requires few { columns < 2 ^ 32 }
    ensures judged { result ≡ judged_step (meaning_of schema.now) known.now columns step.now }
    ensures bound { IfOk result (λ after. after ≤ columns + 64) }
{
    let Some(method) = find(schema.methods.as_slice(), &step.method) else {
        return Err(Spot {
            place: 0,
            kind: PlanFaultKind::NoSuchMethod,
        });
    };
    let Some(relation) = schema.relations.get(method.rel as usize) else {
        return Err(Spot {
            place: 0,
            kind: PlanFaultKind::WrongArity,
        });
    };
    if step.places.len() != relation.columns.len() {
        return Err(Spot {
            place: 0,
            kind: PlanFaultKind::WrongArity,
        });
    }
    judge_places(
        known,
        method.inputs.as_slice(),
        columns,
        step.places.as_slice(),
    )
}

// The method of that name.
fn find<'a>(methods: &'a [Method], name: &Text) -> Option<&'a Method>
    ensures { option_copied result ≡ method_of methods.now name.now }
{
    let mut left = methods;
    while let [method, rest @ ..] = left {
        if method.name == *name {
            return Some(method);
        }
        left = rest;
    }
    None
}

// The columns behind the places, or the first place that is at fault.
fn judge_places(
    known: &Known<'_>,
    inputs: &[u32],
    began: usize,
    places: &[Place],
) -> Result<usize, Spot>
    requires few { length places.now ≤ 64 }
    requires columns { began < 2 ^ 32 }
    ensures judged { result ≡ judged_places known.now inputs.now began 0 began places.now }
    ensures bound { IfOk result (λ columns. columns ≤ began + length places.now) }
{
    let mut position: u32 = 0;
    let mut columns = began;
    let mut left = places;
    while let [place, rest @ ..] = left {
        if let Some(kind) = fault_of(known, inputs, began, position, columns, place) {
            return Err(Spot {
                place: position,
                kind,
            });
        }
        columns = counted(columns, place);
        position += 1;
        left = rest;
    }
    Ok(columns)
}

// What is wrong with a place at this position of a step that began with `began` columns, where there are `columns` by now.
fn fault_of(
    known: &Known<'_>,
    inputs: &[u32],
    began: usize,
    position: u32,
    columns: usize,
    place: &Place,
) -> Option<PlanFaultKind>
    ensures { result ≡ place_fault known.now inputs.now began position columns place.now }
{
    match place {
        Place::Const(text) => {
            if known.has(text) {
                None
            } else {
                Some(PlanFaultKind::UnknownConstant)
            }
        }
        Place::Col(column) => {
            if *column as usize >= columns {
                Some(PlanFaultKind::BadColumn)
            } else if is_input(inputs, position) && *column as usize >= began {
                Some(PlanFaultKind::InputNotKnown)
            } else {
                None
            }
        }
        Place::New => {
            if is_input(inputs, position) {
                Some(PlanFaultKind::InputNotKnown)
            } else {
                None
            }
        }
    }
}

fn counted(columns: usize, place: &Place) -> usize
    requires { columns < 2 ^ 40 }
    ensures { result ≡ count_place columns place.now }
{
    match place {
        Place::New => columns + 1,
        Place::Const(_) => columns,
        Place::Col(_) => columns,
    }
}

fn is_input(inputs: &[u32], position: u32) -> bool
    ensures { result ≡ is_input_at inputs.now position }
{
    let mut left = inputs;
    while let [first, rest @ ..] = left {
        if *first == position {
            return true;
        }
        left = rest;
    }
    false
}

// What is wrong with an output, where there are so many columns.
fn judge_output(known: &Known<'_>, width: u32, columns: usize, output: &[Out]) -> Result<(), Spot>
    ensures { result ≡ judged_output known.now width columns output.now }
{
    if output.len() != width as usize {
        return Err(Spot {
            place: 0,
            kind: PlanFaultKind::WrongArity,
        });
    }
    judge_outs(known, columns, output)
}

fn judge_outs(known: &Known<'_>, columns: usize, outs: &[Out]) -> Result<(), Spot>
    requires few { length outs.now < 2 ^ 32 }
    ensures { result ≡ judged_outs known.now columns 0 outs.now }
{
    let mut position: u32 = 0;
    let mut left = outs;
    while let [member, rest @ ..] = left {
        if let Some(kind) = out_fault_of(known, columns, member) {
            return Err(Spot {
                place: position,
                kind,
            });
        }
        position += 1;
        left = rest;
    }
    Ok(())
}

fn out_fault_of(known: &Known<'_>, columns: usize, member: &Out) -> Option<PlanFaultKind>
    ensures { result ≡ out_fault known.now columns member.now }
{
    match member {
        Out::Const(text) => {
            if known.has(text) {
                None
            } else {
                Some(PlanFaultKind::UnknownConstant)
            }
        }
        Out::Col(column) => {
            if (*column as usize) < columns {
                None
            } else {
                Some(PlanFaultKind::BadColumn)
            }
        }
    }
}
