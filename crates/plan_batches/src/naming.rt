// Which plan a fault of a round concerns.
ghost use Rattle.std.specs.Prelude.{◌≡◌, ◌<◌, ◌^◌, Contains, length};
ghost use Rattle.middleware.specs.declared.fault.RunFault.TheVariants as fault;
ghost use Rattle.plan_batches.specs.Naming.{CanName, CanNameHalt, FailsFirst, IsFirstGoing, NamesHalt, WantsNumber};
ghost use Rattle.plan_batches.specs.declared.member.Going.{Going};

use crate::fault::BatchFault;
use crate::member::Going;
use crate::received::FirstBad;
use crate::round::{Noted, NotedFault};
use middleware::{AskFault, RunFault};
use plan_course::Next;
use request_rounds::Halt;

/// Why the plans stop where their rounds do.
pub fn fault_of(halt: &Halt<Noted, NotedFault>, cap: u32) -> BatchFault
    requires { CanNameHalt halt.now }
    ensures { NamesHalt cap halt.now result }
{
    match halt {
        Halt::NoMemory => no_memory(),
        Halt::Refused { what, why } => match why {
            NotedFault::NotAsked(why) => match why {
                AskFault::NoMemory => no_memory(),
                AskFault::CallFailed { request } => {
                    call_failed(what.goings.as_slice(), what.made + *request as usize)
                }
            },
            NotedFault::BadNumber(bad) => bad_number(bad),
        },
        Halt::Over { what, made, wanted } => {
            over_calls(what.goings.as_slice(), *made, *wanted, cap)
        }
    }
}

/// Where there is no memory.
pub fn no_memory() -> BatchFault
    ensures { result ≡ record { plan = 0; fault = fault.NoMemory } }
{
    BatchFault {
        plan: 0,
        fault: RunFault::NoMemory,
    }
}

// Where the call of the request of a number failed.
fn call_failed(goings: &[Going], number: usize) -> BatchFault
    requires wanted { WantsNumber goings.now number }
    requires few { length goings.now < 2 ^ 32 }
    requires names { (going : Going) → Contains goings.now going → CanName going }
    ensures { FailsFirst goings.now number result }
{
    let plan = first_with(goings, number);
    match &goings[plan].next {
        Next::Wants(pending) => BatchFault {
            plan: plan as u32,
            fault: RunFault::CallFailed {
                branch: pending.branch as u32,
                step: pending.step as u32,
            },
        },
        Next::Done(_) => unreachable!(),
    }
}

// Where a step received a bad number.
fn bad_number(bad: &FirstBad) -> BatchFault
    ensures { result ≡ record { plan = bad.now.plan; fault = fault.BadNumber bad.now.rel bad.now.column } }
{
    BatchFault {
        plan: bad.plan,
        fault: RunFault::BadNumber {
            rel: bad.rel,
            column: bad.column,
        },
    }
}

// Where a round would pass the cap, before which so many requests were made, and which wants so many more.
fn over_calls(goings: &[Going], made: u32, wanted: u32, cap: u32) -> BatchFault
    requires wanted { WantsNumber goings.now made }
    requires few { length goings.now < 2 ^ 32 }
    ensures plan { IsFirstGoing goings.now result.plan made }
    ensures fault { result.fault ≡ fault.OverCalls made wanted cap }
{
    BatchFault {
        plan: first_with(goings, made as usize) as u32,
        fault: RunFault::OverCalls { made, wanted, cap },
    }
}

// The number of the first plan that wants the request of a number.
fn first_with(goings: &[Going], number: usize) -> usize
    requires { WantsNumber goings.now number }
    ensures { IsFirstGoing goings.now result number }
{
    let mut plan: usize = 0;
    for going in goings {
        if going.numbers.as_slice().contains(&number) {
            return plan;
        }
        plan += 1;
    }
    unreachable!()
}
