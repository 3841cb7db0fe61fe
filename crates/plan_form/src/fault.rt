// Why a plan is not lawful, and why a text is no plan.
ghost use Rattle.std.specs.Prelude.{◌≡◌};
ghost use Rattle.plan_form.specs.declared.fault.PlanReadFault.TheVariants.{NoMemory};

use std::alloc::{AllocError, AllocFailed};

/// What is wrong with a plan.
#[derive(Clone, Copy, Debug, PartialEq, Eq)]
pub enum PlanFaultKind {
    /// The schema has no method of the step's name.
    NoSuchMethod,
    /// An input is new, or a column that was made in the same step.
    InputNotKnown,
    /// A constant is none of the known ones.
    UnknownConstant,
    /// A column does not exist there.
    BadColumn,
    /// A step has not a place for each column of its relation, or an output is not as wide as the plan.
    WrongArity,
    /// The plan is not as wide as what it is to answer.
    WrongWidth,
}

/// Where a plan is not lawful, and why. All numbers count from 0; the output of a branch is the step behind its last one.
#[derive(Clone, Copy, Debug, PartialEq, Eq)]
pub struct PlanFault {
    pub branch: u32,
    pub step: u32,
    pub place: u32,
    pub kind: PlanFaultKind,
}

/// Why bytes are no plan text. An offset counts bytes from 0, and a line counts from 1.
#[derive(Clone, Copy, Debug, PartialEq, Eq)]
pub enum PlanReadFault {
    NoMemory,
    NotUtf8 { offset: u32 },
    Line { line: u32 },
}

impl From<AllocError> for PlanReadFault {
    ghost from_gives = { λ _ e. e ≡ NoMemory };

    fn from(_: AllocError) -> Self {
        PlanReadFault::NoMemory
    }
}

impl<T: Drop> From<AllocFailed<T>> for PlanReadFault {
    ghost from_gives = { λ _ e. e ≡ NoMemory };

    fn from(_: AllocFailed<T>) -> Self {
        PlanReadFault::NoMemory
    }
}
