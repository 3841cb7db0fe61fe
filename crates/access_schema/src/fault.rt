// Why parts make no schema.

use std::alloc::AllocError;

/// What has a limit, in the order in which limits are looked at.
#[derive(Clone, Copy, Debug, PartialEq, Eq)]
pub enum Limit {
    Relations,
    Methods,
    Rules,
    Columns,
    BodyAtoms,
    HeadAtoms,
    Variables,
    Cost,
    Constants,
    Froms,
    Conditions,
    Items,
    Statements,
    Selects,
}

/// What is wrong with a part, in the order in which faults are looked for.
#[derive(Clone, Copy, Debug, PartialEq, Eq)]
pub enum SchemaFault {
    DuplicateName,
    UnknownRelation,
    WrongArity,
    UnknownColumn,
    OverLimit(Limit),
    Recursive,
    WrongSort,
}

/// Why no schema is built: want of memory, or the first faulty part with its least fault.
#[derive(Clone, Copy, Debug, PartialEq, Eq)]
pub enum BuildFault {
    NoMemory,
    At { index: u32, fault: SchemaFault },
}

impl From<AllocError> for BuildFault {
    ghost use Rattle.std.specs.Prelude.{◌≡◌};
    ghost use Rattle.access_schema.specs.declared.fault.BuildFault.TheVariants as fault;

    ghost from_gives = { λ _ e. e ≡ fault.NoMemory };

    fn from(_: AllocError) -> Self {
        BuildFault::NoMemory
    }
}
