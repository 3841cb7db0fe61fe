// Why a schema text is not read.
ghost use Rattle.std.specs.Prelude.{◌≡◌};
ghost use Rattle.tgd_reader.specs.declared.fault.PartsFault.TheVariants.{NoMemory};

use access_schema::SchemaFault;
use std::alloc::{AllocError, AllocFailed};

/// Why a text has no parts. A line counts from 1.
#[derive(Clone, Copy, Debug, PartialEq, Eq)]
pub enum PartsFault {
    NoMemory,
    Line { line: u32 },
}

impl From<AllocError> for PartsFault {
    ghost from_gives = { λ _ e. e ≡ NoMemory };

    fn from(_: AllocError) -> Self {
        PartsFault::NoMemory
    }
}

impl<T: Drop> From<AllocFailed<T>> for PartsFault {
    ghost from_gives = { λ _ e. e ≡ NoMemory };

    fn from(_: AllocFailed<T>) -> Self {
        PartsFault::NoMemory
    }
}

/// Why bytes are not the text of a schema. An offset counts bytes from 0, and a line counts from 1.
///
/// The faults are looked for in this order, so `Line` comes of text alone, and `Schema` where every line is a declaration.
#[derive(Clone, Copy, Debug, PartialEq, Eq)]
pub enum ReadFault {
    NoMemory,
    NotUtf8 { offset: u32 },
    Line { line: u32 },
    Schema { line: u32, fault: SchemaFault },
}

impl From<AllocError> for ReadFault {
    ghost use Rattle.tgd_reader.specs.declared.fault.ReadFault.TheVariants as read;

    ghost from_gives = { λ _ e. e ≡ read.NoMemory };

    fn from(_: AllocError) -> Self {
        ReadFault::NoMemory
    }
}

impl From<PartsFault> for ReadFault {
    ghost use Rattle.tgd_reader.specs.SchemaText.{read_fault};

    ghost from_gives = { λ fault e. e ≡ read_fault fault };

    fn from(fault: PartsFault) -> Self {
        match fault {
            PartsFault::NoMemory => ReadFault::NoMemory,
            PartsFault::Line { line } => ReadFault::Line { line },
        }
    }
}
