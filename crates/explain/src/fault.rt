// Why a text is no refutation.
ghost use Rattle.std.specs.Prelude.{◌≡◌};
ghost use Rattle.explain.specs.declared.fault.WitnessReadFault.TheVariants.{NoMemory};

use std::alloc::{AllocError, AllocFailed};

/// Why bytes are no refutation text. An offset counts bytes from 0, and a line counts from 1.
#[derive(Clone, Copy, Debug, PartialEq, Eq)]
pub enum WitnessReadFault {
    NoMemory,
    NotUtf8 { offset: u32 },
    Line { line: u32 },
}

impl From<AllocError> for WitnessReadFault {
    ghost from_gives = { λ _ e. e ≡ NoMemory };

    fn from(_: AllocError) -> Self {
        WitnessReadFault::NoMemory
    }
}

impl<T: Drop> From<AllocFailed<T>> for WitnessReadFault {
    ghost from_gives = { λ _ e. e ≡ NoMemory };

    fn from(_: AllocFailed<T>) -> Self {
        WitnessReadFault::NoMemory
    }
}
