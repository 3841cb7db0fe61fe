// Why a text is no query.
ghost use Rattle.std.specs.Prelude.{◌≡◌};
ghost use Rattle.sql_select.specs.declared.fault.SqlFault.TheVariants.{NoMemory};

use access_schema::Limit;
use lists::Text;
use pq_text::LexFault;
use std::alloc::{AllocError, AllocFailed};

/// Why a text is no query over a schema, in the order in which faults are looked for. An offset counts bytes from 0.
///
/// `Lex` never holds `NoMemory`. `Unsupported` carries the token as it is written. `WrongWidth` is at the word `select` of
/// the first select that has another number of items than the first one, and `WrongSort` at the first condition that
/// compares columns of two sorts, or an integer column with the literal of no integer.
#[derive(Debug, Drop)]
pub enum SqlFault {
    NoMemory,
    NotUtf8 { offset: u32 },
    Syntax { offset: u32 },
    Unsupported { word: Text, offset: u32 },
    UnknownName { offset: u32 },
    Ambiguous { offset: u32 },
    WrongWidth { offset: u32 },
    OverLimit(Limit),
    Lex(LexFault),
    WrongSort { offset: u32 },
}

impl From<AllocError> for SqlFault {
    ghost from_gives = { λ _ e. e ≡ NoMemory };

    fn from(_: AllocError) -> Self {
        SqlFault::NoMemory
    }
}

impl<T: Drop> From<AllocFailed<T>> for SqlFault {
    ghost from_gives = { λ _ e. e ≡ NoMemory };

    fn from(_: AllocFailed<T>) -> Self {
        SqlFault::NoMemory
    }
}
