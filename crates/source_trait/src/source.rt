// A source of rows, asked by requests.
ghost use Rattle.std.specs.Prelude.{◌≡◌, ◌≤◌, option_copied, length};
ghost use Rattle.source_trait.specs.Asking.{Seen, AttachGives, CallGives, CanAsk};

use crate::request_log::RequestLog;
use lists::{Places, Row, Text, Texts};
use row_text::PackedRows;
use std::alloc::Global;

/// Why a relation is not attached. A column counts from 0, and a number of a row from 1.
#[derive(Clone, Copy, Debug, PartialEq, Eq)]
pub enum AttachFault {
    Missing,
    Failed,
    BadHeader { column: u32 },
    BadRow { number: u32 },
    NotUtf8 { number: u32 },
    TooLarge,
    NoMemory,
}

/// Why a request has no answer.
#[derive(Clone, Copy, Debug, PartialEq, Eq)]
pub enum CallFault {
    Failed,
    NoMemory,
}

/// A source of rows, to which relations are attached and which is then asked by requests.
pub trait Source {
    /// What it holds, offers, was asked and has attached, how often it failed, and whether it never does.
    ghost seen: { Self → Seen };

    /// Takes the rows that lie at the locator as those of the relation; after a refusal the relation is not attached.
    fn attach(
        &mut self,
        alloc: Global,
        rel: u32,
        columns: &Texts,
        locator: &Text,
    ) -> Result<(), AttachFault>
        requires some { 1 ≤ length columns.now }
        requires few { length columns.now ≤ 64 }
        ensures { AttachGives (seen self.old) (seen self.new) rel columns.now locator.now result };

    /// The rows of an attached relation that have the values at the positions.
    fn call(
        &mut self,
        alloc: Global,
        rel: u32,
        positions: &Places,
        values: &Row,
    ) -> Result<PackedRows, CallFault>
        requires { CanAsk ((seen self.old).attached rel) positions.now values.now }
        ensures { CallGives (seen self.old) (seen self.new) rel positions.now values.now result };

    /// The requests so far, where it tells them. Takes no memory.
    fn told(&self) -> Option<&RequestLog>
        ensures { option_copied result ≡ (seen self.now).asked };
}
