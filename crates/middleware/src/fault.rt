// What an execution gives, and why it stops.
use row_text::PackedRows;
use source_trait::AttachFault;

/// The rows of a plan, ascending and each once, and how many requests were made for them.
#[derive(Drop)]
pub struct Run {
    pub rows: PackedRows,
    pub made: u32,
}

/// Why an execution stops. Relations, branches and steps count from 0.
#[derive(Clone, Copy, Debug, PartialEq, Eq)]
pub enum RunFault {
    NoMemory,
    /// The relation has no source line.
    NoSource { rel: u32 },
    /// Some lane has no source of the kind of the relation's source line, or there is no lane.
    UnknownKind { rel: u32 },
    /// The relation was not attached.
    Attach { rel: u32, fault: AttachFault },
    /// A call of the step's round failed.
    CallFailed { branch: u32, step: u32 },
    /// So many requests were made, and the next round wants so many more, which together pass the cap.
    OverCalls { made: u32, wanted: u32, cap: u32 },
    /// A row that a round received has another value than an integer at this integer column of the relation.
    BadNumber { rel: u32, column: u32 },
}
