// Why a command stops.
ghost use Rattle.std.specs.Prelude.{◌≡◌};
ghost use Rattle.command_io.specs.Status.{status_of, file_status as status_of_file, attach_status as status_of_attach, run_status as status_of_run};

use crate::exit_status::Status;
use lists::Bytes;
use middleware::RunFault;
use plan_form::{PlanFault, PlanReadFault};
use source_trait::{AttachFault, FileFault};
use sql_select::SqlFault;
use tgd_reader::ReadFault;

/// A text file that the words name.
#[derive(Clone, Copy, Debug, PartialEq, Eq)]
pub enum Input {
    Schema,
    Query,
    Plan,
}

/// Why a command stops, in the order in which it is looked for. Relations, queries, branches, steps and rounds count from 0.
#[derive(Drop)]
pub enum Stop {
    /// Memory was refused, anywhere.
    Memory,
    /// The words are no command.
    Words,
    /// A text file is missing, too large or failed.
    File { input: Input, fault: FileFault },
    /// The schema's text is no schema.
    Schema(ReadFault),
    /// The query's text is no statement over the schema.
    Query(SqlFault),
    /// The plan's text is no plan.
    Plan(PlanReadFault),
    /// The decision could not be written to standard error.
    DecisionWrite,
    /// The plan that was read is not lawful.
    Illegal(PlanFault),
    /// A source, or a round of requests, stopped the execution.
    Run(RunFault),
    /// A request of a round of a crawl failed.
    RoundFailed { round: u32 },
    /// A request of a query of a batch failed.
    QueryCall { query: u32, branch: u32, step: u32 },
    /// A request for a whole relation failed.
    WholeFailed { rel: u32 },
    /// A rule is not met, as this line says.
    NotMet { line: Bytes },
    /// The result could not be written to standard output.
    ResultWrite,
}

/// The status that a stop ends the program with.
pub fn status(stop: &Stop) -> Status
    ensures { result ≡ status_of stop.now }
{
    match stop {
        Stop::Memory => Status::Memory,
        Stop::Words => Status::Words,
        Stop::File { input: _, fault } => file_status(*fault),
        Stop::Schema(_) => Status::Text,
        Stop::Query(_) => Status::Text,
        Stop::Plan(_) => Status::Text,
        Stop::DecisionWrite => Status::Write,
        Stop::Illegal(_) => Status::Text,
        Stop::Run(fault) => run_status(*fault),
        Stop::RoundFailed { round: _ } => Status::Fault,
        Stop::QueryCall {
            query: _,
            branch: _,
            step: _,
        } => Status::Fault,
        Stop::WholeFailed { rel: _ } => Status::Fault,
        Stop::NotMet { line: _ } => Status::No,
        Stop::ResultWrite => Status::Write,
    }
}

fn file_status(fault: FileFault) -> Status
    ensures { result ≡ status_of_file fault }
{
    match fault {
        FileFault::Missing => Status::Fault,
        FileFault::TooLarge => Status::Text,
        FileFault::Failed => Status::Fault,
        FileFault::NoMemory => Status::Memory,
    }
}

fn attach_status(fault: AttachFault) -> Status
    ensures { result ≡ status_of_attach fault }
{
    match fault {
        AttachFault::Missing => Status::Fault,
        AttachFault::Failed => Status::Fault,
        AttachFault::BadHeader { column: _ } => Status::Text,
        AttachFault::BadRow { number: _ } => Status::Text,
        AttachFault::NotUtf8 { number: _ } => Status::Text,
        AttachFault::TooLarge => Status::Text,
        AttachFault::NoMemory => Status::Memory,
    }
}

fn run_status(fault: RunFault) -> Status
    ensures { result ≡ status_of_run fault }
{
    match fault {
        RunFault::NoMemory => Status::Memory,
        RunFault::NoSource { rel: _ } => Status::Text,
        RunFault::UnknownKind { rel: _ } => Status::Text,
        RunFault::Attach { rel: _, fault } => attach_status(fault),
        RunFault::CallFailed { branch: _, step: _ } => Status::Fault,
        RunFault::OverCalls {
            made: _,
            wanted: _,
            cap: _,
        } => Status::Cap,
        RunFault::BadNumber { rel: _, column: _ } => Status::Text,
    }
}
