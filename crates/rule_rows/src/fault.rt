// Why rules are not tested, or a plan is not executed after them.
use data_verify::Broken;
use middleware::RunFault;

/// Why not all relations were asked whole, or the rules were not tested on what came.
#[derive(Clone, Copy, Debug, PartialEq, Eq)]
pub enum WholeFault {
    NoMemory,
    /// The request for the whole relation failed.
    CallFailed { rel: u32 },
    /// A row of the relation has another value than an integer at this integer column.
    BadNumber { rel: u32, column: u32 },
}

/// Why the rules were not tested.
#[derive(Clone, Copy, Debug, PartialEq, Eq)]
pub enum VerifyFault {
    /// A relation was not attached.
    NotAttached(RunFault),
    /// All were attached, and one was not asked whole.
    NotAsked(WholeFault),
}

/// Why a plan was not executed, or not to its end, where the rules are tested first.
#[derive(Drop)]
pub enum VerifiedFault {
    /// The rules were not tested.
    NotVerified(VerifyFault),
    /// A rule is not met.
    NotMet(Broken),
    /// The rules are met, and the execution stopped.
    NotExecuted(RunFault),
}
