// Why plans that are executed together stop.
use middleware::RunFault;

/// Why an execution of several plans stops, and the number of the plan that it concerns, counted from 0: the one whose call failed,
/// the first one whose step received a bad number, the first one that accesses the relation or has the first request behind the cap,
/// and 0 where there is no memory.
#[derive(Clone, Copy, Debug, PartialEq, Eq)]
pub struct BatchFault {
    pub plan: u32,
    pub fault: RunFault,
}
