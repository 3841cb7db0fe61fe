// How a command came out that nothing stopped.

/// How a command came out that nothing stopped: its work is done; or the answer is no; or the budget of firings was spent first.
#[derive(Clone, Copy, Debug, PartialEq, Eq)]
pub enum Outcome {
    /// The command did its work, and what it decides or tests holds.
    Done,
    /// There is no plan, or what was tested does not hold.
    No,
    /// The budget of firings was spent before anything was decided.
    Undecided,
}
