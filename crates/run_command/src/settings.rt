// How far a statement is taken.

/// How many firings the proof of each select may take, how many units the search for a cheaper branch, and how many requests the plan, or
/// the plans that are executed together.
#[derive(Clone, Copy, Debug, PartialEq, Eq)]
pub struct Limits {
    pub firings: u32,
    pub search: u32,
    pub calls: u32,
}

/// The limits of a run, and whether the rules are tested before the first request of its plan.
#[derive(Clone, Copy, Debug, PartialEq, Eq)]
pub struct Settings {
    pub limits: Limits,
    pub verify: bool,
}
