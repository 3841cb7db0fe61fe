// How far a branch is known to cost the least.

/// What is known of the cost of a branch beside those of its rivals: none costs less, or the search for a cheaper one ended first.
/// It ended where all its units were spent, or all the firings of a proof.
#[derive(Clone, Copy, Debug, PartialEq, Eq)]
pub enum Least {
    Shown,
    SearchSpent { units: u32 },
    FiringsSpent { firings: u32 },
}
