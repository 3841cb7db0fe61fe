// What is decided of a statement.

use crate::least::Least;
use crate::refutation::Witness;
use lists::Seq;
use meaning::types::{Firings, Plan};

/// What is said of each select of a statement, in order.
pub type ChosenList = Seq<Chosen>;

/// What is said of a select that has a plan: its conditions make two different literals equal, so that it never has a row; or the plan's
/// next branch is its own, with the cost of that branch and whether others cost less.
#[derive(Clone, Copy, Debug, PartialEq, Eq, Drop)]
pub enum Chosen {
    NoRow,
    Branch { cost: u64, least: Least },
}

/// What is decided of a statement: a plan for it, with what is said of each select; two instances that refute every plan; or nothing,
/// where the firings of the proof of the select with this number are spent, with the log of these.
#[derive(Drop)]
pub enum Decision {
    Plan { plan: Plan, selects: ChosenList },
    NoPlan(Witness),
    Undecided { select: u32, log: Firings },
}
