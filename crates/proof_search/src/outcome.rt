// What searches come to.
use findings::{Least, Witness};
use lists::Seq;
use meaning::types::{Branch, Firings};

/// Choices in order.
pub type Choices = Seq<Choice>;

/// The branch that is chosen for a query, and what is known of its cost.
#[derive(Drop)]
pub struct Choice {
    pub branch: Branch,
    pub least: Least,
}

/// The branch that is found first for a query; and the number of base facts of the proof over all rules, where it is read off that.
#[derive(Drop)]
pub struct First {
    pub branch: Branch,
    pub facts: Option<usize>,
}

/// First branches in order.
pub type Firsts = Seq<First>;

/// What the proof of a query comes to: its first branch; a pair that refutes every plan; or the log, where the firings are spent.
#[derive(Drop)]
pub enum QueryOutcome {
    Branch(First),
    Stuck(Witness),
    Spent(Firings),
}

/// What the proofs of several queries come to: a branch for each; the pair of the first that is stuck; or the number and the log of the
/// first whose firings are spent.
#[derive(Drop)]
pub enum Outcome {
    Branches(Firsts),
    Stuck(Witness),
    Spent(u32, Firings),
}
