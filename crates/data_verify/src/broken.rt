// A rule that is not met, with the facts that show it.
use lists::Seq;
use meaning::types::Fact;

pub type Facts = Seq<Fact>;

/// A rule, by number, with facts of its body, atom by atom, that have no facts of its head.
#[derive(Drop)]
pub struct Broken {
    pub rule: u32,
    pub rows: Facts,
}
