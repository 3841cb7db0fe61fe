// Equality of facts, terms and requests that is identity.
use crate::types::{Fact, Ground, Request, Term, Val};
use lists::Exact;

impl Exact for Term {
    fn same(&self, other: &Term) -> bool {
        match (self, other) {
            (Term::Var(left), Term::Var(right)) => *left == *right,
            (Term::Const(left), Term::Const(right)) => left.same(right),
            _ => false,
        }
    }
}

impl Exact for Fact {
    fn same(&self, other: &Fact) -> bool {
        self.rel == other.rel && self.row.same(&other.row)
    }
}

impl Exact for Request {
    fn same(&self, other: &Request) -> bool {
        self.rel == other.rel
            && self.positions.same(&other.positions)
            && self.values.same(&other.values)
    }
}

impl Exact for Val {
    fn same(&self, other: &Val) -> bool {
        match (self, other) {
            (Val::Const(left), Val::Const(right)) => left.same(right),
            (Val::Label(left), Val::Label(right)) => *left == *right,
            _ => false,
        }
    }
}

impl Exact for Ground {
    fn same(&self, other: &Ground) -> bool {
        self.rel == other.rel && self.vals.same(&other.vals)
    }
}
