// Copies of facts, terms, plans and firings.
use crate::types::{
    Atom, Branch, Fact, Firing, Ground, Operand, Out, Place, Request, Sort, Step, Term, Trigger,
    Val,
};
use lists::Copies;
use std::alloc::{AllocError, Global};

impl Copies for Term {
    fn copy(&self, alloc: Global) -> Result<Term, AllocError> {
        match self {
            Term::Var(number) => Ok(Term::Var(*number)),
            Term::Const(text) => Ok(Term::Const(text.copy(alloc)?)),
        }
    }
}

impl Copies for Atom {
    fn copy(&self, alloc: Global) -> Result<Atom, AllocError> {
        Ok(Atom {
            rel: self.rel,
            terms: self.terms.copy(alloc)?,
        })
    }
}

impl Copies for Sort {
    fn copy(&self, _alloc: Global) -> Result<Sort, AllocError> {
        Ok(*self)
    }
}

impl Copies for Fact {
    fn copy(&self, alloc: Global) -> Result<Fact, AllocError> {
        Ok(Fact {
            rel: self.rel,
            row: self.row.copy(alloc)?,
        })
    }
}

impl Copies for Operand {
    fn copy(&self, alloc: Global) -> Result<Operand, AllocError> {
        match self {
            Operand::Column { from, column } => Ok(Operand::Column {
                from: *from,
                column: *column,
            }),
            Operand::Literal(text) => Ok(Operand::Literal(text.copy(alloc)?)),
        }
    }
}

impl Copies for Place {
    fn copy(&self, alloc: Global) -> Result<Place, AllocError> {
        match self {
            Place::Const(text) => Ok(Place::Const(text.copy(alloc)?)),
            Place::Col(column) => Ok(Place::Col(*column)),
            Place::New => Ok(Place::New),
        }
    }
}

impl Copies for Out {
    fn copy(&self, alloc: Global) -> Result<Out, AllocError> {
        match self {
            Out::Const(text) => Ok(Out::Const(text.copy(alloc)?)),
            Out::Col(column) => Ok(Out::Col(*column)),
        }
    }
}

impl Copies for Step {
    fn copy(&self, alloc: Global) -> Result<Step, AllocError> {
        Ok(Step {
            method: self.method.copy(alloc)?,
            places: self.places.copy(alloc)?,
        })
    }
}

impl Copies for Branch {
    fn copy(&self, alloc: Global) -> Result<Branch, AllocError> {
        Ok(Branch {
            steps: self.steps.copy(alloc)?,
            output: self.output.copy(alloc)?,
        })
    }
}

impl Copies for Request {
    fn copy(&self, alloc: Global) -> Result<Request, AllocError> {
        Ok(Request {
            rel: self.rel,
            positions: self.positions.copy(alloc)?,
            values: self.values.copy(alloc)?,
        })
    }
}

impl Copies for Val {
    fn copy(&self, alloc: Global) -> Result<Val, AllocError> {
        match self {
            Val::Const(text) => Ok(Val::Const(text.copy(alloc)?)),
            Val::Label(label) => Ok(Val::Label(*label)),
        }
    }
}

impl Copies for Ground {
    fn copy(&self, alloc: Global) -> Result<Ground, AllocError> {
        Ok(Ground {
            rel: self.rel,
            vals: self.vals.copy(alloc)?,
        })
    }
}

impl Copies for Trigger {
    fn copy(&self, alloc: Global) -> Result<Trigger, AllocError> {
        Ok(Trigger {
            rule: self.rule,
            values: self.values.copy(alloc)?,
            fresh: self.fresh,
        })
    }
}

impl Copies for Firing {
    fn copy(&self, alloc: Global) -> Result<Firing, AllocError> {
        match self {
            Firing::Base(trigger) => Ok(Firing::Base(trigger.copy(alloc)?)),
            Firing::Copy(trigger) => Ok(Firing::Copy(trigger.copy(alloc)?)),
            Firing::Expose { method, fact } => Ok(Firing::Expose {
                method: *method,
                fact: fact.copy(alloc)?,
            }),
        }
    }
}
