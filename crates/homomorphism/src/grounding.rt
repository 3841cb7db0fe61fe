// Atoms as labelled facts: under values, under those of a trigger, or frozen, with a label for each variable.
ghost use Rattle.std.specs.Prelude.{◌≡◌, ◌+◌, ◌-◌, ◌<◌, ◌^◌, ℕ, Contains, length, map, IfOk};
ghost use Rattle.meaning.specs.declared.types.Val.{Val};
ghost use Rattle.meaning.specs.declared.types.Val.TheVariants.{Const, Label};
ghost use Rattle.meaning.specs.declared.types.Term.TheVariants.{Var};
ghost use Rattle.meaning.specs.Matching.{value_of, OccursIn};
ghost use Rattle.meaning.specs.Triggers.{assigned, ground as ground_of};
ghost use Rattle.homomorphism.specs.Bindings.{at};

use crate::assignment::Assignment;
use lists::{Copies, NoMemory, Seq};
use meaning::types::{Atom, Ground, Term, Trigger, Val};
use std::alloc::Global;

/// An assignment of values to variables.
pub trait Assigns {
    /// The value of each variable.
    ghost value_at: { Self → ℕ → Val };

    /// Whether the variable may be asked for.
    ghost covers: { Self → ℕ → Type 0 };

    /// The value of a variable.
    fn value(&self, alloc: Global, variable: u32) -> Result<Val, NoMemory>
        requires { covers self.now variable }
        ensures { IfOk result (λ value. value ≡ value_at self.now variable) };
}

/// A trigger gives the variables of the body its values, and the existential ones the next labels in order.
impl Assigns for Trigger {
    ghost value_at = { assigned };

    ghost covers = { λ trigger x. trigger.fresh + (x - length trigger.values) < 2 ^ 32 };

    fn value(&self, alloc: Global, variable: u32) -> Result<Val, NoMemory> {
        let variable = variable as usize;
        let values = self.values.as_slice();
        if variable < values.len() {
            return values[variable].copy(alloc);
        }
        Ok(Val::Label(self.fresh + (variable - values.len()) as u32))
    }
}

/// Values give each variable below their count its own.
impl Assigns for Assignment {
    ghost value_at = { λ m. at m.vals };

    ghost covers = { λ m x. x < length m.vals };

    fn value(&self, alloc: Global, variable: u32) -> Result<Val, NoMemory> {
        self.vals.as_slice()[variable as usize].copy(alloc)
    }
}

/// The assignment of frozen atoms, which gives variable k the label k (Chandra and Merlin 1977, canonical instances).
pub struct Freezing;

impl Assigns for Freezing {
    ghost value_at = { λ freezing. Label };

    ghost covers = { λ freezing x. Unit {0} };

    fn value(&self, _alloc: Global, variable: u32) -> Result<Val, NoMemory> {
        Ok(Val::Label(variable))
    }
}

/// The facts that the atoms are under the assignment, in order; a constant is itself.
pub fn ground_under<A: Assigns>(
    alloc: Global,
    atoms: &[Atom],
    assignment: &A,
) -> Result<Vec<Ground>, NoMemory>
    requires { (x : ℕ) → OccursIn atoms.now x → A.covers assignment.now x }
    ensures { IfOk result (λ facts. facts.items ≡ map (ground_of (A.value_at assignment.now)) atoms.now) }
{
    let mut facts = Vec::with_capacity(alloc, atoms.len())?;
    for atom in atoms {
        let vals = values_under(alloc, atom.terms.as_slice(), assignment)?;
        facts.push(Ground {
            rel: atom.rel,
            vals: Seq::from_vec(vals),
        })?;
    }
    Ok(facts)
}

/// The values that the terms have under the assignment, in order; a constant is itself.
pub fn values_under<A: Assigns>(
    alloc: Global,
    terms: &[Term],
    assignment: &A,
) -> Result<Vec<Val>, NoMemory>
    requires { (x : ℕ) → Contains terms.now (Var x) → A.covers assignment.now x }
    ensures { IfOk result (λ vals. vals.items ≡ map (value_of Const (A.value_at assignment.now)) terms.now) }
{
    let mut vals = Vec::with_capacity(alloc, terms.len())?;
    for term in terms {
        vals.push(value_under(alloc, term, assignment)?)?;
    }
    Ok(vals)
}

fn value_under<A: Assigns>(alloc: Global, term: &Term, assignment: &A) -> Result<Val, NoMemory>
    requires { (x : ℕ) → term.now ≡ Var x → A.covers assignment.now x }
    ensures { IfOk result (λ value. value ≡ value_of Const (A.value_at assignment.now) term.now) }
{
    match term {
        Term::Var(variable) => assignment.value(alloc, *variable),
        Term::Const(text) => Ok(Val::Const(text.copy(alloc)?)),
    }
}
