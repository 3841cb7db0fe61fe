// The head of a rule, made ready to be looked for at one match of the body after another.
ghost use Rattle.std.specs.Prelude.{◌≡◌, ◌↔◌, ◌<◌, ◌≤◌, ℕ, IsTrue, Contains, Some, None, length, slice_get, true, false, IfOk};
ghost use Rattle.meaning.specs.declared.types.Val.TheVariants.{Const};
ghost use Rattle.meaning.specs.Matching.{AreFacts, GroundsOf};
ghost use Rattle.meaning.specs.Triggers.{terms_bound, bound, ground, IsNumbered};
ghost use Rattle.homomorphism.specs.Bindings.{at};
ghost use Rattle.homomorphism.specs.Rules.{IsMet, IsUnmet};
ghost use Rattle.homomorphism.specs.Heads.{IsHeadOf};
ghost use Rattle.homomorphism.specs.Widening.{AreRuns};

use crate::arrange::{Run, arranged};
use crate::assignment::{Assignment, Bindings};
use crate::grounding::values_under;
use crate::rules::{given, variables_width};
use crate::search::search_runs;
use crate::store::Store;
use lists::{NoMemory, Seq};
use meaning::types::{Atom, Ground, Rule, Val};
use std::alloc::Global;

/// How the head of a rule is looked for.
#[derive(Drop)]
pub struct Head {
    /// The numbers of its atoms, in runs one after another; where the head is known, none are made.
    runs: Seq<Run>,
    /// One more than its greatest variable.
    width: usize,
    /// Whether each of its variables occurs in the body, so that nothing has to be looked for.
    is_known: bool,
}

impl Head {
    /// The head of the rule.
    pub fn of(alloc: Global, rule: &Rule) -> Result<Head, NoMemory>
        ensures { IfOk result (λ head. IsHeadOf rule.now head) }
    {
        let body = variables_width(rule.body.as_slice());
        let width = variables_width(rule.head.as_slice());
        let runs = runs_of(alloc, rule.head.as_slice(), body, width)?;
        Ok(Head {
            runs: Seq::from_vec(runs),
            width,
            is_known: width <= body,
        })
    }

    /// Whether the values of the body variables extend to values that make the head atoms facts.
    pub fn is_met(
        &self,
        alloc: Global,
        rule: &Rule,
        store: &Store,
        values: &Assignment,
    ) -> Result<bool, NoMemory>
        requires head { IsHeadOf rule.now self.now }
        requires numbered { IsNumbered rule.now }
        requires width { length values.now.vals ≡ bound rule.now.body }
        ensures met { IfOk result (λ met. met ≡ true → IsMet store.now rule.now values.now.vals) }
        ensures unmet { IfOk result (λ met. met ≡ false → IsUnmet store.now rule.now values.now.vals) }
    {
        let head = rule.head.as_slice();
        if self.is_known {
            return are_there(alloc, head, store, values);
        }
        let fixed = given(alloc, values.vals.as_slice(), self.width)?;
        if let Some(_values) = search_runs(alloc, head, self.runs.as_slice(), store, fixed)? {
            return Ok(true);
        }
        Ok(false)
    }
}

/// The numbers of the atoms in runs, where the variables below `body` have a value. Where all variables have one, there is
/// no run.
fn runs_of(alloc: Global, atoms: &[Atom], body: usize, width: usize) -> Result<Vec<Run>, NoMemory>
    ensures { IfOk result (λ runs. body < width → AreRuns (length atoms.now) runs.items) }
{
    if width <= body {
        return Ok(Vec::new(alloc));
    }
    let known = all_known(alloc, body, width)?;
    Ok(arranged(alloc, atoms, known.as_slice())?)
}

/// A value for each variable of the body, and none for others below the width.
pub fn all_known(alloc: Global, body: usize, width: usize) -> Result<Bindings, NoMemory>
    ensures { IfOk result (λ values. (x : ℕ) → body ≤ x → x < width → slice_get values x ≡ Some None) }
{
    let mut values = Seq::new(alloc);
    for variable in 0..width {
        values.push(any_if(variable < body))?;
    }
    Ok(values)
}

/// Any value, or none.
fn any_if(is_known: bool) -> Option<Val>
    ensures { is_known ≡ false → result ≡ None }
{
    if is_known {
        return Some(Val::Label(0));
    }
    None
}

/// Whether all facts that the atoms are under the values are there.
fn are_there(
    alloc: Global,
    atoms: &[Atom],
    store: &Store,
    values: &Assignment,
) -> Result<bool, NoMemory>
    requires { bound atoms.now ≤ length values.now.vals }
    ensures yes { IfOk result (λ are. are ≡ true → AreFacts Const (GroundsOf store.now) (at values.now.vals) atoms.now) }
    ensures no { IfOk result (λ are. are ≡ false → AreFacts Const (GroundsOf store.now) (at values.now.vals) atoms.now → ⊥) }
{
    for atom in atoms {
        if !is_there(alloc, atom, store, values)? {
            return Ok(false);
        }
    }
    Ok(true)
}

/// Whether the fact that the atom is under the values is there.
fn is_there(
    alloc: Global,
    atom: &Atom,
    store: &Store,
    values: &Assignment,
) -> Result<bool, NoMemory>
    requires { terms_bound atom.now.terms ≤ length values.now.vals }
    ensures { IfOk result (λ there. IsTrue there ↔ Contains store.now (ground (at values.now.vals) atom.now)) }
{
    let vals = values_under(alloc, atom.terms.as_slice(), values)?;
    let fact = Ground {
        rel: atom.rel,
        vals: Seq::from_vec(vals),
    };
    Ok(store.contains(&fact))
}
