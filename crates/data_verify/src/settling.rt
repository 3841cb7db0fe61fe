// The first atom of a broken rule, settled: its least row, and the rule that remains.
ghost use Rattle.std.specs.Prelude.{◌≡◌, ◌↔◌, [], ◌∷◌, Contains, length, IsTrue, IfOk, IfSome, IfNone, OnOk};
ghost use Rattle.meaning.specs.declared.types.Val.TheVariants.{Const};
ghost use Rattle.meaning.specs.Matching.{MeetsRule, GroundsOf};
ghost use Rattle.meaning.specs.Triggers.{bound, IsNumbered};
ghost use Rattle.homomorphism.specs.Texts.{text_at};
ghost use Rattle.homomorphism.specs.declared.assignment.Assignment.{Assignment as TheAssignment};
ghost use Rattle.data_verify.specs.Settling.{rest_under, rows_behind, AreMet, IsBelow, IsUnmetRest, IsLower, IsLeast, IsSettled};

use crate::remaining::{behind_first, remaining_rule};
use crate::rows::rows_under;
use homomorphism::{
    Assignment, Store, body_matches, first_unmet, is_numbered, row_under, variables_width,
};
use lists::{Copies, NoMemory, Row, Rows, Seq};
use meaning::types::{Atom, Fact, Rule, Term, Val};
use std::alloc::Global;
use std::collections::BTreeSet;

/// A fact for the first atom of a rule, and the rule that remains.
#[derive(Drop)]
pub struct Settled {
    pub fact: Fact,
    pub rest: Rule,
}

/// The first fact of the least facts that break the rule, and what remains of the rule with it. None may come too: then
/// nothing is settled, as where each atom shares a variable with those before it.
pub fn settle(alloc: Global, rule: &Rule, store: &Store) -> Result<Option<Settled>, NoMemory>
    requires { IsNumbered rule.now }
    ensures { IfOk result (λ found. IfSome found (IsSettled store.now rule.now)) }
{
    if are_linked(rule.body.as_slice()) {
        return Ok(None);
    }
    let [first, ..] = rule.body.as_slice() else {
        return Ok(None);
    };
    let alone = alone(alloc, first)?;
    if !is_numbered(&alone) {
        return Ok(None);
    }
    let found = body_matches(alloc, &alone, store)?;
    least(alloc, rule, first, store, found.as_slice())
}

/// The rule of this atom alone, with no head.
fn alone(alloc: Global, atom: &Atom) -> Result<Rule, NoMemory>
    ensures body { IfOk result (λ rule. rule.body ≡ atom.now ∷ []) }
    ensures head { IfOk result (λ rule. rule.head ≡ []) }
{
    let mut body = Seq::new(alloc);
    body.push(atom.copy(alloc)?)?;
    Ok(Rule {
        line: 0,
        body,
        head: Seq::new(alloc),
    })
}

/// Of these matches of the first atom the one with the least row, among those with which what remains is not met.
fn least(
    alloc: Global,
    rule: &Rule,
    first: &Atom,
    store: &Store,
    found: &[Assignment],
) -> Result<Option<Settled>, NoMemory>
    requires numbered { (one : TheAssignment) → Contains found.now one → IsNumbered (rest_under rule.now one.vals) }
    requires width { (one : TheAssignment) → Contains found.now one → length one.vals ≡ bound (first.now ∷ []) }
    ensures { IfOk result (IsLeast store.now rule.now first.now found.now) }
{
    let mut met = BTreeSet::new(alloc);
    let mut least = None;
    for one in found {
        let values = one.vals.as_slice();
        let lower = lower(alloc, rule, first, store, values, &least, &mut met)?;
        if let Some(settled) = lower {
            least = Some(settled);
        }
    }
    Ok(least)
}

/// The first atom settled by these values, where its row is below the least so far and what remains is not met.
fn lower(
    alloc: Global,
    rule: &Rule,
    first: &Atom,
    store: &Store,
    values: &[Val],
    least: &Option<Settled>,
    met: &mut BTreeSet<Rows>,
) -> Result<Option<Settled>, NoMemory>
    requires numbered { IsNumbered (rest_under rule.now values.now) }
    requires remembered { AreMet store.now rule.now (length values.now) met.old }
    ensures lower { IfOk result (IsLower store.now rule.now first.now values.now least.now) }
    ensures remembered { OnOk result (AreMet store.now rule.now (length values.now) met.new) }
{
    let row = row_under(alloc, first.terms.as_slice(), values)?;
    if !is_below(&row, least) {
        return Ok(None);
    }
    match unmet_rest(alloc, rule, store, values, met)? {
        None => Ok(None),
        Some(rest) => Ok(Some(Settled {
            fact: Fact {
                rel: first.rel,
                row,
            },
            rest,
        })),
    }
}

/// What remains of the rule under these values, if it is not met. What is met is remembered by the rows that the values
/// give it, so that it is tested once for all values that leave the same.
fn unmet_rest(
    alloc: Global,
    rule: &Rule,
    store: &Store,
    values: &[Val],
    met: &mut BTreeSet<Rows>,
) -> Result<Option<Rule>, NoMemory>
    requires numbered { IsNumbered (rest_under rule.now values.now) }
    requires remembered { AreMet store.now rule.now (length values.now) met.old }
    ensures some { IfOk result (λ found. IfSome found (IsUnmetRest store.now rule.now values.now)) }
    ensures none { IfOk result (λ found. IfNone found (MeetsRule Const (GroundsOf store.now) (rest_under rule.now values.now))) }
    ensures remembered { OnOk result (AreMet store.now rule.now (length values.now) met.new) }
{
    let key = rows_behind(alloc, rule, values)?;
    if met.contains(&key) {
        return Ok(None);
    }
    let rest = remaining_rule(alloc, rule, values)?;
    match first_unmet(alloc, &rest, store)? {
        Some(_found) => Ok(Some(rest)),
        None => {
            met.insert(key)?;
            Ok(None)
        }
    }
}

/// The rows under the values of the atoms behind the first and of the head.
fn rows_behind(alloc: Global, rule: &Rule, values: &[Val]) -> Result<Rows, NoMemory>
    ensures { IfOk result (λ rows. rows ≡ rows_behind rule.now (text_at values.now)) }
{
    let mut rows = rows_under(alloc, behind_first(rule), values)?;
    let head = rows_under(alloc, rule.head.as_slice(), values)?;
    for row in head.into_vec() {
        rows.push(row)?;
    }
    Ok(rows)
}

/// Whether the row is below that of the least so far, if there is one.
fn is_below(row: &Row, least: &Option<Settled>) -> bool
    ensures { IsTrue result ↔ IsBelow row.now least.now }
{
    match least {
        None => true,
        Some(first) => row.cmp(&first.fact.row).is_lt(),
    }
}

/// Whether each atom behind the first shares a variable with those before it. No clause says so: where it is not so, the
/// first atom is settled, which is right for any rule.
fn are_linked(atoms: &[Atom]) -> bool {
    for place in 1..atoms.len() {
        let width = variables_width(&atoms[..place]);
        if !has_below(atoms[place].terms.as_slice(), width) {
            return false;
        }
    }
    true
}

/// Whether a variable below the width is one of the terms.
fn has_below(terms: &[Term], width: usize) -> bool {
    for term in terms {
        if let Term::Var(variable) = term {
            if (*variable as usize) < width {
                return true;
            }
        }
    }
    false
}
