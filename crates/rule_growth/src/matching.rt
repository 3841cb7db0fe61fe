// Rules that are not met where it counts.
ghost use Rattle.meaning.specs.Triggers.{IsNumbered};

use crate::asking::is_asked;
use homomorphism::{Assignment, Store, Walk, is_met};
use lists::NoMemory;
use meaning::types::{Atom, Rule, Term, Val};
use std::alloc::Global;

/// The most ways to choose a fact for each atom of a body whose matches are gone through.
const MOST_WAYS: usize = 16384;

/// Whether the body can be matched, and so that all its matches are soon seen: each of its relations has facts, and the ways to choose
/// one for each atom are few. `counts` has the number of facts of each relation. Takes no memory.
pub fn is_narrow(counts: &[usize], body: &[Atom]) -> bool {
    let mut ways: usize = 1;
    for atom in body {
        let count = match counts.get(atom.rel as usize) {
            Some(count) => *count,
            None => 0,
        };
        ways = ways.saturating_mul(count);
    }
    0 < ways && ways <= MOST_WAYS
}

/// Whether the rule is not met at some match of its body or, where labels are given, at one that gives a variable of the head a label
/// of these.
pub fn is_wanting(
    alloc: Global,
    rule: &Rule,
    facts: &Store,
    labels: Option<&[bool]>,
) -> Result<bool, NoMemory>
    requires { IsNumbered rule.now }
{
    let mut walk = Walk::over(alloc, rule, facts)?;
    while let Some(one) = walk.next(alloc)? {
        let counts = match labels {
            Some(labels) => gives_asked(rule.head.as_slice(), &one, labels),
            None => true,
        };
        if counts && !is_met(alloc, rule, facts, one.vals.as_slice())? {
            return Ok(true);
        }
    }
    Ok(false)
}

/// Whether the match gives a variable of the head a label with a mark. Takes no memory.
fn gives_asked(head: &[Atom], one: &Assignment, labels: &[bool]) -> bool {
    for atom in head {
        for term in atom.terms.as_slice() {
            if let Some(val) = value_at(one, term) {
                if is_asked(labels, val) {
                    return true;
                }
            }
        }
    }
    false
}

/// The value of the term, where it is a variable that has one. Takes no memory.
fn value_at<'a>(one: &'a Assignment, term: &Term) -> Option<&'a Val> {
    match term {
        Term::Var(variable) => one.vals.get(*variable as usize),
        Term::Const(_) => None,
    }
}
