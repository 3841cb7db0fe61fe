// The level of each relation: a table that is raised until no rule raises it.
ghost use Rattle.std.specs.Prelude.{◌≡◌, ◌<◌, ◌≤◌, ◌+◌, ◌^◌, IfOk, length, sum, true, false, slice_index, ℕ, replicate};
ghost use Rattle.meaning.specs.RuleOrder.{IsLevel};
ghost use Rattle.rule_pass.specs.Orderly.{AreOrderly};
ghost use Rattle.rule_pass.specs.Levels.{AreBelow, RulesAreBelow, AreReached, AreShort, Raises, Rise, greatest_level};

use meaning::types::{Atom, Rule};
use std::alloc::{AllocError, Global};

/// The greatest of the levels of the atoms' relations.
pub fn greatest_level(levels: &[u32], atoms: &[Atom]) -> u32
    requires { AreBelow (length levels.now) atoms.now }
    ensures { result ≡ greatest_level levels.now atoms.now }
{
    let mut greatest: u32 = 0;
    for atom in atoms {
        greatest = greatest.max(levels[atom.rel as usize]);
    }
    greatest
}

/// Raises the levels of the atoms' relations to this one at least, and says whether one rose.
fn raise(levels: &mut [u32], atoms: &[Atom], least: u32) -> bool
    requires { AreBelow (length levels.old) atoms.now }
    ensures raises { Raises atoms.now least levels.old levels.new }
    ensures rose { result ≡ true → sum levels.old < sum levels.new }
    ensures stays { result ≡ false → levels.new ≡ levels.old }
{
    let mut rose = false;
    for atom in atoms {
        let rel = atom.rel as usize;
        if levels[rel] < least {
            levels[rel] = least;
            rose = true;
        }
    }
    rose
}

/// Raises the levels of what each rule makes above those of what it reads, and says whether one rose.
fn raise_all(levels: &mut [u32], rules: &[Rule]) -> bool
    requires orderly { AreOrderly rules.now }
    requires below { RulesAreBelow (length levels.old) rules.now }
    requires short { AreShort rules.now }
    requires reached { AreReached rules.now levels.old }
    ensures reached { AreReached rules.now levels.new }
    ensures rose { result ≡ true → sum levels.old < sum levels.new }
    ensures stays { result ≡ false → Rise rules.now levels.new }
{
    let mut rose = false;
    for rule in rules {
        let least = greatest_level(levels, rule.body.as_slice()) + 1;
        if raise(levels, rule.head.as_slice(), least) {
            rose = true;
        }
    }
    rose
}

/// One more than the greatest number of a relation of the atoms.
fn relations_width(atoms: &[Atom]) -> usize
    ensures { AreBelow result atoms.now }
{
    let mut width: usize = 0;
    for atom in atoms {
        width = width.max(atom.rel as usize + 1);
    }
    width
}

/// One more than the greatest number of a relation of the rules.
fn rules_width(rules: &[Rule]) -> usize
    ensures { RulesAreBelow result rules.now }
{
    let mut width: usize = 0;
    for rule in rules {
        let body = relations_width(rule.body.as_slice());
        let head = relations_width(rule.head.as_slice());
        width = width.max(body).max(head);
    }
    width
}

/// Raises the levels until no rule raises one.
fn raise_until_still(levels: &mut [u32], rules: &[Rule])
    requires orderly { AreOrderly rules.now }
    requires below { RulesAreBelow (length levels.old) rules.now }
    requires reached { AreReached rules.now levels.old }
    ensures { (rel : ℕ) → IsLevel rules.now rel (slice_index levels.new rel) }
{
    while raise_all(levels, rules) {}
}

/// No steps for each relation.
fn no_levels(alloc: Global, count: usize) -> Result<Vec<u32>, AllocError>
    ensures { IfOk result (λ levels. levels.items ≡ replicate count 0) }
{
    vec![in alloc; 0; count]
}

/// The level of each relation, by its number.
pub fn relation_levels(alloc: Global, rules: &[Rule]) -> Result<Vec<u32>, AllocError>
    requires { AreOrderly rules.now }
    ensures below { IfOk result (λ levels. RulesAreBelow (length levels.items) rules.now) }
    ensures levels { IfOk result (λ levels. (rel : ℕ) → IsLevel rules.now rel (slice_index levels.items rel)) }
{
    let mut levels = no_levels(alloc, rules_width(rules))?;
    raise_until_still(&mut levels, rules);
    Ok(levels)
}
