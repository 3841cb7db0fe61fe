// The matches of a rule's body, one after another.
ghost use Rattle.std.specs.Prelude.{◌≡◌, ◌<◌, ◌≤◌, ◌∷◌, [], ℕ, List, Contains, length, map, slice_index_or, true, false, IfOk, IfSome, IfNone};
ghost use Rattle.meaning.specs.Triggers.{bound, IsNumbered};
ghost use Rattle.homomorphism.specs.Bindings.{at};
ghost use Rattle.homomorphism.specs.Frontier.{StandForAll};
ghost use Rattle.homomorphism.specs.Matches.{AreCovered};
ghost use Rattle.homomorphism.specs.Walks.{AreListed, begun, left_of, picked_of, together};
ghost use Rattle.homomorphism.specs.Widening.{taken};

use crate::arrange::Run;
use crate::assignment::{Assignment, Assignments, Bindings};
use crate::frontier::{copied, frontier};
use crate::groups::groups;
use crate::parts::parts_of;
use crate::rules::{given, variables_width};
use crate::start::start;
use crate::store::Store;
use crate::turning::{Counts, Turning, number_of};
use lists::{Copies, NoMemory, Seq};
use meaning::types::{Atom, Rule, Val};
use std::alloc::Global;
use std::marker::Model;

/// Matches of a rule's body, made one after another. Contracts see the list of those that are left.
///
/// The matches of each part that shares no variable with the others are listed once, and one of each make a match of
/// the body. For each group of the head's atoms only the matches of the parts that it names are put together in all
/// ways: so their product is never listed, and that of all parts never gone through, unless a group names them all.
#[derive(Drop)]
pub struct Walk {
    /// The matches of each part, the last part first.
    lists: Seq<Assignments>,
    /// For each variable the part that owns it.
    owners: Seq<usize>,
    /// The choices that are left for each group, the next group last.
    left: Vec<Turning>,
}

impl Model for Walk {
    ghost use Rattle.std.specs.Prelude.{List, Contains};
    ghost use Rattle.homomorphism.specs.declared.assignment.Assignment.{Assignment};
    ghost use Rattle.homomorphism.specs.declared.turning.Turning.{Turning};
    ghost use Rattle.homomorphism.specs.Walks.{AreWithin, left_of};

    ghost Value = { List Assignment };

    ghost view = { λ w. left_of w.lists w.owners w.left.items };

    ghost invariant = { λ w. (one : Turning) → Contains w.left.items one → AreWithin one.counts one.numbers };
}

impl Walk {
    /// Matches of the rule's body that stand for all: for each match, and each group of the head's atoms, one that gives the
    /// variables of the group the same values.
    ///
    /// A rule that is met at the one is met for that group at the other.
    pub fn over(alloc: Global, rule: &Rule, store: &Store) -> Result<Walk, NoMemory>
        requires { IsNumbered rule.now }
        ensures { IfOk result (λ walk. StandForAll store.now rule.now walk) }
    {
        let body = rule.body.as_slice();
        let head = rule.head.as_slice();
        let none = Vec::new(alloc);
        let fixed = given(alloc, none.as_slice(), variables_width(body))?;
        let Some(first) = start(alloc, body, head, store, fixed)? else {
            return Ok(Walk::ended(alloc));
        };
        let parts = parts_of(alloc, body, first.as_slice())?;
        let lists = listed(
            alloc,
            body,
            head,
            store,
            parts.runs.as_slice(),
            parts.givens.as_slice(),
        )?;
        let whole = lengths(alloc, lists.as_slice())?;
        if !are_positive(whole.as_slice()) {
            return Ok(Walk::ended(alloc));
        }
        let groups = groups(alloc, rule, parts.owners.as_slice(), whole)?;
        Ok(Walk::begin(alloc, lists, parts.owners, groups)?)
    }

    /// The walk without matches. Takes no memory.
    fn ended(alloc: Global) -> Walk
        ensures { result ≡ [] }
    {
        Walk {
            lists: Seq::new(alloc),
            owners: Seq::new(alloc),
            left: Vec::new(alloc),
        }
    }

    /// The walk through the matches that these matches of parts make, as many of each part as each of the counts says.
    fn begin(
        alloc: Global,
        lists: Vec<Assignments>,
        owners: Seq<usize>,
        groups: Vec<Counts>,
    ) -> Result<Walk, NoMemory>
        requires { (counts : List ℕ) (i : ℕ) → Contains groups.items counts → i < length counts → 0 < slice_index_or counts i 0 }
        ensures { IfOk result (λ walk. walk ≡ left_of lists.items owners (map begun groups.items)) }
    {
        let left = turnings_of(alloc, groups)?;
        Ok(Walk {
            lists: Seq::from_vec(lists),
            owners,
            left,
        })
    }

    /// Whether no match is left. Takes no memory.
    pub fn is_over(&self) -> bool
        ensures over { result ≡ true → self.now ≡ [] }
        ensures left { result ≡ false → 0 < length self.now }
    {
        self.left.is_empty()
    }

    /// The next match, if one is left.
    pub fn next(&mut self, alloc: Global) -> Result<Option<Assignment>, NoMemory>
        ensures some { IfOk result (λ found. IfSome found (λ one. self.old ≡ one ∷ self.new)) }
        ensures none { IfOk result (λ found. IfNone found (self.old ≡ [])) }
    {
        let Some(turning) = self.left.pop() else {
            return Ok(None);
        };
        let lists = self.lists.as_slice();
        let numbers = turning.numbers.as_slice();
        let one = brought_together(alloc, lists, self.owners.as_slice(), numbers)?;
        if let Some(later) = turning.later(alloc)? {
            self.left.push(later)?;
            return Ok(Some(one));
        }
        Ok(Some(one))
    }
}

/// All choices below each of the counts.
fn turnings_of(alloc: Global, groups: Vec<Counts>) -> Result<Vec<Turning>, NoMemory>
    ensures { IfOk result (λ turnings. turnings.items ≡ map begun groups.items) }
{
    let mut turnings = Vec::with_capacity(alloc, groups.len())?;
    for counts in groups {
        turnings.push(Turning::begin(alloc, counts)?)?;
    }
    Ok(turnings)
}

/// The matches of each part.
fn listed(
    alloc: Global,
    atoms: &[Atom],
    head: &[Atom],
    store: &Store,
    runs: &[Run],
    givens: &[Bindings],
) -> Result<Vec<Assignments>, NoMemory>
    requires count { length givens.now ≡ length runs.now }
    requires fits { (i : ℕ) → i < length runs.now → bound atoms.now ≤ length (slice_index_or givens.now i []) }
    requires within { (i n : ℕ) → i < length runs.now → Contains (slice_index_or runs.now i []) n → n < length atoms.now }
    requires covered { (i : ℕ) → i < length runs.now → AreCovered (taken atoms.now (slice_index_or runs.now i [])) (slice_index_or givens.now i []) }
    ensures count { IfOk result (λ lists. length lists.items ≡ length runs.now) }
    ensures listed { IfOk result (λ lists. AreListed store.now atoms.now head.now runs.now givens.now lists.items) }
{
    let mut lists = Vec::new(alloc);
    for part in 0..runs.len() {
        let mut given = copied(alloc, givens[part].as_slice())?;
        let mut found = Vec::new(alloc);
        frontier(
            alloc,
            atoms,
            runs[part].as_slice(),
            head,
            store,
            &mut given,
            &mut found,
        )?;
        lists.push(Seq::from_vec(found))?;
    }
    Ok(lists)
}

/// How many matches each part has.
fn lengths(alloc: Global, lists: &[Assignments]) -> Result<Vec<usize>, NoMemory>
    ensures { IfOk result (λ whole. whole.items ≡ map length lists.now) }
{
    let mut whole = Vec::with_capacity(alloc, lists.len())?;
    for list in lists {
        whole.push(list.len())?;
    }
    Ok(whole)
}

/// Whether no number is 0. Takes no memory.
fn are_positive(numbers: &[usize]) -> bool
    ensures yes { result ≡ true → (i : ℕ) → i < length numbers.now → 0 < slice_index_or numbers.now i 0 }
    ensures no { result ≡ false → Contains numbers.now 0 }
{
    for number in numbers {
        if *number == 0 {
            return false;
        }
    }
    true
}

/// The match of the body that these matches of its parts make.
fn brought_together(
    alloc: Global,
    lists: &[Assignments],
    owners: &[usize],
    numbers: &[usize],
) -> Result<Assignment, NoMemory>
    ensures { IfOk result (λ one. one ≡ together lists.now owners.now numbers.now) }
{
    let mut values = Vec::with_capacity(alloc, owners.len())?;
    for variable in 0..owners.len() {
        let value = value_in(alloc, lists, numbers, owners[variable], variable)?;
        values.push(value)?;
    }
    Ok(Assignment {
        vals: Seq::from_vec(values),
    })
}

/// The value of the variable in the match of the part.
fn value_in(
    alloc: Global,
    lists: &[Assignments],
    numbers: &[usize],
    part: usize,
    variable: usize,
) -> Result<Val, NoMemory>
    ensures { IfOk result (λ value. value ≡ at (picked_of lists.now numbers.now part).vals variable) }
{
    let Some(one) = picked(lists, numbers, part) else {
        return Ok(Val::Label(0));
    };
    match one.vals.get(variable) {
        Some(value) => Ok(value.copy(alloc)?),
        None => Ok(Val::Label(0)),
    }
}

/// The match of the part.
fn picked<'a>(lists: &'a [Assignments], numbers: &[usize], part: usize) -> Option<&'a Assignment>
    ensures some { IfSome result (λ one. one.now ≡ picked_of lists.now numbers.now part) }
    ensures none { IfNone result ((picked_of lists.now numbers.now part).vals ≡ []) }
{
    let number = number_of(numbers, part);
    if part >= lists.len() {
        return None;
    }
    let Some(one) = lists[part].get(number) else {
        return None;
    };
    Some(one)
}
