// Groups of the atoms of a head, which share no existential variable: a rule is met where it is met for each group alone.
ghost use Rattle.std.specs.Prelude.{◌≡◌, ◌<◌, ◌≤◌, [], ℕ, List, Contains, length, slice_get, slice_index_or, true, IfOk, IfSome};
ghost use Rattle.meaning.specs.declared.types.Term.TheVariants.{Var};
ghost use Rattle.homomorphism.specs.Walks.{AreCounts, AreGroups, AreTurned, IsServed};
ghost use Rattle.homomorphism.specs.Widening.{taken};

use crate::arrange::Run;
use crate::head::all_known;
use crate::parts::parts_of;
use crate::rules::variables_width;
use crate::turning::{Counts, number_of};
use lists::{NoMemory, Seq};
use meaning::types::{Atom, Rule, Term};
use std::alloc::Global;

/// For each group of the head's atoms how many of its matches each part gives: all, where the group names a variable of the
/// part, and else the first. Of each part there are as many as `whole` says.
///
/// A group that names no part but those of another one goes with that. Where at most one part has several matches, all atoms
/// are one group. The group whose last part changes first comes last, and is the first to be gone through.
pub fn groups(
    alloc: Global,
    rule: &Rule,
    owners: &[usize],
    whole: Vec<usize>,
) -> Result<Vec<Counts>, NoMemory>
    requires { (i : ℕ) → i < length whole.items → 0 < slice_index_or whole.items i 0 }
    ensures { IfOk result (λ groups. AreGroups rule.now owners.now whole.items groups.items) }
{
    if rule.head.len() > 1 && have_choices(whole.as_slice()) {
        if let Some(groups) = groups_apart(alloc, rule, owners, whole.as_slice())? {
            return Ok(groups);
        }
    }
    let mut groups = Vec::new(alloc);
    groups.push(Seq::from_vec(whole))?;
    Ok(groups)
}

/// Whether several parts have several matches. Takes no memory.
fn have_choices(whole: &[usize]) -> bool {
    let mut parts: usize = 0;
    for count in whole {
        if *count > 1 {
            parts = parts.saturating_add(1);
        }
    }
    parts > 1
}

/// The same by the parts of the head that share no existential variable, if they stand apart.
fn groups_apart(
    alloc: Global,
    rule: &Rule,
    owners: &[usize],
    whole: &[usize],
) -> Result<Option<Vec<Counts>>, NoMemory>
    ensures { IfOk result (λ found. IfSome found (λ groups. AreGroups rule.now owners.now whole.now groups.items)) }
{
    let head = rule.head.as_slice();
    let body = variables_width(rule.body.as_slice());
    let open = all_known(alloc, body, variables_width(head))?;
    let parts = parts_of(alloc, head, open.as_slice())?;
    let runs = parts.runs.as_slice();
    let each = counts_of(alloc, head, runs, owners, whole)?;
    let groups = widest(alloc, each)?;
    if are_counts(whole, groups.as_slice())
        && are_served(head, runs, owners, whole, groups.as_slice())
    {
        return Ok(Some(groups));
    }
    Ok(None)
}

/// Whether these are counts of matches of parts that have as many as `whole` says. Takes no memory.
fn are_counts(whole: &[usize], groups: &[Counts]) -> bool
    ensures { result ≡ true → (counts : List ℕ) → Contains groups.now counts → AreCounts whole.now counts }
{
    for counts in groups {
        if !have_some(whole, counts.as_slice()) {
            return false;
        }
    }
    true
}

/// Whether of each part a match is gone through, and no more than there are. Takes no memory.
fn have_some(whole: &[usize], counts: &[usize]) -> bool
    ensures { result ≡ true → AreCounts whole.now counts.now }
{
    if counts.len() != whole.len() {
        return false;
    }
    for part in 0..whole.len() {
        if counts[part] == 0 || counts[part] > whole[part] {
            return false;
        }
    }
    true
}

/// Whether for each run one of the counts turns the parts that its atoms name. Takes no memory.
fn are_served(
    atoms: &[Atom],
    runs: &[Run],
    owners: &[usize],
    whole: &[usize],
    groups: &[Counts],
) -> bool
    requires { (i n : ℕ) → i < length runs.now → Contains (slice_index_or runs.now i []) n → n < length atoms.now }
    ensures { result ≡ true → (i : ℕ) → i < length runs.now → IsServed owners.now whole.now groups.now (taken atoms.now (slice_index_or runs.now i [])) }
{
    for place in 0..runs.len() {
        if !is_served(atoms, runs[place].as_slice(), owners, whole, groups) {
            return false;
        }
    }
    true
}

/// Whether one of the counts turns the parts that these atoms name. Takes no memory.
fn is_served(
    atoms: &[Atom],
    run: &[usize],
    owners: &[usize],
    whole: &[usize],
    groups: &[Counts],
) -> bool
    requires { (n : ℕ) → Contains run.now n → n < length atoms.now }
    ensures { result ≡ true → IsServed owners.now whole.now groups.now (taken atoms.now run.now) }
{
    for place in 0..groups.len() {
        if are_turned(atoms, run, owners, whole, groups[place].as_slice()) {
            return true;
        }
    }
    false
}

/// Whether the counts turn the parts that these atoms name. Takes no memory.
fn are_turned(
    atoms: &[Atom],
    run: &[usize],
    owners: &[usize],
    whole: &[usize],
    counts: &[usize],
) -> bool
    requires { (n : ℕ) → Contains run.now n → n < length atoms.now }
    ensures { result ≡ true → AreTurned owners.now whole.now (taken atoms.now run.now) counts.now }
{
    for number in run {
        if !turn_all(atoms[*number].terms.as_slice(), owners, whole, counts) {
            return false;
        }
    }
    true
}

/// Whether the counts turn the parts that the terms name. Takes no memory.
fn turn_all(terms: &[Term], owners: &[usize], whole: &[usize], counts: &[usize]) -> bool
    ensures { result ≡ true → (x : ℕ) → Contains terms.now (Var x) → x < length owners.now → slice_index_or counts.now (slice_index_or owners.now x 0) 0 ≡ slice_index_or whole.now (slice_index_or owners.now x 0) 0 }
{
    for term in terms {
        if !turns_part(term, owners, whole, counts) {
            return false;
        }
    }
    true
}

/// Whether the counts turn the part that the term names, if it names one. Takes no memory.
fn turns_part(term: &Term, owners: &[usize], whole: &[usize], counts: &[usize]) -> bool
    ensures { result ≡ true → (x : ℕ) → term.now ≡ Var x → x < length owners.now → slice_index_or counts.now (slice_index_or owners.now x 0) 0 ≡ slice_index_or whole.now (slice_index_or owners.now x 0) 0 }
{
    match part_of(term, owners) {
        Some(part) => number_of(counts, part) == number_of(whole, part),
        None => true,
    }
}

/// The part that owns the term's variable. Takes no memory.
fn part_of(term: &Term, owners: &[usize]) -> Option<usize>
    ensures { (x : ℕ) → term.now ≡ Var x → result ≡ slice_get owners.now x }
{
    match term {
        Term::Const(_) => None,
        Term::Var(variable) => match owners.get(*variable as usize) {
            Some(part) => Some(*part),
            None => None,
        },
    }
}

/// For each run how many of its matches each part gives, behind the last part that gives several, in ascending order.
/// No clause says so: what is found here is tested where it is used.
fn counts_of(
    alloc: Global,
    atoms: &[Atom],
    runs: &[Run],
    owners: &[usize],
    whole: &[usize],
) -> Result<Vec<(usize, Counts)>, NoMemory> {
    let mut each = Vec::with_capacity(alloc, runs.len())?;
    for run in runs {
        let mut counts = vec![in alloc; 1; whole.len()]?;
        for number in run.as_slice() {
            if let Some(atom) = atoms.get(*number) {
                turn(&mut counts, atom.terms.as_slice(), owners, whole);
            }
        }
        each.push((last_turned(counts.as_slice()), Seq::from_vec(counts)))?;
    }
    each.sort_unstable();
    Ok(each)
}

/// The last part that gives several matches. Takes no memory.
fn last_turned(counts: &[usize]) -> usize {
    let mut last = 0;
    for (part, count) in counts.iter().enumerate() {
        if *count > 1 {
            last = part;
        }
    }
    last
}

/// Gives the parts that the terms name all their matches.
fn turn(counts: &mut Vec<usize>, terms: &[Term], owners: &[usize], whole: &[usize]) {
    for term in terms {
        if let Some(part) = part_of(term, owners) {
            if let Some(count) = counts.get_mut(part) {
                *count = number_of(whole, part);
            }
        }
    }
}

/// The counts without those that others cover, the last ones first.
/// No clause says so: what is found here is tested where it is used.
fn widest(alloc: Global, mut each: Vec<(usize, Counts)>) -> Result<Vec<Counts>, NoMemory> {
    let mut groups = Vec::with_capacity(alloc, each.len())?;
    while let Some((_last, counts)) = each.pop() {
        if !is_outdone(counts.as_slice(), each.as_slice(), groups.as_slice()) {
            groups.push(counts)?;
        }
    }
    Ok(groups)
}

/// Whether counts behind these cover them, or counts before them that are more. Takes no memory.
fn is_outdone(counts: &[usize], before: &[(usize, Counts)], behind: &[Counts]) -> bool {
    for other in behind {
        if cover(other.as_slice(), counts) {
            return true;
        }
    }
    for (_last, other) in before {
        if cover(other.as_slice(), counts) && !cover(counts, other.as_slice()) {
            return true;
        }
    }
    false
}

/// Whether each of the counts is at least the other. Takes no memory.
fn cover(wide: &[usize], counts: &[usize]) -> bool {
    for (part, count) in counts.iter().enumerate() {
        if number_of(wide, part) < *count {
            return false;
        }
    }
    true
}
