// The rows of a class by their numbers: their beginnings, which are all but their last values, and the last values
// behind one.
ghost use Rattle.std.specs.Prelude.{◌≡◌, ◌<◌, ◌≤◌, ◌⊎◌, Contains, IfOk, Some, false, length, map, nat_eq, slice_get};
ghost use Rattle.crawl_rounds.specs.Rows.{rows_of};
ghost use Rattle.crawl_rounds.specs.Rounds.{Class};
ghost use Rattle.crawl_rounds.specs.Lent.{lent_class};
ghost use Rattle.crawl.specs.Pieces.{AreEnough, ends_of};

use crate::progress::Progress;
use lists::{Copies, NoMemory, Places, Row, Text};
use std::alloc::Global;

/// All known values, each with whether it is new, where there is a class for which more than the new ones is looked at.
pub fn values_to_ask(
    alloc: Global,
    classes: &[(u32, &Places)],
    progress: &Progress,
) -> Result<Vec<(Text, bool)>, NoMemory>
    ensures { IfOk result (λ all.
        AreEnough (nat_eq progress.now.rounds 0) progress.now.known (map lent_class classes.now) all.items) }
{
    if progress.rounds == 0 || has_more_inputs(classes) {
        return progress.known.marked(alloc);
    }
    Ok(Vec::new(alloc))
}

// Whether a class has two inputs or more.
fn has_more_inputs(classes: &[(u32, &Places)]) -> bool
    ensures { result ≡ false → (class : Class) → Contains (map lent_class classes.now) class → length class.1 ≤ 1 }
{
    for class in classes {
        if class.1.len() > 1 {
            return true;
        }
    }
    false
}

/// The row of so many values that has this number, and whether it is new; none where there are fewer rows. Rows count
/// from 0, and neighbours differ in their last values.
pub fn beginning(
    alloc: Global,
    first: bool,
    all: &[(Text, bool)],
    count: usize,
    number: usize,
) -> Result<Option<(Row, bool)>, NoMemory>
    ensures { IfOk result (λ found. found ≡ slice_get (rows_of first all.now count) number) }
{
    let mut values = Vec::with_capacity(alloc, count)?;
    let mut mark = false;
    let mut rest = number;
    for _ in 0..count {
        if all.len() == 0 {
            return Ok(None);
        }
        let value = &all[rest % all.len()];
        values.insert(0, value.0.copy(alloc)?)?;
        mark = value.1 || mark;
        rest = rest / all.len();
    }
    if rest > 0 {
        return Ok(None);
    }
    Ok(Some((Row::from_vec(values), first || mark)))
}

/// How many last values there are behind a row.
pub fn count_ends(all: &[(Text, bool)], fresh: &[Text], mark: bool) -> usize
    ensures { result ≡ length (ends_of all.now fresh.now mark) }
{
    if mark { all.len() } else { fresh.len() }
}

/// The last value of a number that there is.
pub fn end_at<'a>(all: &'a [(Text, bool)], fresh: &'a [Text], mark: bool, number: usize) -> &'a Text
    requires { number < length (ends_of all.now fresh.now mark) }
    ensures { slice_get (ends_of all.now fresh.now mark) number ≡ Some result.now }
{
    if mark { &all[number].0 } else { &fresh[number] }
}
