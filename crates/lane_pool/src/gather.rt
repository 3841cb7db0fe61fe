// The answers on the sheets of all lanes, brought into the order of the items.
ghost use Rattle.std.specs.Prelude.{◌≡◌, ◌<◌, ◌≤◌, [], length, map, All, IfOk, IsSome, None, Some, replicate, vec_items, vec_len, vec_capacity};
ghost use Rattle.lane_pool.specs.Places.{flat, put_at};
ghost use Rattle.lane_pool.specs.Lanes.{IsBlank};

use lists::NoMemory;
use std::alloc::Global;

pub(crate) fn no_answers<A: Drop>(alloc: Global, count: usize) -> Result<Vec<Option<A>>, NoMemory>
    ensures { IfOk result (λ v. v.items ≡ replicate count None) }
{
    let mut places = Vec::with_capacity(alloc, count)?;
    for _ in 0..count {
        places.push_reserved(None);
    }
    Ok(places)
}

// A sheet for each lane, with room for one number more than there are items.
pub(crate) fn new_sheets<A: Drop>(
    alloc: Global,
    lanes: usize,
    count: usize,
) -> Result<Vec<Vec<(usize, A)>>, NoMemory>
    requires { count ≤ 1_000_000 }
    ensures len { IfOk result (λ v. length v.items ≡ lanes) }
    ensures blank { IfOk result (λ v. All (IsBlank count) v.items) }
{
    let mut sheets = Vec::with_capacity(alloc, lanes)?;
    for _ in 0..lanes {
        sheets.push_reserved(Vec::with_capacity(alloc, count + 1)?);
    }
    Ok(sheets)
}

// Each answer at the place of its number. Each place gets one.
pub(crate) fn in_order<A: Drop>(
    mut places: Vec<Option<A>>,
    answers: Vec<A>,
    sheets: Vec<Vec<(usize, A)>>,
) -> Vec<A>
    requires inside { All (λ d. d.0 < length places.items) (flat (map vec_items sheets.items)) }
    requires full { All (λ p. IsSome p) (put_at places.items (flat (map vec_items sheets.items))) }
    requires room { (answers.items ≡ []) × (vec_len answers ≡ 0) × (length places.items ≤ vec_capacity answers) }
    ensures { map Some result.items ≡ put_at places.items (flat (map vec_items sheets.items)) }
{
    put_sheets(places.as_mut_slice(), sheets);
    take_all(places, answers)
}

fn put_sheets<A: Drop>(places: &mut [Option<A>], mut sheets: Vec<Vec<(usize, A)>>)
    requires { All (λ d. d.0 < length places.old) (flat (map vec_items sheets.items)) }
    ensures { places.new ≡ put_at places.old (flat (map vec_items sheets.items)) }
{
    while let Some(sheet) = sheets.pop() {
        put_sheet(places, sheet);
    }
}

fn put_sheet<A: Drop>(places: &mut [Option<A>], mut sheet: Vec<(usize, A)>)
    requires { All (λ d. d.0 < length places.old) sheet.items }
    ensures { places.new ≡ put_at places.old sheet.items }
{
    while let Some((at, answer)) = sheet.pop() {
        places[at] = Some(answer);
    }
}

fn take_all<A: Drop>(mut places: Vec<Option<A>>, mut answers: Vec<A>) -> Vec<A>
    requires full { All (λ p. IsSome p) places.items }
    requires room { (answers.items ≡ []) × (vec_len answers ≡ 0) × (length places.items ≤ vec_capacity answers) }
    ensures { map Some result.items ≡ places.items }
{
    while let Some(place) = places.pop() {
        let Some(answer) = place else { unreachable!() };
        answers.push_reserved(answer);
    }
    answers.reverse();
    answers
}
