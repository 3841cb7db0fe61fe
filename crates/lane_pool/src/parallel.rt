// Items worked by several workers at once, each item once.
ghost use Rattle.std.specs.Prelude.{◌≡◌, ◌<◌, ◌≤◌, length, map, All, IfOk, IfErr, vec_items};
ghost use Rattle.lane_pool.specs.Work.{AllReady, FansOut};
ghost use Rattle.lane_pool.specs.Lanes.{IsBlank, LanesEnded};

use crate::gather::{in_order, new_sheets, no_answers};
use crate::seats::Counter;
use crate::spread::spread;
use crate::worker::Worker;
use lists::NoMemory;
use std::alloc::Global;
use std::thread::Threads;

/// Works each item once, by the worker whose lane drew the item's number, and answers in the order of the items. The lanes run at
/// once, in threads of `rt`; one worker alone works the items in their order. All memory is taken before the first item is worked,
/// so a refusal has worked nothing.
pub fn fan_out<R: Threads + Sync, W: Worker>(
    rt: &R,
    alloc: Global,
    workers: &mut [W],
    items: &[W::Item],
) -> Result<Vec<W::Answer>, NoMemory>
where
    W::Item: Sync,
    W::Answer: Send + Drop,
    requires sizes { (0 < length workers.old) × (length workers.old ≤ 8) × (length items.now ≤ 1_000_000) }
    requires ready { AllReady W.ready items.now workers.old }
    ensures fans_out { IfOk result (λ answers. FansOut W.did items.now answers.items workers.old workers.new) }
    ensures refused { IfErr result (λ _. workers.new ≡ workers.old) }
{
    let answers = Vec::with_capacity(alloc, items.len())?;
    let places = no_answers(alloc, items.len())?;
    let sheets = new_sheets(alloc, workers.len(), items.len())?;
    let sheets = run_lanes(rt, alloc, items, sheets, workers)?;
    Ok(in_order(places, answers, sheets))
}

// Runs a lane for each worker on a new counter, which ends with them, and gives the sheets of the lanes.
fn run_lanes<R: Threads + Sync, I: Sync, A: Send + Drop, W: Worker<Item = I, Answer = A>>(
    rt: &R,
    alloc: Global,
    items: &[I],
    mut sheets: Vec<Vec<(usize, A)>>,
    workers: &mut [W],
) -> Result<Vec<Vec<(usize, A)>>, NoMemory>
    requires sizes { (0 < length workers.old) × (length workers.old ≤ 8) × (length items.now ≤ 1_000_000) }
    requires ready { AllReady W.ready items.now workers.old }
    requires len { length sheets.items ≡ length workers.old }
    requires blank { All (IsBlank (length items.now)) sheets.items }
    ensures ended { IfOk result (λ written. LanesEnded W.did items.now (map vec_items written.items) workers.old workers.new) }
    ensures refused { IfErr result (λ _. workers.new ≡ workers.old) }
{
    let (table, mut seat) = Counter::of_words(alloc, &[0], &())?;
    spread(
        rt,
        &alloc,
        &table.shared,
        items,
        &mut seat,
        sheets.as_mut_slice(),
        workers,
    );
    table.close_with(seat).free();
    Ok(sheets)
}
