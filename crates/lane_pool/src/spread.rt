// The workers, split in two until each part is one lane.
ghost use Rattle.std.specs.Prelude.{◌≡◌, map, vec_items};
ghost use Rattle.std.specs.Thread.{IsSend, IsSync};
ghost use Rattle.lane_pool.specs.Lanes.{MayBegin, Ran};

use crate::lane::run_lane;
use crate::seats::{Halves, LaneSeat, SharedCounter};
use crate::worker::Worker;
use std::alloc::Global;
use std::thread::{Threads, join_mut};

// Runs a lane for each worker, the two halves of the workers at once.
#[cycle(spread)]
pub(crate) fn spread<R: Threads + Sync, I: Sync, A: Send, W: Worker<Item = I, Answer = A>>(
    rt: &R,
    alloc: &Global,
    shared: &SharedCounter,
    items: &[I],
    seat: &mut LaneSeat,
    sheets: &mut [Vec<(usize, A)>],
    workers: &mut [W],
)
    requires table { (seat.old.table_id ≡ shared.now.table_id) × (shared.now.table_id.words ≡ 1) }
    requires begin { MayBegin W.ready items.now seat.old.me sheets.old workers.old }
    ensures table { seat.new.table_id ≡ seat.old.table_id }
    ensures ran { Ran W.did items.now seat.old.me.0.parts (map vec_items sheets.new) workers.old workers.new seat.new.me }
{
    if workers.len() == 1 {
        run_lane(*alloc, shared, seat, items, &mut sheets[0], &mut workers[0]);
        return;
    }
    let mut other = shared.split_seat::<Halves>(seat);
    let mid = workers.len() / 2;
    let (low_sheets, high_sheets) = sheets.split_at_mut(mid);
    let (low, high) = workers.split_at_mut(mid);
    both_halves(
        rt,
        alloc,
        shared,
        items,
        seat,
        low_sheets,
        low,
        &mut other,
        high_sheets,
        high,
    );
    shared.join_seat::<Halves>(seat, other);
}

#[cycle(spread)]
fn both_halves<R: Threads + Sync, I: Sync, A: Send, W: Worker<Item = I, Answer = A>>(
    rt: &R,
    alloc: &Global,
    shared: &SharedCounter,
    items: &[I],
    seat: &mut LaneSeat,
    low_sheets: &mut [Vec<(usize, A)>],
    low: &mut [W],
    other: &mut LaneSeat,
    high_sheets: &mut [Vec<(usize, A)>],
    high: &mut [W],
)
    requires table { (seat.old.table_id ≡ shared.now.table_id) × (other.old.table_id ≡ shared.now.table_id) × (shared.now.table_id.words ≡ 1) }
    requires low { MayBegin W.ready items.now seat.old.me low_sheets.old low.old }
    requires high { MayBegin W.ready items.now other.old.me high_sheets.old high.old }
    ensures table { (seat.new.table_id ≡ seat.old.table_id) × (other.new.table_id ≡ other.old.table_id) }
    ensures low { Ran W.did items.now seat.old.me.0.parts (map vec_items low_sheets.new) low.old low.new seat.new.me }
    ensures high { Ran W.did items.now other.old.me.0.parts (map vec_items high_sheets.new) high.old high.new other.new.me }
{
    let mut front = ||
        requires { IsSync R.row × IsSync I.row × IsSend A.row × IsSend W.row × (seat.now.table_id ≡ shared.now.table_id) × (shared.now.table_id.words ≡ 1) × MayBegin W.ready items.now seat.now.me low_sheets.now low.now }
        ensures { (seat.exit.now.table_id ≡ seat.entry.now.table_id) × Ran W.did items.entry.now seat.entry.now.me.0.parts (map vec_items low_sheets.exit.now) low.entry.now low.exit.now seat.exit.now.me }
    { spread(rt, alloc, shared, items, seat, low_sheets, low) };
    let mut back = ||
        requires { IsSync R.row × IsSync I.row × IsSend A.row × IsSend W.row × (other.now.table_id ≡ shared.now.table_id) × (shared.now.table_id.words ≡ 1) × MayBegin W.ready items.now other.now.me high_sheets.now high.now }
        ensures { (other.exit.now.table_id ≡ other.entry.now.table_id) × Ran W.did items.entry.now other.entry.now.me.0.parts (map vec_items high_sheets.exit.now) high.entry.now high.exit.now other.exit.now.me }
    { spread(rt, alloc, shared, items, other, high_sheets, high) };
    join_mut(rt, &mut front, &mut back);
}
