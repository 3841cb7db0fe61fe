// One lane: a worker that draws numbers until one names no item.
ghost use Rattle.std.specs.Prelude.{◌≡◌, ℕ, ◌<◌, ◌≤◌, List, [], ◌∷◌, length, All};
ghost use Rattle.lane_pool.specs.Seats.{view};
ghost use Rattle.lane_pool.specs.Lanes.{IsBlank, LaneDid};

use crate::seats::{Draw, LaneSeat, SharedCounter};
use crate::worker::Worker;
use std::alloc::Global;

// Draws and works until a number names no item, and draws at most one number more than there are items. The sheet takes each
// number that was worked, with its answer.
pub(crate) fn run_lane<I, A, W: Worker<Item = I, Answer = A>>(
    alloc: Global,
    shared: &SharedCounter,
    seat: &mut LaneSeat,
    items: &[I],
    sheet: &mut Vec<(usize, A)>,
    worker: &mut W,
)
    requires table { (seat.old.table_id ≡ shared.now.table_id) × (shared.now.table_id.words ≡ 1) }
    requires seat { (seat.old.me.0.lists ≡ [] ∷ []) × (seat.old.me.1 ≡ []) × (0 < seat.old.me.0.parts) }
    requires ready { All (W.ready worker.old) items.now }
    requires few { length items.now ≤ 1_000_000 }
    requires blank { IsBlank (length items.now) sheet.old }
    ensures table { seat.new.table_id ≡ seat.old.table_id }
    ensures did { (own : List ℕ) × (seat.new.me ≡ (view (own ∷ []) seat.old.me.0.parts, [])) × LaneDid W.did items.now own sheet.new.items worker.old worker.new }
{
    for _ in 0..items.len() + 1 {
        let number = shared.fetch_add::<Draw>(seat, 0, 1);
        if number >= items.len() as u64 {
            return;
        }
        let at = number as usize;
        let answer = worker.work(alloc, &items[at]);
        sheet.push_reserved((at, answer));
    }
}
