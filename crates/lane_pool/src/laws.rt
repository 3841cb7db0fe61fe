//! The laws of the counter: what is so after every order of events.
ghost use Rattle.std.specs.Prelude.{◌<◌, ◌≤◌};
ghost use Rattle.lane_pool.specs.Core.{EveryScheduleIsExact};
ghost use Rattle.lane_pool.specs.TableCore.{DrawsAreEvents};

/// After every schedule from a new core, the lanes' drawn numbers are disjoint and together are exactly the numbers below the counter.
#[tactic(auto, using(crate::proofs::Exact::every_schedule))]
pub fn all_schedules(lanes: u32)
    requires { (0 < lanes) × (lanes ≤ 8) }
    ensures { EveryScheduleIsExact lanes }
{}

/// A draw from the word that threads share is a draw of the core, whose counter is the word.
pub fn draws_are_events()
    ensures { DrawsAreEvents }
{}
