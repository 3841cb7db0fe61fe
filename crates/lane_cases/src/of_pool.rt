// What no clause says: that the lanes run at once, that calls succeed, and what the definitions give on a few events.
use lane_pool::{Draws, Event, Worker, fan_out};
use std::alloc::Global;
use std::sync::atomic::{AtomicU64, Ordering};
use std::test::*;

#[test]
fn five_events(rt: HostRuntime) -> Result<(), Fail> {
    let mut draws = Draws::new(rt.alloc(), 2, 3)?;
    assert_eq!(rt; draws.step(Event::Draw { lane: 0 }), Some(0));
    assert_eq!(rt; draws.step(Event::Draw { lane: 1 }), Some(1));
    assert_eq!(rt; draws.step(Event::Draw { lane: 1 }), Some(2));
    assert_eq!(rt; draws.step(Event::Done { lane: 1, number: 1 }), None);
    assert_eq!(rt; draws.step(Event::Draw { lane: 0 }), Some(3));
    assert_eq!(rt; draws.drawn(0), [0, 3].as_slice());
    assert_eq!(rt; draws.drawn(1), [1, 2].as_slice());
    Ok(())
}

// Raises a shared count, or looks at it until the three other items have raised it.
#[derive(Drop)]
struct Looker<'a> {
    raised: &'a AtomicU64,
}

#[derive(Drop)]
struct Task {
    looks: bool,
}

impl<'a> Worker for Looker<'a> {
    type Item = Task;

    type Answer = bool;

    ghost ready = { λ _ _. Unit {0} };

    ghost did = { λ _ _ _ _. Unit {0} };

    fn work(&mut self, _alloc: Global, item: &Task) -> bool {
        if !item.looks {
            self.raised.fetch_add(1, Ordering::SeqCst);
            return true;
        }
        for _ in 0..200_000_000u64 {
            if self.raised.load(Ordering::SeqCst) >= 3 {
                return true;
            }
        }
        false
    }
}

// In run k the item k waits for the three others. So two workers run at once, and the free one takes the next items by draws.
#[test]
fn a_free_lane_takes_the_items_of_a_busy_one(rt: HostRuntime) -> Result<(), Fail> {
    for k in 0..4u64 {
        let raised = AtomicU64::new(0);
        let mut workers = [Looker { raised: &raised }, Looker { raised: &raised }];
        let items = [
            Task { looks: k == 0 },
            Task { looks: k == 1 },
            Task { looks: k == 2 },
            Task { looks: k == 3 },
        ];
        let seen = fan_out(&rt, rt.alloc(), &mut workers, &items)?;
        assert_eq!(rt; seen.len(), 4);
        for saw in &seen {
            assert!(rt; *saw);
        }
    }
    Ok(())
}

// Adds the items up, and answers the sum so far.
#[derive(Drop)]
struct Adder {
    sum: u64,
}

impl Worker for Adder {
    type Item = u32;

    type Answer = u64;

    ghost use Rattle.std.specs.Prelude.{◌≡◌, ◌+◌, ◌%◌, ◌^◌};

    ghost ready = { λ _ _. Unit {0} };

    ghost did = { λ v x a w. (w.sum ≡ (v.sum + x) % 2 ^ 64) × (a ≡ w.sum) };

    fn work(&mut self, _alloc: Global, item: &u32) -> u64 {
        self.sum = self.sum.wrapping_add(u64::from(*item));
        self.sum
    }
}

#[test]
fn one_worker_works_in_order(rt: HostRuntime) -> Result<(), Fail> {
    let mut workers = [Adder { sum: 0 }];
    let sums = fan_out(&rt, rt.alloc(), &mut workers, &[1, 2, 3, 4])?;
    assert_eq!(rt; sums.as_slice(), [1, 3, 6, 10].as_slice());
    Ok(())
}

#[test]
fn eight_workers_work_each_item_once(rt: HostRuntime) -> Result<(), Fail> {
    let mut workers = [
        Adder { sum: 0 },
        Adder { sum: 0 },
        Adder { sum: 0 },
        Adder { sum: 0 },
        Adder { sum: 0 },
        Adder { sum: 0 },
        Adder { sum: 0 },
        Adder { sum: 0 },
    ];
    let items = [1u32; 1000];
    let sums = fan_out(&rt, rt.alloc(), &mut workers, &items)?;
    assert_eq!(rt; sums.len(), 1000);
    let mut all = 0u64;
    for w in &workers {
        all = all.wrapping_add(w.sum);
    }
    assert_eq!(rt; all, 1000);
    Ok(())
}
