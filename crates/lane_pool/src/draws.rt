// The counter without threads: which numbers each lane drew, and which of them are done.
ghost use Rattle.std.specs.Prelude.{◌≡◌, ◌<◌, ◌≤◌, IfOk, length};
ghost use Rattle.lane_pool.specs.Core.{Core, lane_at, fresh, after, answer, MayCome, HasRoom, idle};
ghost use Rattle.lane_pool.specs.Fields.{lane_of, core_of, IsRoomy, IsKept};

use lists::NoMemory;
use std::alloc::Global;
use std::marker::Model;

/// A lane draws a number, or is done with one that it drew. Lanes and numbers count from 0.
#[derive(Clone, Copy)]
pub enum Event {
    Draw { lane: u32 },
    Done { lane: u32, number: u64 },
}

#[derive(Drop)]
struct LaneNumbers {
    drawn: Vec<u64>,
    done: Vec<u64>,
}

impl LaneNumbers {
    fn new(alloc: Global, room: usize) -> Result<LaneNumbers, NoMemory>
        ensures { IfOk result (λ l. (lane_of l ≡ idle) × IsRoomy room l) }
    {
        Ok(LaneNumbers {
            drawn: Vec::with_capacity(alloc, room)?,
            done: Vec::with_capacity(alloc, room)?,
        })
    }
}

/// A counter, and for each lane the numbers that it drew and those that are done. Contracts see it as the record `Core`.
/// After any events the lanes' drawn numbers are just those below the counter, each drawn once.
#[derive(Drop)]
pub struct Draws {
    counter: u64,
    room: u64,
    lanes: Vec<LaneNumbers>,
}

impl Model for Draws {
    ghost Value = { Core };

    ghost view = { λ d. core_of d.counter d.room d.lanes.items };

    ghost invariant = { λ d. IsKept d.counter d.room d.lanes.items };
}

impl Draws {
    /// A counter at 0, with room for one draw more on each lane than there are items.
    pub fn new(alloc: Global, lanes: u32, items: u32) -> Result<Draws, NoMemory>
        requires { (0 < lanes) × (lanes ≤ 8) × (items ≤ 1_000_000) }
        ensures { IfOk result (λ d. d ≡ fresh lanes items) }
    {
        let room = items as usize + lanes as usize;
        let mut all = Vec::with_capacity(alloc, lanes as usize)?;
        for _ in 0..lanes {
            all.push_reserved(LaneNumbers::new(alloc, room)?);
        }
        Ok(Draws {
            counter: 0,
            room: room as u64,
            lanes: all,
        })
    }

    /// Takes the event, and answers the number that was drawn; none where a number is done. Takes no memory.
    pub fn step(&mut self, event: Event) -> Option<u64>
        requires may_come { MayCome self.old event }
        requires room { HasRoom self.old event }
        ensures core { self.new ≡ after self.old event }
        ensures answer { result ≡ answer self.old event }
    {
        match event {
            Event::Draw { lane } => {
                let number = self.counter;
                self.lanes[lane as usize].drawn.push_reserved(number);
                self.counter += 1;
                Some(number)
            }
            Event::Done { lane, number } => {
                self.lanes[lane as usize].done.push_reserved(number);
                None
            }
        }
    }

    /// The numbers that a lane drew, in order.
    pub fn drawn(&self, lane: u32) -> &[u64]
        requires { lane < length self.now.lanes }
        ensures { result.now ≡ (lane_at self.now.lanes lane).drawn }
    {
        self.lanes[lane as usize].drawn.as_slice()
    }
}
