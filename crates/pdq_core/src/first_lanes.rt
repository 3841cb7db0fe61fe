// The commands that execute a plan or crawl, on the first lanes: as many as there are workers, or all where there are fewer.
ghost use Rattle.std.specs.Prelude.{◌≡◌, ◌≤◌, ◌++◌, take, drop, length};
ghost use Rattle.std.specs.Borrow.{sem, LendsBoth, Array};
ghost use Rattle.source_trait.specs.Lanes.{LanesStay};
ghost use Rattle.command_io.specs.Moments.{Stays};
ghost use Rattle.run_command.specs.World.{WorldEnds};
ghost use Rattle.pdq_core.specs.Tasks.{IsWithin, TaskEnds};

use batch_command::run_batch;
use command_io::{Outcome, Outputs, Outside, Stop};
use command_words::Task;
use crawl_command::{crawl_schema, reach_query};
use exec_command::exec_plan;
use run_command::{Limits, Settings, run_query, run_world};
use source_trait::{Files, Lane, Sink, Source};
use std::alloc::Global;
use std::thread::Threads;

/// A task on the first lanes. Those behind stay.
pub fn task_on_first<R: Threads + Sync, F: Files, S: Source + Send + Drop, O: Sink, E: Sink>(
    rt: &R,
    alloc: Global,
    task: Task<'_>,
    workers: u32,
    calls: u32,
    outside: &mut Outside<F, O, E>,
    lanes: &mut Vec<Lane<S>>,
) -> Result<Outcome, Stop>
    requires within { IsWithin task }
    requires workers { workers ≤ 8 }
    requires calls { calls ≤ 1_000_000 }
    ensures ends { TaskEnds S.seen task.entry calls outside.old outside.new
        (take workers lanes.old.items) (take workers lanes.new.items) result }
    ensures behind { drop workers lanes.new.items ≡ drop workers lanes.old.items }
    ensures stays { Stays outside.old outside.new }
    ensures lanes { LanesStay S.seen lanes.old.items lanes.new.items }
{
    let (used, _behind) = first_and_behind(lanes.as_mut_slice(), workers as usize);
    carry_out(rt, alloc, task, calls, outside, used)
}

// A task on all of these lanes, of which there are at most 8.
fn carry_out<R: Threads + Sync, F: Files, S: Source + Send + Drop, O: Sink, E: Sink>(
    rt: &R,
    alloc: Global,
    task: Task<'_>,
    calls: u32,
    outside: &mut Outside<F, O, E>,
    lanes: &mut [Lane<S>],
) -> Result<Outcome, Stop>
    requires within { IsWithin task }
    requires calls { calls ≤ 1_000_000 }
    requires lanes { length lanes.old ≤ 8 }
    ensures ends { TaskEnds S.seen task.entry calls outside.old outside.new lanes.old lanes.new result }
    ensures stays { Stays outside.old outside.new }
    ensures lanes { LanesStay S.seen lanes.old lanes.new }
{
    match task {
        Task::Run {
            schema,
            query,
            firings,
            search,
            verify,
        } => {
            let limits = Limits {
                firings,
                search,
                calls,
            };
            let settings = Settings { limits, verify };
            run_query(rt, alloc, schema, query, settings, outside, lanes)
        }
        Task::Batch {
            schema,
            queries,
            firings,
            search,
        } => {
            let limits = Limits {
                firings,
                search,
                calls,
            };
            run_batch(rt, alloc, schema, queries, limits, outside, lanes)
        }
        Task::Exec { schema, plan } => exec_plan(rt, alloc, schema, plan, calls, outside, lanes),
        Task::Crawl { schema } => crawl_schema(rt, alloc, schema, calls, outside, lanes),
        Task::Reach { schema, query } => reach_query(
            rt, alloc, schema, query, calls, outside, lanes,
        ),
    }
}

/// `world` on the first lanes. Those behind stay.
pub fn world_on_first<R: Threads + Sync, S: Source + Send + Drop, O: Sink, E: Sink>(
    rt: &R,
    alloc: Global,
    size: u32,
    workers: u32,
    outputs: &mut Outputs<O, E>,
    lanes: &mut Vec<Lane<S>>,
) -> Result<Outcome, Stop>
    requires small { size ≤ 10000 }
    requires workers { workers ≤ 8 }
    ensures ends { WorldEnds S.seen size outputs.old outputs.new (take workers lanes.old.items) (take workers lanes.new.items) result }
    ensures behind { drop workers lanes.new.items ≡ drop workers lanes.old.items }
    ensures lanes { LanesStay S.seen lanes.old.items lanes.new.items }
    ensures later_out { outputs.old.out_faults ≤ outputs.new.out_faults }
    ensures later_err { outputs.old.err_faults ≤ outputs.new.err_faults }
{
    let (used, _behind) = first_and_behind(lanes.as_mut_slice(), workers as usize);
    run_world(rt, alloc, size, outputs, used)
}

// The first of the items, so many or all where there are fewer, and those behind them.
fn first_and_behind<T>(items: &mut [T], count: usize) -> (&mut [T], &mut [T])
    ensures* writes_back { sem 𝓛 (LendsBoth (Array T.row 0) (Array T.row 0) (Array T.row 0) items.entry result ◌++◌) }
    ensures first { result.0.now ≡ take count items.old }
    ensures behind { result.1.now ≡ drop count items.old }
{
    let count = items.len().min(count);
    items.split_at_mut(count)
}
