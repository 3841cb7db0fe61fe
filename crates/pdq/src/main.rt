//! The program: the top call over the files of the system, standard output and standard error.
//!
//! `main` makes the files and the two outputs, and eight lanes whose kind `csv` is a folder of data files and whose kind `world` is a
//! new source of generated rows, and ends with the exit status of `run_words`, which says what the program does.
//! Begin at `main`; `lanes.rt` makes the lanes, and `system_io` has the adapters.
#![tactic(auto)]

ghost use Rattle.std.specs.Prelude.{◌≡◌, List, map, drop, length, IfOk};
ghost use Rattle.std.specs.Iterator.{IsFinite, Drains};
ghost use Rattle.std.specs.String.{string_bytes};
ghost use Rattle.std.specs.Process.{exit_status};
ghost use Rattle.command_io.specs.Status.{code_of};
ghost use Rattle.pdq_core.specs.Runs.{Runs};
ghost use Rattle.pdq.specs.Lanes.{AreLanes};

mod any_source;
mod lanes;

use any_source::AnySource;
use command_io::{Outputs, Outside};
use lanes::{Folder, folders, lanes_over};
use lists::{NoMemory, Text};
use pdq_core::{Status, run_words};
use source_trait::{Files, Lane, Sink, Source};
use std::alloc::Global;
use std::env;
use std::env::Env;
use std::io::ErrorKind;
use std::mem::forget;
use std::process::ExitCode;
use std::thread::Threads;
use system_io::{RealErr, RealFiles, RealOut, System};
use world_source::WorldSource;

fn main(rt: HostRuntime) -> ExitCode {
    let alloc = rt.alloc();
    let mut outside = Outside {
        files: RealFiles::new(System::new(rt)),
        outputs: Outputs {
            out: RealOut::new(rt.stdout()),
            err: RealErr::new(rt.stderr()),
        },
    };
    let Ok(words) = words_of(&rt) else {
        return want_of_memory(&mut outside.outputs.err);
    };
    let Ok(folders) = folders(alloc, rt) else {
        return want_of_memory(&mut outside.outputs.err);
    };
    let Ok(mut lanes) = lanes_over(alloc, folders) else {
        return want_of_memory(&mut outside.outputs.err);
    };
    let words = words.as_slice();
    let status = run_on_lanes(&rt, alloc, words, &mut outside, &mut lanes);
    // the rows are not freed one by one: the system takes them back with the process
    forget(lanes);
    exit(status)
}

// The top call, which the program makes over eight lanes alone, each with a folder of data files and a new generator.
fn run_on_lanes<R: Threads + Sync, F: Files, O: Sink, E: Sink>(
    rt: &R,
    alloc: Global,
    words: &[Text],
    outside: &mut Outside<F, O, E>,
    lanes: &mut Vec<Lane<AnySource<Folder, WorldSource>>>,
) -> Status
    requires eight { length lanes.old.items ≡ 8 }
    requires lanes { AreLanes ⟦<AnySource<Folder, WorldSource> as Source>⟧.seen lanes.old.items }
    ensures { Runs ⟦<AnySource<Folder, WorldSource> as Source>⟧.seen words.now outside.old outside.new lanes.old.items lanes.new.items result }
{
    run_words(rt, alloc, words, outside, lanes)
}

// The exit status of the program.
fn exit(status: Status) -> ExitCode
    ensures { exit_status result ≡ code_of status }
{
    ExitCode::from(status.code())
}

// The words after the program's name. Where one of them is not UTF-8 there are no words, which are no command.
fn words_of<R: Env + AllocGlobal>(rt: &R) -> Result<Vec<Text>, NoMemory> {
    match env::args(rt) {
        Ok(all) => words_after_first(rt.alloc(), all),
        Err(fault) if fault.kind() == ErrorKind::OutOfMemory => Err(NoMemory),
        Err(_) => Ok(Vec::new(rt.alloc())),
    }
}

// All words but the first, in order.
fn words_after_first<I: Iterator<Item = String> + Drop>(
    alloc: Global,
    all: I,
) -> Result<Vec<Text>, NoMemory>
    requires can { I.can_next all }
    requires ends { IsFinite (I.remaining all) }
    ensures { IfOk result (λ words. (list : List _) × Drains I.next_gives all list × (words.items ≡ map string_bytes (drop 1 list))) }
{
    let mut words = Vec::new(alloc);
    let mut is_first = true;
    for word in all {
        if is_first {
            is_first = false;
        } else {
            words.push(Text::from_string(word)?)?;
        }
    }
    Ok(words)
}

// The answer where the program finds no memory before the top call.
fn want_of_memory(err: &mut RealErr) -> ExitCode
    ensures { exit_status result ≡ 8 }
{
    // where this line is not taken whole, nothing more can be said
    let _taken = err.write(b"out of memory\n");
    exit(Status::Memory)
}
