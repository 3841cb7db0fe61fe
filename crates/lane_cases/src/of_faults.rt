// Runs over sources in memory in which a call of the outside fails: the exit code and all bytes of both outputs.
use crate::office::{
    Faults, NO_FAULTS, PLAN, ROWS, RUN, are_first_then, asked, office, one_lane, outside,
    profiles_alone, ran, source, tables,
};
use command_io::{Outputs, Outside};
use source_trait::{Lane, MemoryFiles, MemorySink, Sink, SinkFault, Source, Tables, Untold};
use std::alloc::Global;
use std::test::Fail;
use std::thread::Threads;

/// How a run has to end: its exit code, how many first bytes of the rows and of the plan's text the outputs take, the line behind the
/// latter, and how many requests are asked.
#[derive(Clone, Copy)]
struct Wanted {
    code: u8,
    rows: usize,
    plan: usize,
    line: &'static str,
    asked: usize,
}

fn took(outputs: &Outputs<MemorySink, MemorySink>, wanted: Wanted) -> bool {
    are_first_then(outputs.out.bytes(), ROWS, wanted.rows, "")
        && are_first_then(outputs.err.bytes(), PLAN, wanted.plan, wanted.line)
}

/// How many requests the first source of the only lane was asked.
fn asked_of_one<S: Source>(lanes: &[Lane<S>]) -> usize {
    match lanes {
        [lane] => match lane.kinds.as_slice() {
            [kind, ..] => asked(kind),
            [] => 0,
        },
        _ => 0,
    }
}

/// Whether a run over the source ends so.
fn ends_over<R: Threads + Sync, S: Source + Send + Drop>(
    rt: &R,
    alloc: Global,
    object: S,
    faults: Faults,
    wanted: Wanted,
) -> Result<bool, Fail> {
    let mut lanes = one_lane(alloc, object)?;
    let mut outside = outside(alloc, faults)?;
    let code = ran(rt, alloc, &RUN, &mut outside, &mut lanes)?;
    Ok(
        code == wanted.code
            && asked_of_one(lanes.as_slice()) == wanted.asked
            && took(&outside.outputs, wanted),
    )
}

/// Whether a run over the office with these faults ends so.
fn ends<R: Threads + Sync>(
    rt: &R,
    alloc: Global,
    faults: Faults,
    wanted: Wanted,
) -> Result<bool, Fail> {
    let object = office(alloc, faults)?;
    ends_over(rt, alloc, object, faults, wanted)
}

/// Whether a run with these faults ends with a line behind the plan's text, and so many requests asked.
fn stops<R: Threads + Sync>(
    rt: &R,
    alloc: Global,
    faults: Faults,
    line: &'static str,
    asked: usize,
) -> Result<bool, Fail> {
    let wanted = Wanted {
        code: 5,
        rows: 0,
        plan: PLAN.len(),
        line,
        asked,
    };
    ends(rt, alloc, faults, wanted)
}

#[test]
fn a_run_without_a_fault(rt: HostRuntime) -> Result<(), Fail> {
    let wanted = Wanted {
        code: 0,
        rows: 21,
        plan: 125,
        line: "",
        asked: 3,
    };
    assert_eq!(rt; ROWS.len(), 21);
    assert_eq!(rt; PLAN.len(), 125);
    assert!(rt; ends(&rt, rt.alloc(), NO_FAULTS, wanted)?);
    Ok(())
}

/// Whether a run in which a read of a file fails ends with the line alone.
fn read_fails<R: Threads + Sync>(
    rt: &R,
    alloc: Global,
    read: u64,
    line: &'static str,
) -> Result<bool, Fail> {
    let wanted = Wanted {
        code: 5,
        rows: 0,
        plan: 0,
        line,
        asked: 0,
    };
    ends(rt, alloc, Faults { read, ..NO_FAULTS }, wanted)
}

#[test]
fn a_failed_read_of_a_file(rt: HostRuntime) -> Result<(), Fail> {
    assert!(rt; read_fails(&rt, rt.alloc(), 1, "read s.pdq: failed\n")?);
    assert!(rt; read_fails(&rt, rt.alloc(), 2, "read q.sql: failed\n")?);
    Ok(())
}

/// Whether a run in which a write of the plan's text fails ends behind the bytes before it, and attaches nothing: the first attach would
/// fail.
fn plan_write_fails<R: Threads + Sync>(rt: &R, alloc: Global, before: usize) -> Result<bool, Fail> {
    let wanted = Wanted {
        code: 6,
        rows: 0,
        plan: before,
        line: "write failed\n",
        asked: 0,
    };
    let faults = Faults {
        err: (before as u64).saturating_add(1),
        attach: 1,
        ..NO_FAULTS
    };
    ends(rt, alloc, faults, wanted)
}

#[test]
fn each_failed_write_to_standard_error(rt: HostRuntime) -> Result<(), Fail> {
    for before in 0..125usize {
        assert!(rt;
            plan_write_fails(&rt, rt.alloc(), before)?,
            "behind {before} bytes"
        );
    }
    Ok(())
}

// No request is asked behind a failed attach: the first call would fail.
#[test]
fn a_failed_attach(rt: HostRuntime) -> Result<(), Fail> {
    for (attach, line) in [
        (1, "source profinfo: failed\n"),
        (2, "source udirect: failed\n"),
    ] {
        let faults = Faults {
            attach,
            call: 1,
            ..NO_FAULTS
        };
        assert!(rt; stops(&rt, rt.alloc(), faults, line, 0)?, "attach {attach}");
    }
    Ok(())
}

// A request that fails is noted too. The one behind it is not asked.
#[test]
fn a_failed_call(rt: HostRuntime) -> Result<(), Fail> {
    for (call, line, asked) in [
        (1, "call failed in branch 1 step 1\n", 1),
        (2, "call failed in branch 1 step 2\n", 2),
        (3, "call failed in branch 1 step 2\n", 3),
    ] {
        let faults = Faults { call, ..NO_FAULTS };
        assert!(rt; stops(&rt, rt.alloc(), faults, line, asked)?, "call {call}");
    }
    Ok(())
}

/// Whether a run in which a write of the rows fails ends behind the bytes before it.
fn row_write_fails<R: Threads + Sync>(rt: &R, alloc: Global, before: usize) -> Result<bool, Fail> {
    let wanted = Wanted {
        code: 6,
        rows: before,
        plan: 125,
        line: "write failed\n",
        asked: 3,
    };
    let faults = Faults {
        out: (before as u64).saturating_add(1),
        ..NO_FAULTS
    };
    ends(rt, alloc, faults, wanted)
}

#[test]
fn each_failed_write_to_standard_output(rt: HostRuntime) -> Result<(), Fail> {
    for before in 0..21usize {
        assert!(rt;
            row_write_fails(&rt, rt.alloc(), before)?,
            "behind {before} bytes"
        );
    }
    Ok(())
}

// The first in the order of a run decides: a read before the line that reports it, an attach before a call, and a call before its line.
// A line of which the first write fails is lost.
#[test]
fn the_first_of_two_faults_decides(rt: HostRuntime) -> Result<(), Fail> {
    let nothing = Wanted {
        code: 5,
        rows: 0,
        plan: 0,
        line: "",
        asked: 0,
    };
    let read = Faults {
        read: 2,
        err: 1,
        ..NO_FAULTS
    };
    assert!(rt; ends(&rt, rt.alloc(), read, nothing)?);
    let attach = Faults {
        attach: 1,
        call: 1,
        ..NO_FAULTS
    };
    assert!(rt; stops(&rt, rt.alloc(), attach, "source profinfo: failed\n", 0)?);
    let call = Faults {
        call: 1,
        err: 126,
        ..NO_FAULTS
    };
    assert!(rt; stops(&rt, rt.alloc(), call, "", 1)?);
    Ok(())
}

/// Whether a run over a source of the tables that tells nothing ends so.
fn ends_untold<R: Threads + Sync>(
    rt: &R,
    alloc: Global,
    tables: Tables,
    wanted: Wanted,
) -> Result<bool, Fail> {
    let inner = source(alloc, tables, NO_FAULTS)?;
    ends_over(rt, alloc, Untold::new(inner), NO_FAULTS, wanted)
}

// The contract of a run says nothing of its rows where the source tells nothing. No request is told either.
#[test]
fn a_source_that_tells_nothing(rt: HostRuntime) -> Result<(), Fail> {
    let wanted = Wanted {
        code: 0,
        rows: 21,
        plan: 125,
        line: "",
        asked: 0,
    };
    assert!(rt; ends_untold(&rt, rt.alloc(), tables(rt.alloc())?, wanted)?);
    Ok(())
}

#[test]
fn a_source_that_tells_nothing_without_a_table(rt: HostRuntime) -> Result<(), Fail> {
    let wanted = Wanted {
        code: 5,
        rows: 0,
        plan: 125,
        line: "source udirect: missing\n",
        asked: 0,
    };
    assert!(rt; ends_untold(&rt, rt.alloc(), profiles_alone(rt.alloc())?, wanted)?);
    Ok(())
}

// A sink that notes whether it was handed an empty piece.
#[derive(Drop)]
struct Noting<K> {
    own: K,
    empty: bool,
}

impl<K: Sink + Drop> Sink for Noting<K> {
    ghost taken = { λ n. K.taken n.own };

    ghost faults = { λ n. K.faults n.own };

    fn write(&mut self, piece: &[u8]) -> Result<usize, SinkFault> {
        self.empty |= piece.is_empty();
        self.own.write(piece)
    }
}

/// The office's files, and two sinks that note an empty piece.
fn outside_noting(
    alloc: Global,
) -> Result<Outside<MemoryFiles, Noting<MemorySink>, Noting<MemorySink>>, Fail> {
    let Outside { files, outputs } = outside(alloc, NO_FAULTS)?;
    let Outputs { out, err } = outputs;
    Ok(Outside {
        files,
        outputs: Outputs {
            out: Noting {
                own: out,
                empty: false,
            },
            err: Noting {
                own: err,
                empty: false,
            },
        },
    })
}

/// How many bytes a command over the office writes to standard output; 0 where it does not do its work or writes an empty piece.
fn written<R: Threads + Sync>(rt: &R, alloc: Global, words: &[&str]) -> Result<usize, Fail> {
    let object = office(alloc, NO_FAULTS)?;
    let mut lanes = one_lane(alloc, object)?;
    let mut outside = outside_noting(alloc)?;
    let code = ran(rt, alloc, words, &mut outside, &mut lanes)?;
    let outputs = &outside.outputs;
    if code != 0 || outputs.out.empty || outputs.err.empty {
        return Ok(0);
    }
    Ok(outputs.out.own.bytes().len())
}

// The rows, a header without rows, and the words of a command that plans nothing.
#[test]
fn no_empty_piece(rt: HostRuntime) -> Result<(), Fail> {
    assert_eq!(rt; written(&rt, rt.alloc(), &RUN)?, 21);
    assert_eq!(rt; written(&rt, rt.alloc(), &["run", "s.pdq", "none.sql"])?, 9);
    assert!(rt; written(&rt, rt.alloc(), &["help"])? > 0);
    Ok(())
}

/// The words of a run of the query with the rules tested first.
const VERIFY: [&str; 4] = ["run", "s.pdq", "q.sql", "--verify"];

/// Whether such a run with these faults ends with a line behind the plan's text, and so many requests asked.
fn verified_stops<R: Threads + Sync>(
    rt: &R,
    alloc: Global,
    faults: Faults,
    line: &'static str,
    asked: usize,
) -> Result<bool, Fail> {
    let wanted = Wanted {
        code: 5,
        rows: 0,
        plan: PLAN.len(),
        line,
        asked,
    };
    let object = office(alloc, faults)?;
    let mut lanes = one_lane(alloc, object)?;
    let mut outside = outside(alloc, faults)?;
    let code = ran(rt, alloc, &VERIFY, &mut outside, &mut lanes)?;
    Ok(
        code == wanted.code
            && asked_of_one(lanes.as_slice()) == wanted.asked
            && took(&outside.outputs, wanted),
    )
}

/// The first two calls ask the relations whole, in ascending order, and the third is the plan's first.
#[test]
fn a_failed_request_for_a_whole_relation(rt: HostRuntime) -> Result<(), Fail> {
    for (call, line) in [
        (1, "call failed on profinfo\n"),
        (2, "call failed on udirect\n"),
        (3, "call failed in branch 1 step 1\n"),
    ] {
        let faults = Faults { call, ..NO_FAULTS };
        assert!(rt;
            verified_stops(&rt, rt.alloc(), faults, line, call as usize)?,
            "call {call}"
        );
    }
    Ok(())
}
