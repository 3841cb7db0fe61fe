// Rounds, their answers and their logs.
use super::calls::Call;
use super::looks::{Look, is_seen, is_seen_over};
use super::queries::{PAIRS, SMITHS};
use super::schemas::{LEVELS, STAFF, tree};
use std::alloc::Global;
use std::test::Fail;

/// Whether these are the answers of the calls over the tree.
fn is_answered_in_tree(alloc: Global, calls: &[Call], wanted: &str) -> Result<bool, Fail> {
    let schema = tree(alloc, &LEVELS)?;
    is_seen(alloc, &schema, &PAIRS, calls, Look::Answers, wanted)
}

#[test]
fn rounds_within_a_budget(rt: HostRuntime) -> Result<(), Fail> {
    let alloc = rt.alloc();
    let cases = [
        (0, "spent 0; spent 0; spent 0; spent 0; "),
        (1, "spent 1; spent 1; spent 1; spent 1; "),
        (2, "done 1; spent 2; spent 2; spent 2; "),
        (3, "done 1; done 2; done 3; quiet 3; "),
    ];
    for (budget, wanted) in cases {
        let calls = [Call::Round(budget); 4];
        assert!(rt;
            is_seen_over(alloc, &STAFF, &SMITHS, &calls, Look::Answers, wanted)?,
            "{wanted}"
        );
    }
    Ok(())
}

#[test]
fn logs_of_two_and_of_three_firings(rt: HostRuntime) -> Result<(), Fail> {
    let alloc = rt.alloc();
    let cases = [
        (
            2,
            "done 1; spent 2; spent 2; base 0 from 2 at #0 #1 smith; by 1 1 #0 smith; base 0 #0 #1 smith; by 1 1 #0 smith; copy 1 #0 smith; known k; base 1 #0 smith; known #0; known smith; next 2; ",
        ),
        (
            3,
            "done 1; done 2; done 3; base 0 from 2 at #0 #1 smith; by 1 1 #0 smith; by 0 0 #0 #1 smith; base 0 #0 #1 smith; by 1 1 #0 smith; copy 1 #0 smith; known k; base 1 #0 smith; by 0 0 #0 #1 smith; copy 0 #0 #1 smith; known #0; known smith; known #0; known #1; known smith; next 2; ",
        ),
    ];
    for (budget, wanted) in cases {
        let calls = [Call::Round(budget); 3];
        assert!(rt;
            is_seen_over(alloc, &STAFF, &SMITHS, &calls, Look::All, wanted)?,
            "{wanted}"
        );
    }
    Ok(())
}

#[test]
fn rounds_until_nothing_is_active(rt: HostRuntime) -> Result<(), Fail> {
    let alloc = rt.alloc();
    let calls = [Call::Round(3); 3];
    let cases = [
        "goes on; none",
        "done 1; by 1 1 #0 smith; goes on; none",
        "done 1; done 2; by 0 0 #0 #1 smith; goes on; none",
        "done 1; done 2; done 3; rests; found",
    ];
    for (count, wanted) in cases.iter().enumerate() {
        let made = calls.get(..count).unwrap_or(&[]);
        assert!(rt;
            is_seen_over(alloc, &STAFF, &SMITHS, made, Look::Open, wanted)?,
            "{wanted}"
        );
    }
    Ok(())
}

#[test]
fn many_firings_are_spent_and_undone(rt: HostRuntime) -> Result<(), Fail> {
    let alloc = rt.alloc();
    let calls = [
        Call::Round(30_000),
        Call::Undo(16_383),
        Call::Round(30_000),
        Call::Undo(0),
        Call::Round(1),
    ];
    let wanted = "spent 30000; undone 16383; spent 30000; undone 0; spent 1; ";
    assert!(rt; is_answered_in_tree(alloc, &calls, wanted)?);
    Ok(())
}
