// Which exposures are active, and which values are known.
use super::calls::Call;
use super::looks::{Look, is_seen_over};
use super::queries::{NEW_CONSTANT, TWO_PAIRS};
use super::schemas::TWO_WAYS;
use std::test::Fail;

#[test]
fn exposures_are_listed_once(rt: HostRuntime) -> Result<(), Fail> {
    let alloc = rt.alloc();
    let calls = [
        Call::Expose(0),
        Call::Expose(0),
        Call::Undo(1),
        Call::Undo(0),
    ];
    let cases = [
        "by 0 0 k #0; by 1 0 k #0; by 1 0 #0 #1; goes on; none",
        "exposed 1; by 0 0 #0 #1; by 1 0 #0 #1; goes on; none",
        "exposed 1; exposed 2; rests; found",
        "exposed 1; exposed 2; undone 1; by 0 0 #0 #1; by 1 0 #0 #1; goes on; none",
        "exposed 1; exposed 2; undone 1; undone 0; by 0 0 k #0; by 1 0 k #0; by 1 0 #0 #1; goes on; none",
    ];
    for (count, wanted) in cases.iter().enumerate() {
        let made = calls.get(..count).unwrap_or(&[]);
        assert!(rt;
            is_seen_over(alloc, &TWO_WAYS, &TWO_PAIRS, made, Look::Open, wanted)?,
            "{wanted}"
        );
    }
    Ok(())
}

#[test]
fn values_are_known_until_an_undo(rt: HostRuntime) -> Result<(), Fail> {
    let alloc = rt.alloc();
    let calls = [Call::Expose(0), Call::Undo(0), Call::Expose(0)];
    let cases = [
        "base --; base -+; ",
        "exposed 1; base exposed copy ++; base ++; ",
        "exposed 1; undone 0; base --; base -+; ",
        "exposed 1; undone 0; exposed 1; base exposed copy ++; base ++; ",
    ];
    for (count, wanted) in cases.iter().enumerate() {
        let made = calls.get(..count).unwrap_or(&[]);
        assert!(rt;
            is_seen_over(alloc, &TWO_WAYS, &NEW_CONSTANT, made, Look::Places, wanted)?,
            "{wanted}"
        );
    }
    Ok(())
}
