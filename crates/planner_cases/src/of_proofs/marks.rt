// Going back to an earlier proof.
use super::calls::Call;
use super::looks::{Look, is_seen_over};
use super::queries::PAIRS;
use super::schemas::ACCOUNTS;
use std::test::Fail;

/// A round, two exposures and a round, gone back to behind the first, and the same again.
const SERIES: [Call; 9] = [
    Call::Round(10),
    Call::Expose(0),
    Call::Expose(0),
    Call::Round(10),
    Call::Undo(2),
    Call::Expose(0),
    Call::Expose(0),
    Call::Round(10),
    Call::Undo(2),
];

#[test]
fn an_undo_gives_the_marked_proof(rt: HostRuntime) -> Result<(), Fail> {
    let alloc = rt.alloc();
    let cases = [
        (
            1,
            "done 2; base 0 from 2 at #0 #1; base 1 from 3 at #1 #2; base 0 #0 #1; known k; base 1 #1 #2; base 2 #2 #3; next 4; ",
        ),
        (
            4,
            "done 2; exposed 3; exposed 4; done 5; base 0 from 2 at #0 #1; base 1 from 3 at #1 #2; by 0 0 #0 #1; by 1 1 #1 #2; copy 1 from 4 at #1 #2; base 0 #0 #1; by 0 0 #0 #1; copy 0 #0 #1; known k; base 1 #1 #2; by 1 1 #1 #2; copy 1 #1 #2; known #0; base 2 #2 #3; copy 2 #2 #4; known #1; known #1; known #2; next 5; ",
        ),
        (
            5,
            "done 2; exposed 3; exposed 4; done 5; undone 2; base 0 from 2 at #0 #1; base 1 from 3 at #1 #2; base 0 #0 #1; known k; base 1 #1 #2; base 2 #2 #3; next 4; ",
        ),
        (
            8,
            "done 2; exposed 3; exposed 4; done 5; undone 2; exposed 3; exposed 4; done 5; base 0 from 2 at #0 #1; base 1 from 3 at #1 #2; by 0 0 #0 #1; by 1 1 #1 #2; copy 1 from 4 at #1 #2; base 0 #0 #1; by 0 0 #0 #1; copy 0 #0 #1; known k; base 1 #1 #2; by 1 1 #1 #2; copy 1 #1 #2; known #0; base 2 #2 #3; copy 2 #2 #4; known #1; known #1; known #2; next 5; ",
        ),
        (
            9,
            "done 2; exposed 3; exposed 4; done 5; undone 2; exposed 3; exposed 4; done 5; undone 2; base 0 from 2 at #0 #1; base 1 from 3 at #1 #2; base 0 #0 #1; known k; base 1 #1 #2; base 2 #2 #3; next 4; ",
        ),
    ];
    for (count, wanted) in cases {
        let made = SERIES.get(..count).unwrap_or(&[]);
        assert!(rt;
            is_seen_over(alloc, &ACCOUNTS, &PAIRS, made, Look::All, wanted)?,
            "{wanted}"
        );
    }
    Ok(())
}
