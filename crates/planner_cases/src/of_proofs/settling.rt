// Firing the rules of one kind.
use super::calls::Call;
use super::looks::{Look, is_seen_over};
use super::queries::PAIRS;
use super::schemas::ACCOUNTS;
use std::test::Fail;

#[test]
fn a_settled_copy_answers_the_query(rt: HostRuntime) -> Result<(), Fail> {
    let alloc = rt.alloc();
    let calls = [
        Call::Settle(0),
        Call::Settle(1),
        Call::Settle(10),
        Call::Expose(0),
    ];
    let wanted =
        "spent 0; spent 1; quiet 2; exposed 3; quiet; base 0 from 2 at #0 #1; base 1 from 3 at #1 #2; by 0 0 #0 #1; copy 0 from 4 at #0 #1; copy 1 from 5 at #1 #4; found";
    assert!(rt;
        is_seen_over(
            alloc,
            &ACCOUNTS,
            &PAIRS,
            &calls,
            Look::Settled([1, 4]),
            wanted
        )?
    );
    Ok(())
}
