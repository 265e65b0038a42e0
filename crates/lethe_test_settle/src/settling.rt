//! Settling, by counting down.

use crate::countdown::count_down;
use lethe_base::Refused;
use std::test::Fail;

/// What is left to be counted, down to which number, and at which number a job is refused, if at one.
type Asked = (u32, u64, Option<u64>);

/// What is answered, what is left then, and how often a job was run.
type Told = (Result<(), Refused>, u64, u64);

/// What counting down comes to.
fn told(asked: Asked) -> Told {
    let (left, to, refused_at) = asked;
    let mut left = u64::from(left);
    let mut runs = 0;
    let result = count_down(&mut left, &mut runs, refused_at, to);
    (result, left, runs)
}

/// In the last two rows the job that would be refused isn't due.
const SETTLED: [(Asked, Told); 7] = [
    ((0, 0, None), (Ok(()), 0, 0)),
    ((1, 0, None), (Ok(()), 0, 1)),
    ((5, 0, None), (Ok(()), 0, 5)),
    ((5, 2, None), (Ok(()), 2, 3)),
    ((2, 5, None), (Ok(()), 2, 0)),
    ((5, 3, Some(3)), (Ok(()), 3, 2)),
    ((0, 0, Some(0)), (Ok(()), 0, 0)),
];

#[test]
fn jobs_are_run_until_none_is_due(rt: HostRuntime) {
    for (asked, wanted) in SETTLED {
        assert_eq!(rt; told(asked), wanted, "{asked:?}");
    }
}

/// Of five jobs the first is refused, the third, and the last.
const REFUSED: [(Asked, Told); 3] = [
    ((5, 0, Some(5)), (Err(Refused::Exhausted { last: 5 }), 5, 1)),
    ((5, 0, Some(3)), (Err(Refused::Exhausted { last: 3 }), 3, 3)),
    ((5, 0, Some(1)), (Err(Refused::Exhausted { last: 1 }), 1, 5)),
];

#[test]
fn a_refusal_is_told_behind_the_jobs_that_were_done(rt: HostRuntime) {
    for (asked, wanted) in REFUSED {
        assert_eq!(rt; told(asked), wanted, "{asked:?}");
    }
}

#[test]
fn jobs_that_are_left_are_run_by_the_next_call(rt: HostRuntime) {
    let mut left = 5;
    let mut runs = 0;
    let refused = count_down(&mut left, &mut runs, Some(3), 0);
    assert_eq!(rt; refused, Err(Refused::Exhausted { last: 3 }));
    assert_eq!(rt; left + runs, 6);
    assert_eq!(rt; count_down(&mut left, &mut runs, None, 0), Ok(()));
    assert_eq!(rt; (left, runs), (0, 6));
}
