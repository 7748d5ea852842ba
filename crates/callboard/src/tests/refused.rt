//! Each run that takes memory, once, and what it answers where a request for memory is refused.
//!
//! A test can have no allocator of its own: a `Global` holds a `Memory` of the runtime, which only the
//! process has. So `./check refusals` runs these tests as built, as it does those of `acceptance`, with the
//! first, the second and each later request refused, one a run. There each of them returns the fault that
//! its call documents, or fails; in the run that meets no refusal, as here, it looks at the right answer.

use super::live::LIVE;
use super::{PLAIN, RunResult, run, run_under};
use auction_terms::Config;
use member_board::OpenGate;
use program_runs::Fault;
use std::alloc::AllocError;
use std::process::Abort;
use std::str::from_utf8;

const DAY: Config = Config {
    low: 1,
    high: 1000,
    reference: 200,
    max_open: 8,
    max_calls: 16,
    range: None,
};

const INPUT: &[u8] = b"1,ask\n1,delete,1\n";

const OUTPUT: &str = "1: no price bid - ask -\n2: refused 5 UnknownOrder\n";

const BOARD_OUTPUT: &str = "\
entries 2
member 0 calls 0
member 1 calls 2
audit legal
1: member 1 no price bid - ask -
2: member 1 refused 5 UnknownOrder
";

/// The run wrote this text, or nothing where it had a fault.
fn wrote<T: Abort>(rt: &T, ran: &RunResult, text: &str) -> Result<(), Fault> {
    let is_right = ran.text() == if ran.answer.is_ok() { text } else { "" };
    assert!(rt; is_right);
    ran.answer.map(|_| ())
}

#[test]
fn a_file_is_run(rt: HostRuntime) -> Result<(), Fault> {
    wrote(
        &rt,
        &run_under(&rt, INPUT, DAY, 4, None::<&OpenGate>),
        OUTPUT,
    )
}

#[test]
fn a_file_is_run_on_a_board(rt: HostRuntime) -> Result<(), Fault> {
    wrote(
        &rt,
        &run_under(&rt, INPUT, DAY, 2, Some(&OpenGate)),
        BOARD_OUTPUT,
    )
}

#[test]
fn the_program_is_served(rt: HostRuntime) -> Result<(), AllocError> {
    let printed = run(&rt, PLAIN, INPUT);
    if printed.status != 0 {
        let told = from_utf8(printed.err.as_slice()).unwrap_or("?");
        assert_eq!(rt; printed.status, 3);
        assert!(rt; printed.out.is_empty());
        // Here the output is kept in memory too, and so its write may fail.
        assert!(rt; told == "out of memory\n" || told == "write failed\n");
        return Err(AllocError);
    }
    assert_eq!(rt; from_utf8(printed.out.as_slice()).unwrap_or("?"), OUTPUT);
    Ok(())
}

#[test]
fn a_session_is_held(rt: HostRuntime) -> Result<(), AllocError> {
    let printed = run(&rt, LIVE, INPUT);
    let out = from_utf8(printed.out.as_slice()).unwrap_or("?");
    if printed.status != 0 {
        let told = from_utf8(printed.err.as_slice()).unwrap_or("?");
        assert_eq!(rt; printed.status, 3);
        assert!(rt; OUTPUT.starts_with(out));
        // Here the output is kept in memory too, and so its write may fail.
        assert!(rt; told == "out of memory\n" || told == "write failed\n");
        return Err(AllocError);
    }
    assert_eq!(rt; out, OUTPUT);
    Ok(())
}
