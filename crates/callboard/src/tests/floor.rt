//! Members that call at once on a board.

use super::{PLAIN, Row, SHOWN, each_gives, run_under};
use auction::OpenFault;
use auction_terms::Config;
use member_board::{Gate, OpenGate};
use order_file::FileFault;
use program_runs::{Fault, Finish};
use std::sync::Wait;
use std::sync::atomic::Ordering::SeqCst;
use std::sync::atomic::{AtomicBool, AtomicUsize};
use std::thread;

const FLOOR: &[&str] = &["callboard", "--floor"];

const HISTORY: &[&str] = &["callboard", "--history"];

const FLOOR_AND_HISTORY: &[&str] = &["callboard", "--floor", "--history"];

const ALONE: &[&str] = &["callboard", "--members", "1", "--floor", "--history"];

const BAD_BOUNDS: &[&str] = &["callboard", "--floor", "--low", "5", "--high", "4"];

const BAD_REFERENCE: &[&str] = &["callboard", "--floor", "--reference", "2000"];

const CONFIG: Config = Config {
    low: 1,
    high: 1000,
    reference: 200,
    max_open: 4,
    max_calls: 10,
    range: None,
};

const ASKS: &[u8] = b"0,ask\n1,ask\n1,ask\n3,ask\n";

const TALLY: &str = "\
entries 4
member 0 calls 1
member 1 calls 2
member 2 calls 0
member 3 calls 1
audit legal
";

static ROWS: [Row; 9] = [
    (FLOOR, ASKS, TALLY, "", 0),
    (
        FLOOR_AND_HISTORY,
        b"1,enter,bid,100,200\n1,ask\n1,delete,1\n",
        "\
entries 3
member 0 calls 0
member 1 calls 3
member 2 calls 0
member 3 calls 0
audit legal
1: member 1 entered 1
2: member 1 no price bid 200 ask -
3: member 1 deleted
",
        "",
        0,
    ),
    (
        ALONE,
        b"",
        "entries 0\nmember 0 calls 0\naudit legal\n",
        "",
        0,
    ),
    // The history alone changes nothing.
    (HISTORY, b"1,ask\n", SHOWN, "", 0),
    (
        FLOOR,
        b"1,ask\n1,enter,bid,abc,200",
        "",
        "record 2: bad field 4\n",
        1,
    ),
    (
        BAD_BOUNDS,
        b"",
        "",
        "bad bounds\nlow 5 is above high 4\n",
        2,
    ),
    (BAD_BOUNDS, b"-", "", "record 1: bad member\n", 1),
    (
        BAD_REFERENCE,
        b"",
        "",
        "bad reference\nthe reference 2000 is outside 1 to 1000\n",
        2,
    ),
    (BAD_REFERENCE, b"-", "", "record 1: bad member\n", 1),
];

#[test]
fn floors_and_files(rt: HostRuntime) {
    each_gives(&rt, ROWS.as_slice());
}

/// Counts how often it was passed.
#[derive(Drop)]
struct Counting {
    before: AtomicUsize,
    after: AtomicUsize,
}

impl Gate for Counting {
    fn before<R: Wait>(&self, _rt: &R, _member: u8, _k: u32) {
        let _ = self.before.fetch_add(1, SeqCst);
    }

    fn after<R: Wait>(&self, _rt: &R, _member: u8, _k: u32) {
        let _ = self.after.fetch_add(1, SeqCst);
    }
}

/// Holds one member back until another's call was answered.
#[derive(Drop)]
struct Held {
    waits: u8,
    answered: AtomicBool,
    ran_out: AtomicBool,
}

impl Gate for Held {
    fn before<R: Wait>(&self, _rt: &R, member: u8, _k: u32) {
        if member != self.waits {
            return;
        }
        for _ in 0..10_000_000 {
            if self.answered.load(SeqCst) {
                return;
            }
            thread::yield_now();
        }
        self.ran_out.store(true, SeqCst);
    }

    fn after<R: Wait>(&self, _rt: &R, member: u8, _k: u32) {
        if member != self.waits {
            self.answered.store(true, SeqCst);
        }
    }
}

// Each call passes the gate; where the file or the config has a fault, none does and nothing is written.
#[test]
fn each_call_passes_the_gate(rt: HostRuntime) {
    let few = Config {
        max_calls: 3,
        ..CONFIG
    };
    let none_open = Config {
        max_open: 0,
        ..CONFIG
    };
    let many = Fault::File(FileFault::TooManyCommands { number: 4 });
    let bad = Fault::Open(OpenFault::BadCapacity);
    let rows = [
        (CONFIG, ASKS, 4, Ok(Finish::Lawful), 4, TALLY),
        (few, ASKS, 4, Err(many), 0, ""),
        (none_open, ASKS, 4, Err(bad), 0, ""),
        (CONFIG, b"".as_slice(), 0, Err(bad), 0, ""),
        (CONFIG, b"".as_slice(), 65, Err(bad), 0, ""),
    ];
    for (config, input, members, answer, passed, tally) in rows {
        let gate = Counting {
            before: AtomicUsize::new(0),
            after: AtomicUsize::new(0),
        };
        let ran = run_under(&rt, input, config, members, Some(&gate));
        assert_eq!(rt; ran.answer, answer);
        assert_eq!(rt; ran.count == 0, tally.is_empty());
        assert!(rt; ran.text().starts_with(tally));
        assert_eq!(rt;
            (gate.before.load(SeqCst), gate.after.load(SeqCst)),
            (passed, passed)
        );
    }
    // So it is without a board.
    let ran = run_under(&rt, ASKS, none_open, 4, None::<&OpenGate>);
    assert_eq!(rt; (ran.answer, ran.count), (Err(bad), 0));
}

#[test]
fn the_history_is_the_boards(rt: HostRuntime) {
    let rows = [
        (
            0,
            "1: member 1 no price bid - ask -\n2: member 0 no price bid - ask -\n",
        ),
        (
            1,
            "1: member 0 no price bid - ask -\n2: member 1 no price bid - ask -\n",
        ),
    ];
    let tally = "entries 2\nmember 0 calls 1\nmember 1 calls 1\naudit legal\n";
    for (waits, story) in rows {
        let gate = Held {
            waits,
            answered: AtomicBool::new(false),
            ran_out: AtomicBool::new(false),
        };
        let ran = run_under(&rt, b"0,ask\n1,ask\n", CONFIG, 2, Some(&gate));
        assert!(rt; !gate.ran_out.load(SeqCst));
        assert_eq!(rt; ran.answer, Ok(Finish::Lawful));
        assert_eq!(rt; ran.text().strip_prefix(tally), Some(story));
    }
}
