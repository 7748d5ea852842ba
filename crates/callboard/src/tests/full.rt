//! Books that are full.

use super::{Story, gives};
use std::test::Fail;

/// The most orders that may be open, and half of them.
const OPEN: u32 = 65_536;

const HALF: u32 = 32_768;

/// The arguments of a board as large as may be.
const LARGEST: &[&str] = &[
    "callboard",
    "--low",
    "1",
    "--high",
    "65536",
    "--open",
    "65536",
    "--calls",
    "1048576",
];

/// The entries of two members, each with the ids that they get from the first to the last, and what comes after them.
static STORIES: [(&[(&str, u32, u32)], &str); 2] = [
    // One bid against all other orders.
    (
        &[
            ("1,enter,bid,65535,200", 1, 1),
            ("2,enter,ask,1,200", 2, OPEN),
        ],
        "\
3,enter,ask,1,200 -> refused 4 BookFull
0,ask -> price 200 volume 65535 surplus 0 none
0,uncross -> opening price 200 volume 65535 surplus 0 none trades 65535
3,trade,1 -> trade 1 2 1 at 200
3,trade,2 -> trade 1 3 1 at 200
3,trade,65534 -> trade 1 65535 1 at 200
3,trade,65535 -> trade 1 65536 1 at 200
3,trade,65536 -> refused 8 NoSuchTrade
2,status,65536 -> refused 5 UnknownOrder
3,enter,ask,1,200 -> entered 65537
",
    ),
    // All orders have the largest size, and each bid meets the ask of its place in time.
    (
        &[
            ("1,enter,bid,1000000000,200", 1, HALF),
            ("2,enter,ask,1000000000,200", HALF + 1, OPEN),
        ],
        "\
0,ask -> price 200 volume 32768000000000 surplus 0 none
0,uncross -> opening price 200 volume 32768000000000 surplus 0 none trades 32768
3,trade,1 -> trade 1 32769 1000000000 at 200
3,trade,2 -> trade 2 32770 1000000000 at 200
3,trade,32768 -> trade 32768 65536 1000000000 at 200
3,trade,32769 -> refused 8 NoSuchTrade
0,ask -> no price bid - ask -
",
    ),
];

#[test]
fn the_largest_books(rt: HostRuntime) -> Result<(), Fail> {
    for (entries, rest) in STORIES.as_slice() {
        let mut story = Story::new(rt.alloc());
        for &(record, first, last) in *entries {
            story.enter_all(record, first, last)?;
        }
        story.add_all(rest)?;
        let input = story.input.as_str().as_bytes();
        gives(&rt, LARGEST, input, story.lines.as_str(), "", 0);
    }
    Ok(())
}
