//! The running sums by lanes, over a chunk of eight and one more.

use lanes::{falling, meet, rising, total};

const ONE_TO_NINE: [u64; 9] = [1, 2, 3, 4, 5, 6, 7, 8, 9];

#[test]
fn sums_of_nine(rt: HostRuntime) {
    let mut out = [0; 9];
    rising(10, &ONE_TO_NINE, &mut out);
    assert_eq!(rt; out, [11, 13, 16, 20, 25, 31, 38, 46, 55]);
    falling(0, &ONE_TO_NINE, &mut out);
    assert_eq!(rt; out, [45, 44, 42, 39, 35, 30, 24, 17, 9]);
    assert_eq!(rt; total(&ONE_TO_NINE), 45);
}

/// From 9 and from 0, nine ones fall and rise: they meet half way.
#[test]
fn nine_ones_meet(rt: HostRuntime) {
    let met = meet(9, &[1; 9], 0, &[1; 9]);
    assert_eq!(rt; (met.place, met.high, met.low), (4, 5, 4));
}
