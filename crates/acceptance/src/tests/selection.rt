//! The selection by lanes, over a chunk of eight and one more.

use lanes::{
    any, first, first_positive, gap_size, greatest_where, keep_above, keep_equal, last,
    last_positive, least_where, lesser,
};

const FALLING: [u64; 9] = [9, 8, 7, 6, 5, 4, 3, 2, 1];

const RISING: [u64; 9] = [1, 2, 3, 4, 5, 6, 7, 8, 9];
/// The first, the second and the last place.
const FLAGS: [u64; 9] = [1, 1, 0, 0, 0, 0, 0, 0, 1];

#[test]
fn two_lists_of_nine(rt: HostRuntime) {
    let mut out = [0; 9];
    lesser(&FALLING, &RISING, &mut out);
    assert_eq!(rt; out, [1, 2, 3, 4, 5, 4, 3, 2, 1]);
    gap_size(&FALLING, &RISING, &mut out);
    assert_eq!(rt; out, [8, 6, 4, 2, 0, 2, 4, 6, 8]);
    let mut flags = [1; 9];
    keep_above(&FALLING, &RISING, &mut flags);
    assert_eq!(rt; flags, [1, 1, 1, 1, 0, 0, 0, 0, 0]);
}

#[test]
fn the_flagged_of_nine(rt: HostRuntime) {
    assert_eq!(rt; greatest_where(&RISING, &FLAGS), Some(9));
    assert_eq!(rt; least_where(&RISING, &FLAGS), Some(1));
    let mut flags = FLAGS;
    keep_equal(&RISING, 9, &mut flags);
    assert_eq!(rt; flags, [0, 0, 0, 0, 0, 0, 0, 0, 1]);
    keep_equal(&RISING, 8, &mut flags);
    assert_eq!(rt;
        (any(&flags), greatest_where(&RISING, &flags)),
        (false, None)
    );
}

#[test]
fn places_of_nine(rt: HostRuntime) {
    assert_eq!(rt; (first(&FLAGS), last(&FLAGS)), (Some(0), Some(8)));
    assert_eq!(rt;
        (first_positive(&FLAGS), last_positive(&FLAGS)),
        (Some(0), Some(8))
    );
    assert!(rt; any(&FLAGS));
}
