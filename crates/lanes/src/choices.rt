//! Selection over equally long lists of numbers, eight lanes at a time. A flag is 1, and any other number is none.

ghost use Rattle.std.specs.Int.{abs_diff};
ghost use Rattle.std.specs.Prelude.{◌≡◌, ◌+◌, ◌*◌, ◌<◌, ◌≤◌, ◌==◌, ◌↔◌};
ghost use Rattle.std.specs.Prelude.{length, min, max, false, MatchOption, IsTrue, if◌then◌else◌};
ghost use Rattle.std.specs.Simd.Lanes.{zip2};
ghost use Rattle.lanes.specs.Selection.{flagged, greatest, least, kept_if_equal, kept_if_above};
ghost use Rattle.lanes.specs.Selection.{value_or_zero, value_or_most};
ghost use Rattle.lanes.specs.Selection.{NoFlagIn, HasFlag, IsFirstFlag, IsLastFlag, IsGreatestFlagged};
ghost use Rattle.lanes.specs.Selection.{IsLeastFlagged};
ghost use Rattle.lanes.specs.Positive.{NoneIn, IsFirstPositive, IsLastPositive};

use std::simd::prelude::*;

/// The lesser of the two, lane by lane.
#[inline]
fn lesser_lanes(a: u64x8, b: u64x8) -> u64x8
    requires eight_a { length a ≡ 8 }
    requires eight_b { length b ≡ 8 }
    ensures { result ≡ zip2 min a b }
{
    a.simd_min(b)
}

/// The greater of the two, lane by lane.
#[inline]
fn greater_lanes(a: u64x8, b: u64x8) -> u64x8
    requires eight_a { length a ≡ 8 }
    requires eight_b { length b ≡ 8 }
    ensures { result ≡ zip2 max a b }
{
    a.simd_max(b)
}

/// The lesser of the two numbers, place by place.
pub fn lesser(a: &[u64], b: &[u64], out: &mut [u64])
    requires same_a { length a.now ≡ length out.old }
    requires same_b { length b.now ≡ length out.old }
    ensures { out.new ≡ zip2 min a.now b.now }
{
    let mut at = 0;
    'eights: while out.len() - at >= 8 {
        lesser_lanes(u64x8::from_slice(&a[at..]), u64x8::from_slice(&b[at..])).copy_to_slice(
            &mut out[at..],
        );
        at += 8;
    }
    'rest: while at < out.len() {
        out[at] = a[at].min(b[at]);
        at += 1;
    }
}

/// How far eight lanes are apart.
#[inline]
fn gap_lanes(a: u64x8, b: u64x8) -> u64x8
    requires eight_a { length a ≡ 8 }
    requires eight_b { length b ≡ 8 }
    ensures { result ≡ zip2 abs_diff a b }
{
    greater_lanes(a, b).strict_sub(lesser_lanes(a, b))
}

/// How far the two numbers are apart, place by place.
pub fn gap_size(a: &[u64], b: &[u64], out: &mut [u64])
    requires same_a { length a.now ≡ length out.old }
    requires same_b { length b.now ≡ length out.old }
    ensures { out.new ≡ zip2 abs_diff a.now b.now }
{
    let mut at = 0;
    'eights: while out.len() - at >= 8 {
        gap_lanes(u64x8::from_slice(&a[at..]), u64x8::from_slice(&b[at..])).copy_to_slice(
            &mut out[at..],
        );
        at += 8;
    }
    'rest: while at < out.len() {
        out[at] = a[at].abs_diff(b[at]);
        at += 1;
    }
}

#[inline]
fn number_if(is_kept: bool, number: u64) -> u64
    ensures { result ≡ (if is_kept then number else 0) }
{
    if is_kept { number } else { 0 }
}

#[inline]
fn number_or_most(is_kept: bool, number: u64) -> u64
    ensures { result ≡ (if is_kept then number else 18446744073709551615) }
{
    if is_kept { number } else { u64::MAX }
}

/// Eight flags, left where the value equals `wanted`.
#[inline]
fn keep_equal_lanes(values: u64x8, wanted: u64, flags: u64x8) -> u64x8
    requires eight_values { length values ≡ 8 }
    requires eight_flags { length flags ≡ 8 }
    ensures { result ≡ zip2 (kept_if_equal wanted) values flags }
{
    values
        .simd_eq(u64x8::splat(wanted))
        .select(flags, u64x8::splat(0))
}

/// Leaves a flag where the value equals `wanted`.
pub fn keep_equal(values: &[u64], wanted: u64, flags: &mut [u64])
    requires { length values.now ≡ length flags.old }
    ensures { flags.new ≡ zip2 (kept_if_equal wanted) values.now flags.old }
{
    let mut at = 0;
    'eights: while flags.len() - at >= 8 {
        let here = u64x8::from_slice(&flags[at..]);
        keep_equal_lanes(u64x8::from_slice(&values[at..]), wanted, here).copy_to_slice(
            &mut flags[at..],
        );
        at += 8;
    }
    'rest: while at < flags.len() {
        flags[at] = number_if(values[at] == wanted, flags[at]);
        at += 1;
    }
}

/// Eight flags, left where the first number is above the second.
#[inline]
fn keep_above_lanes(a: u64x8, b: u64x8, flags: u64x8) -> u64x8
    requires eight_a { length a ≡ 8 }
    requires eight_b { length b ≡ 8 }
    requires eight_flags { length flags ≡ 8 }
    ensures { result ≡ kept_if_above a b flags }
{
    a.simd_gt(b).select(flags, u64x8::splat(0))
}

/// Leaves a flag where the first number is above the second.
pub fn keep_above(a: &[u64], b: &[u64], flags: &mut [u64])
    requires same_a { length a.now ≡ length flags.old }
    requires same_b { length b.now ≡ length flags.old }
    ensures { flags.new ≡ kept_if_above a.now b.now flags.old }
{
    let mut at = 0;
    'eights: while flags.len() - at >= 8 {
        let here = u64x8::from_slice(&flags[at..]);
        keep_above_lanes(
            u64x8::from_slice(&a[at..]),
            u64x8::from_slice(&b[at..]),
            here,
        )
        .copy_to_slice(&mut flags[at..]);
        at += 8;
    }
    'rest: while at < flags.len() {
        flags[at] = number_if(a[at] > b[at], flags[at]);
        at += 1;
    }
}

/// Eight lanes, 0 where there is no flag.
#[inline]
fn marked_or_zero(values: u64x8, flags: u64x8) -> u64x8
    requires eight_values { length values ≡ 8 }
    requires eight_flags { length flags ≡ 8 }
    ensures { result ≡ zip2 value_or_zero values flags }
{
    flags
        .simd_eq(u64x8::splat(1))
        .select(values, u64x8::splat(0))
}

/// The greatest of eight lanes.
fn greatest_lane(lanes: u64x8) -> u64
    requires { length lanes ≡ 8 }
    ensures { result ≡ greatest lanes }
{
    let [a, b, c, d, e, f, g, h] = lanes.to_array();
    a.max(b.max(c.max(d.max(e.max(f.max(g.max(h)))))))
}

/// The greatest of the flagged values, and 0 where none is flagged.
fn greatest_or_zero(values: &[u64], flags: &[u64]) -> u64
    requires { length values.now ≡ length flags.now }
    ensures { result ≡ greatest (flagged values.now flags.now) }
{
    let mut lanes = u64x8::splat(0);
    let mut at = 0;
    'eights: while flags.len() - at >= 8 {
        let marked = marked_or_zero(
            u64x8::from_slice(&values[at..]),
            u64x8::from_slice(&flags[at..]),
        );
        lanes = greater_lanes(lanes, marked);
        at += 8;
    }
    let mut most = greatest_lane(lanes);
    'rest: while at < flags.len() {
        most = most.max(number_if(flags[at] == 1, values[at]));
        at += 1;
    }
    most
}

/// The greatest of the flagged values.
pub fn greatest_where(values: &[u64], flags: &[u64]) -> Option<u64>
    requires { length values.now ≡ length flags.now }
    ensures { MatchOption result (NoFlagIn flags.now 0 (length flags.now)) (IsGreatestFlagged values.now flags.now) }
{
    let greatest = greatest_or_zero(values, flags);
    if greatest > 0 {
        return Some(greatest);
    }
    if any(flags) { Some(greatest) } else { None }
}

/// Eight lanes, the greatest `u64` where there is no flag.
#[inline]
fn marked_or_most(values: u64x8, flags: u64x8) -> u64x8
    requires eight_values { length values ≡ 8 }
    requires eight_flags { length flags ≡ 8 }
    ensures { result ≡ zip2 value_or_most values flags }
{
    flags
        .simd_eq(u64x8::splat(1))
        .select(values, u64x8::splat(u64::MAX))
}

/// The least of eight lanes.
fn least_lane(lanes: u64x8) -> u64
    requires { length lanes ≡ 8 }
    ensures { result ≡ least lanes }
{
    let [a, b, c, d, e, f, g, h] = lanes.to_array();
    a.min(b.min(c.min(d.min(e.min(f.min(g.min(h)))))))
}

/// The least of the flagged values, and the greatest `u64` where none is flagged.
fn least_or_most(values: &[u64], flags: &[u64]) -> u64
    requires { length values.now ≡ length flags.now }
    ensures { result ≡ least (flagged values.now flags.now) }
{
    let mut lanes = u64x8::splat(u64::MAX);
    let mut at = 0;
    'eights: while flags.len() - at >= 8 {
        let marked = marked_or_most(
            u64x8::from_slice(&values[at..]),
            u64x8::from_slice(&flags[at..]),
        );
        lanes = lesser_lanes(lanes, marked);
        at += 8;
    }
    let mut least = least_lane(lanes);
    'rest: while at < flags.len() {
        least = least.min(number_or_most(flags[at] == 1, values[at]));
        at += 1;
    }
    least
}

/// The least of the flagged values.
pub fn least_where(values: &[u64], flags: &[u64]) -> Option<u64>
    requires { length values.now ≡ length flags.now }
    ensures { MatchOption result (NoFlagIn flags.now 0 (length flags.now)) (IsLeastFlagged values.now flags.now) }
{
    let least = least_or_most(values, flags);
    if least < u64::MAX {
        return Some(least);
    }
    if any(flags) { Some(least) } else { None }
}

/// Whether one of the eight numbers from `at` on may be a flag.
#[inline]
fn has_flag(flags: &[u64], at: usize) -> bool
    requires { at + 8 ≤ length flags.now }
    ensures { result ≡ false → NoFlagIn flags.now at (at + 8) }
{
    u64x8::from_slice(&flags[at..])
        .simd_eq(u64x8::splat(1))
        .to_bitmask()
        != 0
}

/// The first flagged place.
pub fn first(flags: &[u64]) -> Option<usize>
    ensures { MatchOption result (NoFlagIn flags.now 0 (length flags.now)) (IsFirstFlag flags.now) }
{
    let mut at = 0;
    'eights: while flags.len() - at >= 8 && !has_flag(flags, at) {
        at += 8;
    }
    'rest: while at < flags.len() {
        if flags[at] == 1 {
            return Some(at);
        }
        at += 1;
    }
    None
}

/// The last flagged place.
pub fn last(flags: &[u64]) -> Option<usize>
    ensures { MatchOption result (NoFlagIn flags.now 0 (length flags.now)) (IsLastFlag flags.now) }
{
    let mut end = flags.len();
    'eights: while end >= 8 && !has_flag(flags, end - 8) {
        end -= 8;
    }
    'rest: while end > 0 {
        end -= 1;
        if flags[end] == 1 {
            return Some(end);
        }
    }
    None
}

/// Whether there is a flag.
pub fn any(flags: &[u64]) -> bool
    ensures { IsTrue result ↔ HasFlag flags.now }
{
    first(flags).is_some()
}

/// Whether one of the eight numbers from `at` on may be above 0.
#[inline]
fn has_positive(values: &[u64], at: usize) -> bool
    requires { at + 8 ≤ length values.now }
    ensures { result ≡ false → NoneIn values.now at (at + 8) }
{
    u64x8::from_slice(&values[at..])
        .simd_ne(u64x8::splat(0))
        .to_bitmask()
        != 0
}

/// The first place with a value above 0.
pub fn first_positive(values: &[u64]) -> Option<usize>
    ensures { MatchOption result (NoneIn values.now 0 (length values.now)) (IsFirstPositive values.now) }
{
    let mut at = 0;
    'eights: while values.len() - at >= 8 && !has_positive(values, at) {
        at += 8;
    }
    'rest: while at < values.len() {
        if values[at] > 0 {
            return Some(at);
        }
        at += 1;
    }
    None
}

/// The last place with a value above 0.
pub fn last_positive(values: &[u64]) -> Option<usize>
    ensures { MatchOption result (NoneIn values.now 0 (length values.now)) (IsLastPositive values.now) }
{
    let mut end = values.len();
    'eights: while end >= 8 && !has_positive(values, end - 8) {
        end -= 8;
    }
    'rest: while end > 0 {
        end -= 1;
        if values[end] > 0 {
            return Some(end);
        }
    }
    None
}
