//! Running sums of lists of numbers, and where two of them meet, eight lanes at a time.

ghost use Rattle.std.specs.Prelude.{◌≡◌, ◌+◌, ◌*◌, ◌<◌, ◌≤◌, ◌^◌, length, sum};
ghost use Rattle.std.specs.Simd.Lanes.{chunk, put_chunk};
ghost use Rattle.lanes.specs.RunningSums.{rising_sums, falling_sums};
ghost use Rattle.lanes.specs.Meeting.{before, IsMeeting};

use std::simd::prelude::*;

/// Each lane becomes the sum of itself and the lanes below it, by shifts of one, two and four lanes.
#[inline]
fn scan_up(lanes: u64x8) -> u64x8
    requires eight { length lanes ≡ 8 }
    requires fits { sum lanes < 2 ^ 64 }
    ensures { result ≡ rising_sums 0 lanes }
{
    let none = u64x8::splat(0);
    let pairs = lanes.strict_add(lanes.shuffle(none, [8, 0, 1, 2, 3, 4, 5, 6]));
    let fours = pairs.strict_add(pairs.shuffle(none, [8, 9, 0, 1, 2, 3, 4, 5]));
    fours.strict_add(fours.shuffle(none, [8, 9, 10, 11, 0, 1, 2, 3]))
}

/// The running sums of the eight numbers from `at` on, over `carry`. It returns the next carry.
#[inline]
fn rising_eight(carry: u64, src: &[u64], out: &mut [u64], at: usize) -> u64
    requires within { at + 8 ≤ length src.now }
    requires lengths { length out.old ≡ length src.now }
    requires fits { carry + sum (chunk at 8 src.now) < 2 ^ 64 }
    ensures written { out.new ≡ put_chunk at out.old (rising_sums carry (chunk at 8 src.now)) }
    ensures carry { result ≡ carry + sum (chunk at 8 src.now) }
{
    let sums = scan_up(u64x8::from_slice(&src[at..]));
    sums.strict_add(u64x8::splat(carry))
        .copy_to_slice(&mut out[at..]);
    let lanes = sums.to_array();
    carry + lanes[7]
}

/// Each lane becomes the sum of itself and the lanes above it.
#[inline]
fn scan_down(lanes: u64x8) -> u64x8
    requires eight { length lanes ≡ 8 }
    requires fits { sum lanes < 2 ^ 64 }
    ensures { result ≡ falling_sums 0 lanes }
{
    let none = u64x8::splat(0);
    let pairs = lanes.strict_add(lanes.shuffle(none, [1, 2, 3, 4, 5, 6, 7, 8]));
    let fours = pairs.strict_add(pairs.shuffle(none, [2, 3, 4, 5, 6, 7, 8, 9]));
    fours.strict_add(fours.shuffle(none, [4, 5, 6, 7, 8, 9, 10, 11]))
}

/// The sums from the back of the eight numbers from `at` on, over `carry`. It returns the next carry.
#[inline]
fn falling_eight(carry: u64, src: &[u64], out: &mut [u64], at: usize) -> u64
    requires within { at + 8 ≤ length src.now }
    requires lengths { length out.old ≡ length src.now }
    requires fits { carry + sum (chunk at 8 src.now) < 2 ^ 64 }
    ensures written { out.new ≡ put_chunk at out.old (falling_sums carry (chunk at 8 src.now)) }
    ensures carry { result ≡ carry + sum (chunk at 8 src.now) }
{
    let sums = scan_down(u64x8::from_slice(&src[at..]));
    sums.strict_add(u64x8::splat(carry))
        .copy_to_slice(&mut out[at..]);
    let lanes = sums.to_array();
    carry + lanes[0]
}

/// `out[i] = start + src[0] + .. + src[i]`.
pub fn rising(start: u64, src: &[u64], out: &mut [u64])
    requires lengths { length out.old ≡ length src.now }
    requires fits { start + sum src.now < 2 ^ 64 }
    ensures { out.new ≡ rising_sums start src.now }
{
    let mut carry = start;
    let mut at = 0;
    'eights: while src.len() - at >= 8 {
        carry = rising_eight(carry, src, out, at);
        at += 8;
    }
    'rest: while at < src.len() {
        carry += src[at];
        out[at] = carry;
        at += 1;
    }
}

/// `out[i] = start + src[i] + .. + src[n - 1]`.
pub fn falling(start: u64, src: &[u64], out: &mut [u64])
    requires lengths { length out.old ≡ length src.now }
    requires fits { start + sum src.now < 2 ^ 64 }
    ensures { out.new ≡ falling_sums start src.now }
{
    let mut carry = start;
    let mut at = src.len();
    'eights: while at >= 8 {
        at -= 8;
        carry = falling_eight(carry, src, out, at);
    }
    'rest: while at > 0 {
        at -= 1;
        carry += src[at];
        out[at] = carry;
    }
}

/// The sum of the eight numbers from `at` on.
#[inline]
fn sum_of_eight(src: &[u64], at: usize) -> u64
    requires within { at + 8 ≤ length src.now }
    requires fits { before src.now (at + 8) < 2 ^ 64 + before src.now at }
    ensures { result + before src.now at ≡ before src.now (at + 8) }
{
    u64x8::from_slice(&src[at..]).strict_reduce_sum()
}

/// The sum of all numbers.
pub fn total(src: &[u64]) -> u64
    requires { sum src.now < 2 ^ 64 }
    ensures { result ≡ sum src.now }
{
    let mut sum = 0;
    let mut at = 0;
    'eights: while src.len() - at >= 8 {
        sum += sum_of_eight(src, at);
        at += 8;
    }
    'rest: while at < src.len() {
        sum += src[at];
        at += 1;
    }
    sum
}

/// A place, with what is left of the falling number there and what the rising one has become.
#[derive(Clone, Copy)]
pub struct Meeting {
    pub place: usize,
    pub high: u64,
    pub low: u64,
}

/// The last place at which `high`, less the `falls` before it, is not below `low` with the `rises` before it, and
/// place 0 where there is none.
pub fn meet(high: u64, falls: &[u64], low: u64, rises: &[u64]) -> Meeting
    requires lengths { length rises.now ≡ length falls.now }
    requires some { 0 < length falls.now }
    requires enough { sum falls.now ≤ high }
    requires fits { low + sum rises.now < 2 ^ 64 }
    ensures { IsMeeting high falls.now low rises.now result }
{
    let mut place = 0;
    let mut high = high;
    let mut low = low;
    'eights: while falls.len() - place > 8 {
        let next_high = high - sum_of_eight(falls, place);
        let next_low = low + sum_of_eight(rises, place);
        if next_high < next_low {
            break 'eights;
        }
        high = next_high;
        low = next_low;
        place += 8;
    }
    'rest: while place + 1 < falls.len() {
        let next_high = high - falls[place];
        let next_low = low + rises[place];
        if next_high < next_low {
            return Meeting { place, high, low };
        }
        high = next_high;
        low = next_low;
        place += 1;
    }
    Meeting { place, high, low }
}
