//! The page on which text is put together before it is written.

ghost use Rattle.std.specs.Prelude.{◌≡◌, ◌<◌, ◌≤◌, ◌+◌, ◌++◌, ◌-◌, [], length, drop, take, decimal};
ghost use Rattle.std.specs.Str.{bytes_eq};
ghost use Rattle.printed_lines.specs.declared.page.TheConstants.{LONGEST_DISPLAY, LONGEST_NUMBER, ROOM};

use itoa::write_digits;
use std::marker::Model;

/// How many bytes a page has room for.
pub const ROOM: usize = 16_384;

/// How many bytes a line has at most.
pub const LONGEST_LINE: usize = 256;

/// How many digits a number has at most.
pub const LONGEST_NUMBER: usize = 20;

/// How many bytes a number's digits are copied from, so that as many as the longest number has can be read from each
/// place where it may begin.
pub(crate) const DIGITS: usize = 2 * LONGEST_NUMBER;

/// How many bytes the text of a display has at most.
pub(crate) const LONGEST_DISPLAY: usize = 100;

/// How many digits a number below 100,000 has.
#[inline(always)]
fn short_digit_count(number: u64) -> usize
    requires { number < 100000 }
    ensures digits { result ≡ length (decimal number) }
    ensures few { result ≤ 5 }
{
    1 + (number >= 10) as usize
        + (number >= 100) as usize
        + (number >= 1_000) as usize
        + (number >= 10_000) as usize
}

/// How many digits a number has; five are counted at once.
#[inline(always)]
fn digit_count(number: u64) -> usize
    ensures digits { result ≡ length (decimal number) }
    ensures few { result ≤ LONGEST_NUMBER }
{
    if number < 100_000 {
        return short_digit_count(number);
    }
    if number < 10_000_000_000 {
        return 5 + short_digit_count(number / 100_000);
    }
    if number < 1_000_000_000_000_000 {
        return 10 + short_digit_count(number / 10_000_000_000);
    }
    15 + short_digit_count(number / 1_000_000_000_000_000)
}

/// Text that is still to be written, up to `ROOM` bytes of it. It takes no memory.
#[derive(Drop)]
pub struct Page {
    bytes: [u8; ROOM],
    len: usize,
}

impl Model for Page {
    ghost use Rattle.std.specs.Prelude.{ℕ, List, ◌≤◌, take};
    ghost use Rattle.printed_lines.specs.declared.page.TheConstants.{ROOM};

    ghost Value = { List ℕ };

    ghost view = { λ page. take page.len page.bytes };

    ghost invariant = { λ page. page.len ≤ ROOM };
}

impl Page {
    /// An empty page.
    pub fn new() -> Page
        ensures { result ≡ [] }
    {
        Page {
            bytes: [0; ROOM],
            len: 0,
        }
    }

    /// How many bytes are on the page.
    #[inline(always)]
    pub fn len(&self) -> usize
        ensures { result ≡ length self.now }
    {
        self.len
    }

    /// What is on the page.
    pub fn as_slice(&self) -> &[u8]
        ensures { result.now ≡ self.now }
    {
        &self.bytes[..self.len]
    }

    /// Empties the page.
    pub fn clear(&mut self)
        ensures { self.new ≡ [] }
    {
        self.len = 0;
    }

    /// Whether this text is on the page, and nothing else.
    pub(crate) fn is_text(&self, text: &[u8]) -> bool
        ensures { result ≡ bytes_eq text.now self.now }
    {
        text == self.as_slice()
    }

    /// Appends bytes to the page.
    #[inline(always)]
    pub fn put_bytes(&mut self, text: &[u8])
        requires { length self.old + length text.now ≤ ROOM }
        ensures text { self.new ≡ self.old ++ text.now }
        ensures longer { length self.new ≡ length self.old + length text.now }
    {
        let len = self.len;
        self.bytes[len..len + text.len()].copy_from_slice(text);
        self.len = len + text.len();
    }

    /// Appends the first bytes of an array to the page. All of the array is copied, as that is faster.
    #[inline(always)]
    pub(crate) fn put_first(&mut self, text: &[u8; LONGEST_DISPLAY], count: usize)
        requires room { length self.old + LONGEST_DISPLAY ≤ ROOM }
        requires count { count ≤ LONGEST_DISPLAY }
        ensures text { self.new ≡ self.old ++ take count text.now }
        ensures longer { length self.new ≡ length self.old + count }
    {
        let len = self.len;
        self.bytes[len..len + LONGEST_DISPLAY].copy_from_slice(text);
        self.len = len + count;
    }

    /// Appends digits to the page, which begin here and end before `LONGEST_NUMBER`. As many as the longest number has
    /// are copied, as that is faster.
    #[inline(always)]
    pub(crate) fn put_digits(&mut self, digits: &[u8; DIGITS], begin: usize)
        requires room { length self.old + LONGEST_NUMBER ≤ ROOM }
        requires begin { begin ≤ LONGEST_NUMBER }
        ensures text { self.new ≡ self.old ++ drop begin (take LONGEST_NUMBER digits.now) }
        ensures longer { length self.new ≡ length self.old + (LONGEST_NUMBER - begin) }
    {
        let len = self.len;
        self.bytes[len..len + LONGEST_NUMBER].copy_from_slice(
            &digits[begin..begin + LONGEST_NUMBER],
        );
        self.len = len + (LONGEST_NUMBER - begin);
    }

    /// What is on the page from here on, and after it what was there before: as many bytes as a display's text has at
    /// most.
    #[inline(always)]
    pub(crate) fn display_from(&self, begin: usize) -> &[u8]
        requires room { begin + LONGEST_DISPLAY ≤ ROOM }
        requires begin { begin ≤ length self.now }
        requires short { length self.now ≤ begin + LONGEST_DISPLAY }
        ensures length { length result.now ≡ LONGEST_DISPLAY }
        ensures text { take (length self.now - begin) result.now ≡ drop begin self.now }
    {
        &self.bytes[begin..begin + LONGEST_DISPLAY]
    }

    /// Appends text to the page.
    #[inline(always)]
    pub fn put(&mut self, text: &str)
        requires { length self.old + length text.now ≤ ROOM }
        ensures text { self.new ≡ self.old ++ text.now }
        ensures longer { length self.new ≡ length self.old + length text.now }
    {
        self.put_bytes(text.as_bytes());
    }

    /// Appends a number to the page, in decimal digits without leading zeros.
    #[inline(always)]
    pub fn put_number(&mut self, number: u64)
        requires { length self.old + LONGEST_NUMBER ≤ ROOM }
        ensures text { self.new ≡ self.old ++ decimal number }
        ensures longer { length self.new ≤ length self.old + LONGEST_NUMBER }
    {
        let end = self.len + digit_count(number);
        write_digits(number, &mut self.bytes, end);
        self.len = end;
    }
}
