//! Texts that are put together from their last byte to their first.

ghost use Rattle.std.specs.Prelude.{◌≡◌, ◌≤◌, ◌+◌, ◌++◌, [], length, codes, decimal};
ghost use Rattle.day_tables.specs.declared.front_text.TheConstants.{SHORT, TEXT_ROOM};
ghost use Rattle.printed_lines.specs.declared.page.TheConstants.{LONGEST_LINE, LONGEST_NUMBER};

use itoa::write_digits;
use printed_lines::LONGEST_LINE;
use std::marker::Model;

/// How many bytes a text has room for.
pub(crate) const TEXT_ROOM: usize = LONGEST_LINE;

/// How many bytes a short text has at most.
pub(crate) const SHORT: usize = 32;

/// A text that grows at its front, up to `TEXT_ROOM` bytes of it. It takes no memory.
#[derive(Drop)]
pub(crate) struct FrontText {
    bytes: [u8; TEXT_ROOM],
    start: usize,
}

impl Model for FrontText {
    ghost use Rattle.std.specs.Prelude.{ℕ, List, ◌≤◌, drop};
    ghost use Rattle.day_tables.specs.declared.front_text.TheConstants.{TEXT_ROOM};

    ghost Value = { List ℕ };

    ghost view = { λ text. drop text.start text.bytes };

    ghost invariant = { λ text. text.start ≤ TEXT_ROOM };
}

impl FrontText {
    /// An empty text.
    pub(crate) fn new() -> FrontText
        ensures { result ≡ [] }
    {
        FrontText {
            bytes: [0; TEXT_ROOM],
            start: TEXT_ROOM,
        }
    }

    /// The text.
    #[inline(always)]
    pub(crate) fn as_slice(&self) -> &[u8]
        ensures text { result.now ≡ self.now }
        ensures fits { length result.now ≤ TEXT_ROOM }
    {
        &self.bytes[self.start..]
    }

    /// Empties the text.
    #[inline(always)]
    pub(crate) fn clear(&mut self)
        ensures { self.new ≡ [] }
    {
        self.start = TEXT_ROOM;
    }

    /// Puts a word before the text.
    #[inline(always)]
    pub(crate) fn put(&mut self, word: &str)
        requires { length self.old + length word.now ≤ TEXT_ROOM }
        ensures text { self.new ≡ word.now ++ self.old }
        ensures longer { length self.new ≡ length self.old + length word.now }
    {
        let start = self.start - word.len();
        self.bytes[start..self.start].copy_from_slice(word.as_bytes());
        self.start = start;
    }

    /// Puts a number, in decimal digits without leading zeros, and a comma before the text.
    #[inline(always)]
    pub(crate) fn put_number(&mut self, number: u64)
        requires { length self.old + LONGEST_NUMBER + 1 ≤ TEXT_ROOM }
        ensures text { self.new ≡ decimal number ++ (codes "," ++ self.old) }
        ensures longer { length self.new ≤ length self.old + LONGEST_NUMBER + 1 }
    {
        let end = self.start - 1;
        self.bytes[end] = b',';
        self.start = write_digits(number, &mut self.bytes, end);
    }

    /// Puts a short text before the text.
    #[inline(always)]
    pub(crate) fn put_short(&mut self, short: &FrontText)
        requires short { length short.now ≤ SHORT }
        requires room { length self.old + SHORT ≤ TEXT_ROOM }
        ensures text { self.new ≡ short.now ++ self.old }
        ensures longer { length self.new ≤ length self.old + SHORT }
    {
        let end = self.start;
        self.bytes[end - SHORT..end].copy_from_slice(&short.bytes[TEXT_ROOM - SHORT..]);
        self.start = end - (TEXT_ROOM - short.start);
    }

    /// Puts a number and a comma before the text.
    #[inline(always)]
    pub(crate) fn put_figure(&mut self, figure: &Figure)
        requires { length self.old + SHORT ≤ TEXT_ROOM }
        ensures text { self.new ≡ decimal figure.now ++ (codes "," ++ self.old) }
        ensures longer { length self.new ≤ length self.old + SHORT }
    {
        self.put_short(&figure.text);
    }
}

/// A number that is kept with its digits and a comma.
#[derive(Drop)]
pub(crate) struct Figure {
    number: u64,
    text: FrontText,
}

impl Model for Figure {
    ghost use Rattle.std.specs.Prelude.{◌≡◌, ℕ, ◌≤◌, ◌++◌, [], length, codes, decimal};
    ghost use Rattle.day_tables.specs.declared.front_text.TheConstants.{SHORT};

    ghost Value = { ℕ };

    ghost view = { λ figure. figure.number };

    ghost invariant = { λ figure.
        (figure.text ≡ decimal figure.number ++ (codes "," ++ [])) × (length figure.text ≤ SHORT) };
}

impl Figure {
    /// The number 0.
    pub(crate) fn new() -> Figure
        ensures { result ≡ 0 }
    {
        let mut text = FrontText::new();
        text.put_number(0);
        Figure { number: 0, text }
    }

    /// The number.
    #[inline(always)]
    pub(crate) fn number(&self) -> u64
        ensures { result ≡ self.now }
    {
        self.number
    }

    /// Becomes another number.
    #[inline(always)]
    pub(crate) fn follow(&mut self, number: u64)
        ensures { self.new ≡ number }
    {
        if self.number == number {
            return;
        }
        self.text.clear();
        self.text.put_number(number);
        self.number = number;
    }
}
