//! The text of the next number, as the numbers of lines and of orders rise by one.

ghost use Rattle.std.specs.Prelude.{◌≡◌, ◌≤◌, ◌+◌, ◌++◌, ◌%◌, ◌^◌, length, decimal};
ghost use Rattle.printed_lines.specs.declared.page.TheConstants.{LONGEST_NUMBER, ROOM};

use crate::page::{DIGITS, LONGEST_NUMBER, Page};
use itoa::write_digits;
use std::marker::Model;

/// A number with its text. It takes no memory.
#[derive(Drop)]
pub struct NumberText {
    number: u64,
    // Where the text begins, which ends before `LONGEST_NUMBER`.
    begin: usize,
    digits: [u8; DIGITS],
}

impl Model for NumberText {
    ghost use Rattle.std.specs.Prelude.{ℕ, ◌<◌, ◌^◌};
    ghost use Rattle.printed_lines.specs.NumberText.{HasDigitsOf};

    ghost Value = { ℕ };

    ghost view = { λ text. text.number };

    ghost invariant = { λ text. (text.number < 2 ^ 64) × HasDigitsOf text.number text.digits text.begin };
}

impl NumberText {
    /// The number 1, which is the first of lines and of orders.
    pub fn new() -> NumberText
        ensures { result ≡ 1 }
    {
        let mut digits = [b'0'; DIGITS];
        digits[LONGEST_NUMBER - 1] = b'1';
        NumberText {
            number: 1,
            begin: LONGEST_NUMBER - 1,
            digits,
        }
    }

    /// Makes the text of another number.
    fn set(&mut self, number: u64)
        ensures { self.new ≡ number }
    {
        self.begin = write_digits(number, &mut self.digits, LONGEST_NUMBER);
        self.number = number;
    }

    /// Goes on to the next number, of which mostly the last digit alone is another one. After the greatest it is 0.
    #[inline(always)]
    fn advance(&mut self)
        ensures { self.new ≡ (self.old + 1) % (2 ^ 64) }
    {
        let next = self.number.wrapping_add(1);
        if next % 10 == 0 {
            self.set(next);
            return;
        }
        self.digits[LONGEST_NUMBER - 1] += 1;
        self.number = next;
    }

    /// Puts a number on a page; its text is copied where it is the next one.
    #[inline(always)]
    pub(crate) fn put(&mut self, page: &mut Page, number: u64)
        requires { length page.old + LONGEST_NUMBER ≤ ROOM }
        ensures text { page.new ≡ page.old ++ decimal number }
        ensures longer { length page.new ≤ length page.old + LONGEST_NUMBER }
    {
        if number != self.number {
            self.set(number);
        }
        page.put_digits(&self.digits, self.begin);
        self.advance();
    }
}
