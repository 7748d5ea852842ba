//! What a fault is likely to come from.

ghost use Rattle.std.specs.Prelude.{◌≡◌, ◌≤◌, ◌+◌, ◌++◌, Some, length};
ghost use Rattle.printed_lines.specs.declared.page.TheConstants.{ROOM};
ghost use Rattle.input_hints.specs.Hints.{hint_text};

use printed_lines::{Page, ROOM};
use std::fmt;
use std::fmt::{Display, Formatter};

/// What a fault is likely to come from; its text is that which the program prints.
#[derive(Clone, Copy, Debug, PartialEq, Eq)]
pub enum Hint {
    /// The text is in UTF-16: the first record begins with that byte order mark, or has a NUL in its first two bytes.
    Utf16,
    /// Fields are parted by semicolons: there is one, and no comma.
    Semicolons,
    /// Fields are parted by tabs: there is one, and no comma.
    Tabs,
    /// The first record is a header: its first five fields begin with letters, and the second is no command word.
    Header,
    /// The field begins or ends with a space or a tab.
    Spaces,
    /// The field is a word that may be there, but for capital letters.
    Capitals,
    /// The field is `buy` or `sell`, in place of `bid` or `ask`.
    BuyOrSell,
    /// The field is a number with a decimal point.
    DecimalPoint,
    /// The field is a whole number, and no member of the day.
    NoSuchMember { members: u8 },
    /// The field is a whole number that is no limit of any day.
    OutOfBounds { low: u32, high: u32 },
}

impl Display for Hint {
    ghost output = { λ hint. Some (hint_text hint) };

    fn fmt<W: fmt::Write>(&self, f: &mut Formatter<W>) -> fmt::Result {
        match self {
            Hint::Utf16 => f.write_str("the input looks like UTF-16: save it as UTF-8"),
            Hint::Semicolons => {
                f.write_str("the input has semicolons: fields are parted by commas")
            }
            Hint::Tabs => f.write_str("the input has tabs: fields are parted by commas"),
            Hint::Header => f.write_str("the first record looks like a header: leave it out"),
            Hint::Spaces => f.write_str("a field has no spaces around it"),
            Hint::Capitals => f.write_str("words are in lower case"),
            Hint::BuyOrSell => f.write_str("a side is bid or ask"),
            Hint::DecimalPoint => f.write_str("numbers are whole, prices in ticks"),
            Hint::NoSuchMember { members } => {
                write!(f, "members are numbered from 0, and there are {members}")
            }
            Hint::OutOfBounds { low, high } => write!(f, "limits are ticks from {low} to {high}"),
        }
    }
}

/// Puts the bounds on the page.
fn put_bounds(page: &mut Page, low: u32, high: u32)
    requires { length page.old + 70 ≤ ROOM }
    ensures text { page.new ≡ page.old ++ hint_text (Hint.OutOfBounds low high) }
    ensures longer { length page.new ≤ length page.old + 70 }
{
    page.put("limits are ticks from ");
    page.put_number(u64::from(low));
    page.put(" to ");
    page.put_number(u64::from(high));
}

/// Puts how many members there are on the page.
fn put_count(page: &mut Page, members: u8)
    requires { length page.old + 70 ≤ ROOM }
    ensures text { page.new ≡ page.old ++ hint_text (Hint.NoSuchMember members) }
    ensures longer { length page.new ≤ length page.old + 70 }
{
    page.put("members are numbered from 0, and there are ");
    page.put_number(u64::from(members));
}

/// Puts the text of a likely cause on the page, at most 70 bytes.
pub fn put_hint(page: &mut Page, hint: Hint)
    requires { length page.old + 70 ≤ ROOM }
    ensures text { page.new ≡ page.old ++ hint_text hint }
    ensures longer { length page.new ≤ length page.old + 70 }
{
    match hint {
        Hint::Utf16 => page.put("the input looks like UTF-16: save it as UTF-8"),
        Hint::Semicolons => page.put("the input has semicolons: fields are parted by commas"),
        Hint::Tabs => page.put("the input has tabs: fields are parted by commas"),
        Hint::Header => page.put("the first record looks like a header: leave it out"),
        Hint::Spaces => page.put("a field has no spaces around it"),
        Hint::Capitals => page.put("words are in lower case"),
        Hint::BuyOrSell => page.put("a side is bid or ask"),
        Hint::DecimalPoint => page.put("numbers are whole, prices in ticks"),
        Hint::NoSuchMember { members } => put_count(page, members),
        Hint::OutOfBounds { low, high } => put_bounds(page, low, high),
    }
}
