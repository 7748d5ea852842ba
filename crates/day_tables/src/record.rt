//! The fields of a record.

ghost use Rattle.std.specs.Prelude.{◌≡◌, ◌≤◌, ◌+◌, ◌++◌, length, codes, decimal};
ghost use Rattle.printed_lines.specs.declared.page.TheConstants.{LONGEST_NUMBER, ROOM};
ghost use Rattle.day_tables.specs.TradeTable.{member_word};

use printed_lines::Page;

/// Puts a number and a comma on the page.
#[inline(always)]
pub(crate) fn put_number(page: &mut Page, number: u64)
    requires { length page.old + LONGEST_NUMBER + 1 ≤ ROOM }
    ensures text { page.new ≡ page.old ++ (decimal number ++ codes ",") }
    ensures longer { length page.new ≤ length page.old + LONGEST_NUMBER + 1 }
{
    page.put_number(number);
    page.put(",");
}

/// Puts a word and a comma on the page.
#[inline(always)]
pub(crate) fn put_word(page: &mut Page, word: &str)
    requires { length page.old + length word.now + 1 ≤ ROOM }
    ensures text { page.new ≡ page.old ++ (word.now ++ codes ",") }
    ensures longer { length page.new ≡ length page.old + length word.now + 1 }
{
    page.put(word);
    page.put(",");
}

/// Puts a member's number, where there is one, and a comma on the page.
pub(crate) fn put_member(page: &mut Page, member: Option<u8>)
    requires { length page.old + LONGEST_NUMBER + 1 ≤ ROOM }
    ensures text { page.new ≡ page.old ++ (member_word member ++ codes ",") }
    ensures longer { length page.new ≤ length page.old + LONGEST_NUMBER + 1 }
{
    match member {
        Some(member) => put_number(page, u64::from(member)),
        None => page.put(","),
    }
}
