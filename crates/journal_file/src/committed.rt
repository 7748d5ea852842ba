//! How far a file's lines go, and what is behind them.

ghost use Rattle.std.specs.Prelude.{◌≡◌, ◌≤◌, ◌↔◌, length, take, IsTrue};
ghost use Rattle.journal_file.specs.Committed.{behind_lines, committed, HasTornEnd, IsTextLen, IsTornOf};

use memchr::{memchr, memrchr};

/// How many bytes of lines are written at a time at most, each time with a sync of its own: a crash tears no more.
pub const LONGEST_WRITE: usize = 4_096;

/// How many bytes the whole lines before the first NUL have.
pub fn committed_len(bytes: &[u8]) -> usize
    ensures count { result ≡ length (committed bytes.now) }
    ensures front { take result bytes.now ≡ committed bytes.now }
{
    let text = memchr(0, bytes).unwrap_or(bytes.len());
    match memrchr(b'\n', &bytes[..text]) {
        Some(last) => last + 1,
        None => 0,
    }
}

/// How many bytes there are up to the last one that isn't NUL.
fn text_len(bytes: &[u8]) -> usize
    ensures { IsTextLen bytes.now result }
{
    let mut count = 0;
    for (place, byte) in bytes.iter().enumerate() {
        if *byte != 0 {
            count = place + 1;
        }
    }
    count
}

/// How many bytes there are behind a file's lines, which end at `end`, up to the last one that isn't NUL. One torn
/// write can have left them if they are at most `LONGEST_WRITE`.
pub fn torn_len(bytes: &[u8], end: usize) -> usize
    requires { end ≡ length (committed bytes.now) }
    ensures len { IsTextLen (behind_lines bytes.now) result }
    ensures torn { (result ≤ LONGEST_WRITE) ↔ HasTornEnd bytes.now }
{
    let (_, behind) = bytes.split_at(end);
    text_len(behind)
}

/// Whether each byte is NUL or that of the text at its place, as a crash leaves a file over whose NULs the text was
/// being written.
pub fn is_torn_of(bytes: &[u8], text: &[u8]) -> bool
    ensures { IsTrue result ↔ IsTornOf text.now bytes.now }
{
    for (place, byte) in bytes.iter().enumerate() {
        if *byte != 0 && text.get(place).copied() != Some(*byte) {
            return false;
        }
    }
    true
}
