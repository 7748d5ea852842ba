//! Text that was kept, copied into a room of C.
ghost use Rattle.std.specs.Prelude.{◌≡◌, ◌≤◌, ◌<◌, ◌+◌, ◌++◌, true, false, [], length, take, drop};
ghost use Rattle.printed_lines.specs.KeptText.{kept_text};

use printed_lines::KeptText;

/// Takes away what was kept.
pub(crate) fn clear(lines: &mut KeptText)
    ensures { kept_text lines.new ≡ [] }
{
    lines.full.clear();
    lines.page.clear();
}

// Copies a part behind what is before this place.
fn put_part(text: &mut [u8], at: usize, part: &[u8])
    requires { at + length part.now ≤ length text.old }
    ensures { text.new ≡ take at text.old ++ (part.now ++ drop (at + length part.now) text.old) }
{
    text[at..at + part.len()].copy_from_slice(part);
}

/// Copies what was kept behind what was written before, counts it, and answers true; or changes nothing where it
/// doesn't fit.
pub(crate) fn put_text(lines: &KeptText, text: &mut [u8], written: &mut usize) -> bool
    requires { written.old ≤ length text.old }
    ensures put { result ≡ true → text.new
        ≡ take written.old text.old ++ (kept_text lines.now ++ drop written.new text.old) }
    ensures count { result ≡ true → written.new ≡ written.old + length (kept_text lines.now) }
    ensures fits { result ≡ true → written.new ≤ length text.old }
    ensures long { result ≡ false → length text.old < written.old + length (kept_text lines.now) }
    ensures same { result ≡ false → (text.new ≡ text.old) × (written.new ≡ written.old) }
{
    let full = lines.full.as_slice();
    let page = lines.page.as_slice();
    let begin = *written;
    let room = text.len() - begin;
    if full.len() > room {
        return false;
    }
    if page.len() > room - full.len() {
        return false;
    }
    let middle = begin + full.len();
    put_part(text, begin, full);
    put_part(text, middle, page);
    *written = middle + page.len();
    true
}
