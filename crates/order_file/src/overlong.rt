//! Records with more fields than any record may have.

ghost use Rattle.std.specs.Prelude.{◌≡◌, ◌≢◌, ◌≤◌, All, length, true};
ghost use Rattle.csv.specs.Reading.{default_config, records, strip_bom};
ghost use Rattle.csv.specs.declared.parser.State.TheVariants as st;
ghost use Rattle.order_file.specs.Overlong.{AreUpToOverlong, HaveFewFields, bytes_to_overlong, fields_at, mark_len};
ghost use Rattle.order_file.specs.Spot.{state_of};

use crate::spot::Spot;
use memchr::{memchr, memrchr};

// A record of more fields is refused for their number, whatever they hold.
const MOST_FIELDS: usize = 64;

// How many bytes a line may have whose fields aren't counted before they are read.
const SHORT_LINE: usize = 1_048_576;

// How many fields of the record at hand have ended at a spot, where so many had before its byte.
fn fields_at(spot: Spot, before: usize) -> usize
    requires { before ≤ MOST_FIELDS }
    ensures { result ≡ fields_at (state_of spot) before }
{
    match spot {
        Spot::FieldStart => before + 1,
        Spot::RecordStart | Spot::AfterReturn => 0,
        Spot::InField | Spot::InQuotes | Spot::AfterQuote => before,
    }
}

// How many bytes of a text come before a record has more than `MOST_FIELDS` fields, or in all.
fn bytes_to_overlong(text: &[u8]) -> usize
    ensures exact { result ≡ bytes_to_overlong st.StartRecord 0 text.now }
    ensures within { result ≤ length text.now }
{
    let mut spot = Spot::RecordStart;
    let mut fields = 0;
    for at in 0..text.len() {
        if fields > MOST_FIELDS {
            return at;
        }
        spot = spot.after(text[at]);
        fields = fields_at(spot, fields);
    }
    text.len()
}

// How many bytes a byte order mark at the start of a text has.
#[tactic(auto, unfolding(crate::specs::Overlong::mark_len))]
fn mark_len(text: &[u8]) -> usize
    ensures { result ≡ mark_len text.now }
{
    if text.len() >= 3 && text[0] == 0xEF && text[1] == 0xBB && text[2] == 0xBF {
        return 3;
    }
    0
}

// Whether each line of a text without a quote is short.
fn are_lines_short(text: &[u8]) -> bool
    requires { All (λ c. c ≢ 34) text.now }
    ensures { result ≡ true → HaveFewFields (records default_config text.now) }
{
    let mut rest = text;
    'lines: while rest.len() > SHORT_LINE {
        let (front, _) = rest.split_at(SHORT_LINE);
        let Some(end) = memrchr(b'\n', front) else {
            return false;
        };
        let (_, more) = rest.split_at(end + 1);
        rest = more;
    }
    true
}

// Whether each line of a text is short, and no quote joins some: then no record has very many fields.
fn has_short_lines(text: &[u8]) -> bool
    ensures short { length text.now ≤ SHORT_LINE → result ≡ true }
    ensures few { result ≡ true → HaveFewFields (records default_config text.now) }
{
    if text.len() <= SHORT_LINE {
        return true;
    }
    if memchr(b'"', text).is_some() {
        return false;
    }
    are_lines_short(text)
}

/// This text, or, where a record of it may have very many fields, what comes before the 65th of the first one that has
/// so many: however many there are, such a record is refused for their number, and so few take little memory. No record
/// of what is left has more fields than a short line can have.
pub fn up_to_overlong(text: &[u8]) -> &[u8]
    ensures alike { AreUpToOverlong (records default_config (strip_bom result.now))
        (records default_config (strip_bom text.now)) }
    ensures few { HaveFewFields (records default_config (strip_bom result.now)) }
{
    let start = mark_len(text);
    let (_, behind) = text.split_at(start);
    if has_short_lines(behind) {
        return text;
    }
    let (front, _) = text.split_at(start + bytes_to_overlong(behind));
    front
}
