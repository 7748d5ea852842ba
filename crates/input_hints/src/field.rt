//! What a malformed field looks like.

ghost use Rattle.std.specs.Prelude.{◌≡◌, ◌≤◌, length};
ghost use Rattle.std.specs.Str.{bytes_eq};
ghost use Rattle.input_hints.specs.FieldLooks.{digits_in, has_blank_edge, has_byte, has_letter_first, is_blank_byte};
ghost use Rattle.input_hints.specs.FieldLooks.{is_command_word, is_decimal, is_digits, is_utf_16, is_whole, points_in};
ghost use Rattle.input_hints.specs.Hints.{is_like_file};

/// Whether the bytes have this one among them.
pub(crate) fn has_byte(bytes: &[u8], wanted: u8) -> bool
    ensures { result ≡ has_byte wanted bytes.now }
{
    bytes.contains(&wanted)
}

/// Whether the bytes begin as a text in UTF-16 does.
pub(crate) fn is_utf_16(bytes: &[u8]) -> bool
    ensures { result ≡ is_utf_16 bytes.now }
{
    match bytes {
        [0xff, 0xfe, ..] | [0xfe, 0xff, ..] | [0, ..] | [_, 0, ..] => true,
        _ => false,
    }
}

/// Whether the first byte is a letter.
pub(crate) fn has_letter_first(bytes: &[u8]) -> bool
    ensures { result ≡ has_letter_first bytes.now }
{
    match bytes {
        [b'A'..=b'Z', ..] | [b'a'..=b'z', ..] => true,
        _ => false,
    }
}

/// Whether a byte is a space or a tab.
fn is_blank_byte(byte: Option<u8>) -> bool
    ensures { result ≡ is_blank_byte byte }
{
    match byte {
        Some(byte) => byte == b' ' || byte == b'\t',
        None => false,
    }
}

/// Whether a field begins or ends with a space or a tab.
pub(crate) fn has_blank_edge(field: &[u8]) -> bool
    ensures { result ≡ has_blank_edge field.now }
{
    is_blank_byte(field.first().copied()) || is_blank_byte(field.last().copied())
}

/// How many digits there are.
fn digits_in(field: &[u8]) -> usize
    ensures count { result ≡ digits_in field.now }
    ensures within { result ≤ length field.now }
{
    field.iter().filter(|byte| byte.is_ascii_digit()).count()
}

/// How many points there are.
fn points_in(field: &[u8]) -> usize
    ensures { result ≡ points_in field.now }
{
    field.iter().filter(|byte| **byte == b'.').count()
}

/// Whether there is a digit, and nothing but digits.
fn is_digits(field: &[u8]) -> bool
    ensures { result ≡ is_digits field.now }
{
    !field.is_empty() && digits_in(field) == field.len()
}

/// Whether a field is a whole number of any size, with a minus before it or none.
pub(crate) fn is_whole(field: &[u8]) -> bool
    ensures { result ≡ is_whole field.now }
{
    match field {
        [b'-', digits @ ..] => is_digits(digits),
        _ => is_digits(field),
    }
}

/// Whether a field has digits and one point, and nothing else.
pub(crate) fn is_decimal(field: &[u8]) -> bool
    ensures { result ≡ is_decimal field.now }
{
    let digits = digits_in(field);
    digits > 0 && points_in(field) == 1 && field.len() - digits == 1
}

/// Whether a text is a command word.
#[tactic(auto, unfolding(order_file::specs::CommandWord::word_of))]
pub(crate) fn is_command_word(text: &[u8]) -> bool
    ensures { result ≡ is_command_word text.now }
{
    text == b"enter".as_slice()
        || text == b"change".as_slice()
        || text == b"delete".as_slice()
        || text == b"status".as_slice()
        || text == b"ask".as_slice()
        || text == b"trade".as_slice()
        || text == b"uncross".as_slice()
}

/// Whether a word looks like the name of a file: it has a dot or a slash, and doesn't begin with a dash.
pub fn is_like_file(word: &str) -> bool
    ensures { result ≡ is_like_file word.now }
{
    let bytes = word.as_bytes();
    if bytes.first() == Some(&b'-') {
        return false;
    }
    has_byte(bytes, b'.') || has_byte(bytes, b'/')
}
