//! A line without quotes: its fields are what is between its commas.

ghost use Rattle.std.specs.Prelude.{◌≡◌, [], true, OnOk};
ghost use Rattle.csv.specs.Records.{fields_of, partial_of};
ghost use Rattle.live_session.specs.UnquotedLines.{HasNone, fields_of_line, is_mark};

use csv::ByteRecord;
use memchr::{memchr, memchr3};
use std::alloc::AllocError;

/// Whether there is neither a quote nor a line end in a line.
pub(crate) fn is_plain(line: &[u8]) -> bool
    ensures { result ≡ true → HasNone is_mark line.now }
{
    memchr3(b'"', b'\n', b'\r', line).is_none()
}

/// Puts the fields of such a line on a record without fields: what is between its commas.
pub(crate) fn put_fields(row: &mut ByteRecord, line: &[u8]) -> Result<(), AllocError>
    requires fields { fields_of row.old ≡ [] }
    requires partial { partial_of row.old ≡ [] }
    ensures { OnOk result (fields_of row.new ≡ fields_of_line line.now) }
{
    let mut rest = line;
    'fields: while let Some(end) = memchr(b',', rest) {
        let (field, behind) = rest.split_at(end);
        let (_, more) = behind.split_at(1);
        row.push_field(field)?;
        rest = more;
    }
    row.push_field(rest)
}
