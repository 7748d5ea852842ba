//! The records of a text, one after the other.

ghost use Rattle.std.specs.Prelude.{◌≡◌, ◌∷◌, [], IfOk, MatchBool};
ghost use Rattle.csv.specs.Reading.{default_config, records, strip_bom};
ghost use Rattle.csv.specs.Records.{fields_of};
ghost use Rattle.order_file.specs.Rows.{IsRecordReader, rows_left};

use csv::{ByteRecord, Reader, ReaderBuilder};
use std::alloc::{AllocError, Global};

/// A reader of the records of a text. It is given a row of headers, so that it keeps no copies of the first record. The
/// error is that memory is refused.
fn reader_of<'a>(alloc: Global, text: &'a [u8]) -> Result<Reader<&'a [u8]>, AllocError>
    ensures { IfOk result (λ r. IsRecordReader r × (rows_left r ≡ records default_config (strip_bom text.now))) }
{
    let mut reader = ReaderBuilder::new().flexible(true).from_reader(alloc, text);
    let Ok(()) = reader.set_byte_headers(ByteRecord::new(alloc)) else {
        return Err(AllocError);
    };
    Ok(reader)
}

/// The records of a text, and the one of them that was read last.
#[derive(Drop)]
pub struct Records<'a> {
    rows: Reader<&'a [u8]>,
    /// The record that was read last.
    pub row: ByteRecord,
}

impl<'a> Records<'a> {
    /// The records of a text, with none read yet. The error is that memory is refused.
    pub fn open(alloc: Global, text: &'a [u8]) -> Result<Records<'a>, AllocError>
        ensures { IfOk result (λ r. IsRecordReader r.rows
            × (rows_left r.rows ≡ records default_config (strip_bom text.now))) }
    {
        let rows = reader_of(alloc, text)?;
        Ok(Records {
            rows,
            row: ByteRecord::new(alloc),
        })
    }

    /// Reads the next record, and says whether there was one. The error is that memory is refused.
    pub fn next(&mut self) -> Result<bool, AllocError>
        requires { IsRecordReader self.old.rows }
        ensures { IfOk result (λ found. MatchBool found
            ((rows_left self.old.rows ≡ fields_of self.new.row ∷ rows_left self.new.rows)
            × IsRecordReader self.new.rows)
            (rows_left self.old.rows ≡ [])) }
    {
        // Bytes in memory are read without a failure, so what fails is memory.
        let Ok(found) = self.rows.read_byte_record(&mut self.row) else {
            return Err(AllocError);
        };
        Ok(found)
    }
}
