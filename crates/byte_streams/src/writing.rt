//! Bytes that are written whole.

ghost use Rattle.byte_streams.specs.Writing.{WritesAll};

use crate::sink::Sink;

/// A write failed, or took no byte.
#[derive(Clone, Copy, Debug, PartialEq, Eq)]
pub struct WriteFailed;

/// Writes all of these bytes, however few each write takes, or at a failure a beginning of them.
pub fn write_all<S: Sink>(sink: &mut S, bytes: &[u8]) -> Result<(), WriteFailed>
    ensures { WritesAll S.Sink sink.old sink.new result bytes.now }
{
    let mut rest = bytes;
    'writes: while !rest.is_empty() {
        let Ok(count) = sink.write(rest) else {
            return Err(WriteFailed);
        };
        if count == 0 {
            return Err(WriteFailed);
        }
        let (_, left) = rest.split_at(count);
        rest = left;
    }
    Ok(())
}
