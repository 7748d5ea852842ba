//! An input that is read block by block: where its blocks end, and its own ends.

use byte_streams::{FromMemory, Source, SourceFailed};
use order_file::{Blocks, FileFault, Records, calls_of_file, up_to_overlong};
use std::alloc::{AllocError, Global};
use std::test::Fail;

// This line, `count` times.
fn lines(alloc: Global, line: &[u8], count: u32) -> Result<Vec<u8>, AllocError> {
    let mut text = Vec::new(alloc);
    for _ in 0..count {
        text.extend_from_slice(line)?;
    }
    Ok(text)
}

// How many records of one field a block has that have this first field.
fn rows_in(alloc: Global, blocks: &Blocks, field: &[u8]) -> Result<u32, FileFault> {
    let mut records = Records::open(alloc, blocks.lines())?;
    for count in 0..1_000_000 {
        if !records.next()? || records.row.get(0) != Some(field) {
            return Ok(count);
        }
    }
    Ok(0)
}

// How many blocks an input has, and how many records that begin with this field.
fn counted<R: Source>(
    alloc: Global,
    source: &mut R,
    most: usize,
    field: &[u8],
) -> Result<(u32, u32), FileFault> {
    let mut blocks = Blocks::open(alloc, b"".as_slice(), source, most)?;
    let mut rows: u32 = 0;
    for count in 1..9 {
        rows = rows.wrapping_add(rows_in(alloc, &blocks, field)?);
        if !blocks.next(source)? {
            return Ok((count, rows));
        }
    }
    Ok((0, rows))
}

const LINE: &[u8] = b"1,status,7,and more fields than there may be, so that lines are long\n";

#[test]
fn blocks_are_whole_lines(rt: HostRuntime) -> Result<(), Fail> {
    let text = lines(rt.alloc(), LINE, 2000)?;
    let most = text.len();
    let mut source = FromMemory {
        rest: text.as_slice(),
    };
    assert!(rt; counted(rt.alloc(), &mut source, most, b"1") == Ok((2, 2000)));
    Ok(())
}

#[test]
fn a_line_end_in_quotes_ends_no_block(rt: HostRuntime) -> Result<(), Fail> {
    let text = lines(
        rt.alloc(),
        b"1,\"status\n1,status\n1,status\n1,status\n1,status\n\"\n",
        6000,
    )?;
    let mut source = FromMemory {
        rest: text.as_slice(),
    };
    assert!(rt; counted(rt.alloc(), &mut source, 1_000_000, b"1") == Ok((1, 6000)));
    Ok(())
}

#[test]
fn a_line_may_be_longer_than_a_block(rt: HostRuntime) -> Result<(), Fail> {
    let text = lines(rt.alloc(), b"a field of thirty-two characters,", 10_000)?;
    let mut source = FromMemory {
        rest: text.as_slice(),
    };
    assert!(rt;
        counted(
            rt.alloc(),
            &mut source,
            1_000_000,
            b"a field of thirty-two characters"
        ) == Ok((1, 1))
    );
    Ok(())
}

// Each line begins as a file with a byte order mark does, which belongs to the field of all but the first.
#[test]
fn a_byte_order_mark_is_at_the_start_alone(rt: HostRuntime) -> Result<(), Fail> {
    let line =
        b"\xEF\xBB\xBFname of sixty-one characters, or rather of some fewer ones\n".as_slice();
    let text = lines(rt.alloc(), line, 2500)?;
    let mut source = FromMemory {
        rest: text.as_slice(),
    };
    let mut blocks = Blocks::open(rt.alloc(), b"".as_slice(), &mut source, 1_000_000)?;
    assert!(rt; rows_in(rt.alloc(), &blocks, b"name of sixty-one characters") == Ok(1));
    assert!(rt; blocks.next(&mut source) == Ok(true));
    let rows = rows_in(
        rt.alloc(),
        &blocks,
        b"\xEF\xBB\xBFname of sixty-one characters",
    )?;
    assert!(rt; rows > 250 && rows < 1000);
    assert!(rt; blocks.next(&mut source) == Ok(false));
    Ok(())
}

#[test]
fn an_input_has_an_end(rt: HostRuntime) -> Result<(), Fail> {
    for (text, rows) in [
        (b"".as_slice(), 0),
        (b"\n".as_slice(), 0),
        (b"1".as_slice(), 1),
        (b"1\n1".as_slice(), 2),
        (b"1\r\n1\r\n".as_slice(), 2),
        (b"1\n\"1\"\n\n1\n".as_slice(), 3),
        (b"\xEF\xBB\xBF1\n1".as_slice(), 2),
        (b"\xEF\xBB".as_slice(), 0),
    ] {
        let mut source = FromMemory { rest: text };
        assert!(rt; counted(rt.alloc(), &mut source, 9, b"1") == Ok((1, rows)));
    }
    Ok(())
}

#[test]
fn a_longer_input_is_refused(rt: HostRuntime) -> Result<(), Fail> {
    let text = lines(rt.alloc(), LINE, 4000)?;
    let most = text.len().saturating_sub(1);
    let mut source = FromMemory {
        rest: text.as_slice(),
    };
    assert!(rt; counted(rt.alloc(), &mut source, most, b"1") == Err(FileFault::TooLong));
    let mut source = FromMemory {
        rest: text.as_slice(),
    };
    let blocks = Blocks::open(rt.alloc(), b"".as_slice(), &mut source, most)?;
    assert!(rt; blocks.drain(&mut source) == Err(FileFault::TooLong));
    let mut source = FromMemory {
        rest: text.as_slice(),
    };
    let blocks = Blocks::open(rt.alloc(), b"".as_slice(), &mut source, text.len())?;
    assert!(rt; blocks.drain(&mut source) == Ok(()));
    assert!(rt; source.rest.is_empty());
    Ok(())
}

/// Line ends, a few at a time, and then a failure.
#[derive(Drop)]
struct Failing {
    left: usize,
    failed: bool,
}

impl Source for Failing {
    ghost use Rattle.std.specs.Prelude.{None, if◌then◌else◌};

    ghost failures = { λ s. if s.failed then 1 else 0 };

    ghost left = { λ _. None };

    fn read(&mut self, buffer: &mut [u8]) -> Result<usize, SourceFailed> {
        let count = self.left.min(buffer.len()).min(1000);
        if count == 0 && !self.failed {
            self.failed = true;
            return Err(SourceFailed);
        }
        buffer[..count].fill(b'\n');
        self.left -= count;
        Ok(count)
    }
}

#[test]
fn a_failed_read_is_told(rt: HostRuntime) -> Result<(), Fail> {
    let mut source = Failing {
        left: 5000,
        failed: false,
    };
    assert!(rt; counted(rt.alloc(), &mut source, 9000, b"1") == Err(FileFault::ReadFailed));
    let mut source = Failing {
        left: 300_000,
        failed: false,
    };
    assert!(rt; counted(rt.alloc(), &mut source, 900_000, b"1") == Err(FileFault::ReadFailed));
    let mut source = Failing {
        left: 300_000,
        failed: false,
    };
    let blocks = Blocks::open(rt.alloc(), b"".as_slice(), &mut source, 900_000)?;
    assert!(rt; blocks.drain(&mut source) == Err(FileFault::ReadFailed));
    Ok(())
}

// A text that ends in a record of very many fields, with the fault of that record, and how many bytes of the text come
// before its 65th field ends.
const OVERLONG: [(&[u8], FileFault, usize); 6] = [
    (b"", FileFault::BadMember { number: 1 }, 65),
    (b"1,ask", FileFault::BadCount { number: 1 }, 69),
    (b"4,ask", FileFault::BadMember { number: 1 }, 69),
    (
        b"1,ask\r1,\"as\"\"k\"",
        FileFault::BadCommand { number: 2 },
        79,
    ),
    (
        b"\xEF\xBB\xBF1,\"ask\"\n\n1,delete",
        FileFault::BadCount { number: 2 },
        84,
    ),
    (
        b"\xEF\xBB\xBF\xEF\xBB\xBF1",
        FileFault::BadMember { number: 1 },
        72,
    ),
];

#[test]
fn an_overlong_record_is_refused_by_its_first_fields(rt: HostRuntime) -> Result<(), Fail> {
    for (start, fault, count) in OVERLONG {
        let mut text = Vec::new(rt.alloc());
        text.extend_from_slice(start)?;
        text.extend_from_slice(lines(rt.alloc(), b",", 1_100_000)?.as_slice())?;
        assert!(rt; up_to_overlong(text.as_slice()).len() == count);
        let calls = calls_of_file(rt.alloc(), text.as_slice(), 4, 100);
        assert!(rt; calls.err() == Some(fault));
    }
    Ok(())
}

#[test]
fn short_lines_are_read_whole(rt: HostRuntime) -> Result<(), Fail> {
    let text = lines(rt.alloc(), LINE, 20_000)?;
    assert!(rt; up_to_overlong(text.as_slice()).len() == text.len());
    let short = lines(rt.alloc(), b",", 1_000_000)?;
    assert!(rt; up_to_overlong(short.as_slice()).len() == short.len());
    Ok(())
}
