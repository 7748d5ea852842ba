//! What the library `csv` alone takes to read records.

use csv::{ByteRecord, Reader, ReaderBuilder};
use std::alloc::Global;
use std::io;

/// Reads each record, and does nothing with it. Answers how many there are.
fn count_records<R: io::Read + Drop>(reader: &mut Reader<R>, row: &mut ByteRecord) -> u64 {
    for count in 0..u64::MAX {
        let Ok(true) = reader.read_byte_record(row) else {
            return count;
        };
    }
    u64::MAX
}

/// Reads the records of standard input through `csv`, and prints how many there are.
pub fn measure_records(rt: &HostRuntime) -> io::Result<()> {
    let alloc: Global = rt.alloc();
    let mut reader = ReaderBuilder::new()
        .has_headers(false)
        .flexible(true)
        .from_reader(alloc, rt.stdin());
    let mut row = ByteRecord::new(alloc);
    let count = count_records(&mut reader, &mut row);
    println!(rt; "records {count}")
}
