//! Reading an order file.

ghost use Rattle.std.specs.Prelude.{◌≡◌, ◌<◌, ◌≤◌, ◌↔◌, ◌⊎◌, ◌+◌, ◌-◌, All, length};
ghost use Rattle.std.specs.Prelude.{IfErr, IfOk, IfSome, IsErrOf};
ghost use Rattle.std.specs.Io.KnownBytes.{Consumes, IsAtEnd, prepend_known};
ghost use Rattle.byte_streams.specs.Streams.{TakesAtMost};
ghost use Rattle.order_file.specs.Calls.{IsReady, calls_left};
ghost use Rattle.csv.specs.Reading.{default_config, records, strip_bom};
ghost use Rattle.order_file.specs.File.{GivesWanted, IsBelow, IsOfRecord, calls_after, calls_of_file, within_limit};
ghost use Rattle.order_file.specs.declared.reading.TheConstants.{MAX_BYTES};

use crate::calls::Calls;
use crate::fault::FileFault;
use crate::overlong::up_to_overlong;
use crate::records::Records;
use auction_terms::Call;
use byte_streams::Source;
use std::alloc::Global;

/// How many bytes an order file may have at most.
pub const MAX_BYTES: usize = 67_108_864;

/// The limit, as FORMATS.md states it.
pub fn stated_limit()
    ensures { MAX_BYTES ≡ 67_108_864 }
{}

// How many bytes are asked for at a time.
const CHUNK: usize = 65_536;

/// The first bytes of an input: some, where there are any, and at most 65,536. A read that fails is
/// `FileFault::ReadFailed`, and where memory is refused it is `NoMemory`.
pub fn read_start<R: Source>(alloc: Global, reader: &mut R) -> Result<Vec<u8>, FileFault>
    ensures failed { IsErrOf result FileFault.ReadFailed ↔ (R.failures reader.old < R.failures reader.new) }
    ensures steady { IfOk result (λ _. R.failures reader.new ≡ R.failures reader.old) }
    ensures faults { IfErr result (λ e. (e ≡ FileFault.ReadFailed) ⊎ (e ≡ FileFault.NoMemory)) }
    ensures start { IfOk result (λ start. Consumes (R.left reader.old) (R.left reader.new) start.items
        × (length start.items ≤ CHUNK)) }
    ensures ended { IfOk result (λ start. length start.items ≡ 0 → IsAtEnd (R.left reader.new)) }
    ensures taken { TakesAtMost CHUNK (R.left reader.old) (R.left reader.new) }
{
    let mut start = Vec::new(alloc);
    let mut chunk = [0u8; CHUNK];
    let Ok(count) = reader.read(&mut chunk) else {
        return Err(FileFault::ReadFailed);
    };
    if start.extend_from_slice(&chunk[..count]).is_err() {
        return Err(FileFault::NoMemory);
    }
    Ok(start)
}

/// These bytes, and then everything that is left to read, in all `most` bytes at most: more is `FileFault::TooLong`, a
/// read that fails `ReadFailed`, and where memory is refused it is `NoMemory`. However much is left, no more than
/// `most` bytes and one are held.
pub fn bytes_after<R: Source>(
    start: Vec<u8>,
    reader: &mut R,
    most: usize,
) -> Result<Vec<u8>, FileFault>
    requires { length start.items ≤ most + 1 }
    ensures failed { IsErrOf result FileFault.ReadFailed ↔ (R.failures reader.old < R.failures reader.new) }
    ensures bytes { IfSome (prepend_known start.items (R.left reader.old))
        (λ text. GivesWanted (λ v. v.items) result (within_limit most text)) }
    ensures taken { TakesAtMost (most + 1 - length start.items) (R.left reader.old) (R.left reader.new) }
{
    let mut bytes = start;
    let mut chunk = [0u8; CHUNK];
    'reads: while bytes.len() <= most {
        let room = (most - bytes.len()).saturating_add(1).min(CHUNK);
        let buffer = &mut chunk[..room];
        let Ok(count) = reader.read(buffer) else {
            return Err(FileFault::ReadFailed);
        };
        if count == 0 {
            return Ok(bytes);
        }
        if bytes.extend_from_slice(&buffer[..count]).is_err() {
            return Err(FileFault::NoMemory);
        }
    }
    Err(FileFault::TooLong)
}

/// Everything that is left to read, with the faults of [`bytes_after`].
pub fn bytes_of<R: Source>(alloc: Global, reader: &mut R, most: usize) -> Result<Vec<u8>, FileFault>
    ensures failed { IsErrOf result FileFault.ReadFailed ↔ (R.failures reader.old < R.failures reader.new) }
    ensures bytes { IfSome (R.left reader.old) (λ left. GivesWanted (λ v. v.items) result (within_limit most left)) }
    ensures taken { TakesAtMost (most + 1) (R.left reader.old) (R.left reader.new) }
{
    bytes_after(Vec::new(alloc), reader, most)
}

/// The calls of the records of a text, of which none was read yet: they come after `count` others, and there may be
/// `max_calls` of both, each of one of `members` members. The only fault is that memory is refused.
pub(crate) fn calls_of_text<'a>(
    alloc: Global,
    text: &'a [u8],
    members: u8,
    max_calls: u32,
    count: u32,
) -> Result<Calls<'a>, FileFault>
    requires { count ≤ max_calls }
    ensures memory { IfErr result (λ e. e ≡ FileFault.NoMemory) }
    ensures ready { IfOk result (IsReady members max_calls count) }
    ensures calls { IfOk result (λ calls. calls_left calls
        ≡ calls_after members max_calls count (records default_config (strip_bom text.now))) }
{
    let records = Records::open(alloc, up_to_overlong(text))?;
    Ok(Calls::new(records, members, max_calls, count))
}

/// All calls that are left.
fn all_calls(alloc: Global, calls: &mut Calls<'_>) -> Result<Vec<Call>, FileFault>
    requires { IsReady calls.old.members calls.old.max_calls 0 calls.old }
    ensures calls { GivesWanted (λ v. v.items) result (calls_left calls.old) }
    ensures parsed { IfErr result IsOfRecord }
    ensures few { IfOk result (λ v. length v.items ≤ calls.old.max_calls) }
    ensures below { IfOk result (λ v. All (IsBelow calls.old.members) v.items) }
{
    let mut all = Vec::new(alloc);
    while let Some(call) = calls.next_call()? {
        if all.push(call).is_err() {
            return Err(FileFault::NoMemory);
        }
    }
    Ok(all)
}

/// The calls of a file that was read, or its first fault; `members` is how many members there are, `max_calls` how
/// many commands may be applied.
pub fn calls_of_file(
    alloc: Global,
    bytes: &[u8],
    members: u8,
    max_calls: u32,
) -> Result<Vec<Call>, FileFault>
    ensures calls { GivesWanted (λ v. v.items) result (calls_of_file members max_calls bytes.now) }
    ensures parsed { IfErr result IsOfRecord }
    ensures few { IfOk result (λ v. length v.items ≤ max_calls) }
    ensures below { IfOk result (λ v. All (IsBelow members) v.items) }
{
    let mut calls = Calls::open(alloc, bytes, members, max_calls)?;
    all_calls(alloc, &mut calls)
}
