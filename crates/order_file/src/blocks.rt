//! An input that is read block by block.

ghost use Rattle.std.specs.Prelude.{◌≡◌, ◌≢◌, ◌<◌, ◌≤◌, ◌↔◌, ◌+◌, ◌-◌, ◌++◌, ◌∷◌, [], true, ℕ, List, All};
ghost use Rattle.std.specs.Prelude.{drop, length, slice_index, take, IfErr, IfOk, IfSome, IsErrOf, MatchBool};
ghost use Rattle.std.specs.Prelude.{MatchResult};
ghost use Rattle.std.specs.Io.KnownBytes.{Consumes, IsAtEnd, prepend_known};
ghost use Rattle.byte_streams.specs.Streams.{TakesAtMost};
ghost use Rattle.csv.specs.Reading.{default_config, records, strip_bom};
ghost use Rattle.order_file.specs.Blocks.{ExplainsReading, GivesNextBlock, BlockState, IsCut, IsBlock, IsOfInput};
ghost use Rattle.order_file.specs.Blocks.{IsOfReading};
ghost use Rattle.order_file.specs.Blocks.{OpensBlock, PassesOverRest, ReadsBytes, TakesBytes, TakesBytesOrFails};
ghost use Rattle.order_file.specs.Blocks.{block_rows, turns_left};
ghost use Rattle.order_file.specs.Blocks.{without_mark};
ghost use Rattle.order_file.specs.Calls.{IsReady, calls_left};
ghost use Rattle.order_file.specs.File.{calls_after};

use crate::calls::Calls;
use crate::fault::FileFault;
use crate::reading::calls_of_text;
use byte_streams::Source;
use memchr::{memchr, memrchr};
use std::alloc::Global;
use std::marker::Model;

// How many bytes a block has at least, where the input has as many.
const BLOCK: usize = 131_072;

// How many bytes are asked for at a time.
const PIECE: usize = 32_768;

/// An input, of which whole lines are held, as many as a block has, and the beginning of the next one.
///
/// A line ends where no quote is before it in its block. An input is held whole from the first block on that has a
/// quote, or no line end.
#[derive(Drop)]
pub struct Blocks {
    // The first is a line end that was before the block, so that no byte order mark is found here.
    bytes: Vec<u8>,
    whole: usize,
    room: usize,
    ended: bool,
}

impl Model for Blocks {
    ghost Value = { BlockState };

    ghost view = { λ b. record { bytes = b.bytes.items; whole = b.whole; room = b.room; ended = b.ended } };

    ghost invariant = { λ b. IsBlock b.bytes.items b.whole b.ended };
}

// How many bytes at the front are whole lines, and whether they are all up to the end of the input.
#[derive(Clone, Copy)]
struct Cut {
    whole: usize,
    ended: bool,
}

// Reads on until `enough` bytes are held, and says whether the end was found before.
fn read_on<R: Source>(
    reader: &mut R,
    bytes: &mut Vec<u8>,
    room: &mut usize,
    enough: usize,
) -> Result<bool, FileFault>
    ensures failed { IsErrOf result FileFault.ReadFailed ↔ (R.failures reader.old < R.failures reader.new) }
    ensures steady { IfOk result (λ _. R.failures reader.new ≡ R.failures reader.old) }
    ensures fault { IfErr result (λ e. ExplainsReading e room.old (R.left reader.old)) }
    ensures grown { (more : List ℕ) × (bytes.new.items ≡ bytes.old.items ++ more) }
    ensures read { IfOk result (λ _.
        ReadsBytes (R.left reader.old) (R.left reader.new) bytes.old.items bytes.new.items room.old room.new) }
    ensures ended { IfOk result (λ ended.
        MatchBool ended (IsAtEnd (R.left reader.new)) (enough ≤ length bytes.new.items)) }
    ensures taken { TakesAtMost (room.old + 1) (R.left reader.old) (R.left reader.new) }
{
    let mut piece = [0u8; PIECE];
    'reads: while bytes.len() < enough {
        let ask = room.saturating_add(1).min(PIECE);
        let buffer = &mut piece[..ask];
        let Ok(count) = reader.read(buffer) else {
            return Err(FileFault::ReadFailed);
        };
        if count == 0 {
            return Ok(true);
        }
        if count > *room {
            return Err(FileFault::TooLong);
        }
        if bytes.extend_from_slice(&buffer[..count]).is_err() {
            return Err(FileFault::NoMemory);
        }
        *room -= count;
    }
    Ok(false)
}

// How many bytes at the front are whole lines after the first byte, if there are any and no quote is in them.
fn whole_lines(bytes: &[u8]) -> Option<usize>
    ensures { IfSome result (λ whole. (1 < whole) × (whole ≤ length bytes.now)
        × (slice_index bytes.now (whole - 1) ≡ 10) × All (λ c. c ≢ 34) (take (whole - 1) bytes.now)) }
{
    let last = memrchr(b'\n', bytes)?;
    if last == 0 || memchr(b'"', &bytes[..last]).is_some() {
        return None;
    }
    Some(last + 1)
}

// Drops bytes at the front.
fn drop_front(bytes: &mut Vec<u8>, count: usize)
    requires { count ≤ length bytes.old.items }
    ensures { bytes.new.items ≡ drop count bytes.old.items }
{
    let rest = bytes.len() - count;
    bytes.copy_within(count.., 0);
    bytes.truncate(rest);
}

// The whole lines of the bytes that were read, of which `ended` says whether they are all up to the end; where there
// are none, the rest of the input is read.
fn cut_lines<R: Source>(
    reader: &mut R,
    bytes: &mut Vec<u8>,
    room: &mut usize,
    ended: bool,
) -> Result<Cut, FileFault>
    requires begun { 0 < length bytes.old.items }
    requires known { ended ≡ true → IsAtEnd (R.left reader.old) }
    ensures failed { IsErrOf result FileFault.ReadFailed ↔ (R.failures reader.old < R.failures reader.new) }
    ensures steady { IfOk result (λ _. R.failures reader.new ≡ R.failures reader.old) }
    ensures fault { IfErr result (λ e. ExplainsReading e room.old (R.left reader.old)) }
    ensures grown { (more : List ℕ) × (bytes.new.items ≡ bytes.old.items ++ more) }
    ensures read { IfOk result (λ _.
        ReadsBytes (R.left reader.old) (R.left reader.new) bytes.old.items bytes.new.items room.old room.new) }
    ensures cut { IfOk result (λ cut. (0 < cut.whole) × IsCut bytes.new.items cut.whole cut.ended) }
    ensures ended { IfOk result (λ cut. cut.ended ≡ true → IsAtEnd (R.left reader.new)) }
    ensures stays { IfOk result (λ cut. ended ≡ true → cut.ended ≡ true) }
    ensures taken { TakesAtMost (room.old + 1) (R.left reader.old) (R.left reader.new) }
{
    if !ended {
        if let Some(whole) = whole_lines(bytes.as_slice()) {
            return Ok(Cut {
                whole,
                ended: false,
            });
        }
        read_on(reader, bytes, room, usize::MAX)?;
    }
    let whole = bytes.len();
    Ok(Cut { whole, ended: true })
}

// Reads what is left, and keeps none of it.
fn pass_over<R: Source>(reader: &mut R, most: usize) -> Result<(), FileFault>
    ensures failed { IsErrOf result FileFault.ReadFailed ↔ (R.failures reader.old < R.failures reader.new) }
    ensures steady { IfOk result (λ _. R.failures reader.new ≡ R.failures reader.old) }
    ensures faults { IfErr result IsOfInput }
    ensures fault { IfErr result (λ e. ExplainsReading e most (R.left reader.old)) }
    ensures read { IfOk result (λ _. (bytes : List ℕ) × Consumes (R.left reader.old) (R.left reader.new) bytes
        × (length bytes ≤ most) × IsAtEnd (R.left reader.new)) }
    ensures taken { TakesAtMost (most + 1) (R.left reader.old) (R.left reader.new) }
{
    let mut piece = [0u8; PIECE];
    let mut room = most;
    'reads: loop {
        let ask = room.saturating_add(1).min(PIECE);
        let Ok(count) = reader.read(&mut piece[..ask]) else {
            return Err(FileFault::ReadFailed);
        };
        if count == 0 {
            return Ok(());
        }
        if count > room {
            return Err(FileFault::TooLong);
        }
        room -= count;
    }
}

// Puts line ends in the place of a byte order mark after the first byte.
fn blank_mark(bytes: &mut Vec<u8>)
    ensures marked { bytes.new.items ≡ without_mark bytes.old.items }
    ensures same_length { length bytes.new.items ≡ length bytes.old.items }
{
    if bytes.len() >= 4 && bytes[1] == 0xEF && bytes[2] == 0xBB && bytes[3] == 0xBF {
        bytes[1] = b'\n';
        bytes[2] = b'\n';
        bytes[3] = b'\n';
    }
}

// A line end, and then these bytes.
fn begun_with(alloc: Global, start: &[u8]) -> Result<Vec<u8>, FileFault>
    ensures bytes { IfOk result (λ bytes. bytes.items ≡ (10 ∷ []) ++ start.now) }
    ensures memory { IfErr result (λ e. e ≡ FileFault.NoMemory) }
{
    let mut bytes = Vec::new(alloc);
    if bytes.push(b'\n').is_err() || bytes.extend_from_slice(start).is_err() {
        return Err(FileFault::NoMemory);
    }
    Ok(bytes)
}

impl Blocks {
    /// The first block of an input of which these bytes at the start were read, and which may have `most` bytes in all:
    /// if more are found, it is `FileFault::TooLong`, a read that fails `ReadFailed`, and where memory is refused it is
    /// `NoMemory`. A byte order mark at the start is passed over.
    pub fn open<R: Source>(
        alloc: Global,
        start: &[u8],
        reader: &mut R,
        most: usize,
    ) -> Result<Blocks, FileFault>
        requires { length start.now ≤ most }
        ensures failed { IsErrOf result FileFault.ReadFailed ↔ (R.failures reader.old < R.failures reader.new) }
        ensures steady { IfOk result (λ _. R.failures reader.new ≡ R.failures reader.old) }
        ensures faults { IfErr result IsOfReading }
        ensures rows { IfSome (prepend_known start.now (R.left reader.old))
            (λ text. OpensBlock result most (R.left reader.new) text) }
        ensures taken { TakesBytesOrFails result (most - length start.now) (λ b. b.room)
            (R.left reader.old) (R.left reader.new) }
    {
        let mut bytes = begun_with(alloc, start)?;
        let mut room = most - start.len();
        let ended = read_on(reader, &mut bytes, &mut room, BLOCK)?;
        blank_mark(&mut bytes);
        let cut = cut_lines(reader, &mut bytes, &mut room, ended)?;
        Ok(Blocks {
            bytes,
            whole: cut.whole,
            room,
            ended: cut.ended,
        })
    }

    /// The lines of this block.
    pub fn lines(&self) -> &[u8]
        ensures { records default_config (strip_bom result.now) ≡ block_rows self.now }
    {
        &self.bytes[..self.whole]
    }

    /// The calls of the records of this block, of which none was read yet: they come after `count` others, and there
    /// may be `max_calls` of both, each of one of `members` members. The only fault is that memory is refused.
    pub fn calls(
        &self,
        alloc: Global,
        members: u8,
        max_calls: u32,
        count: u32,
    ) -> Result<Calls<'_>, FileFault>
        requires { count ≤ max_calls }
        ensures memory { IfErr result (λ e. e ≡ FileFault.NoMemory) }
        ensures ready { IfOk result (IsReady members max_calls count) }
        ensures calls { IfOk result (λ calls.
            calls_left calls ≡ calls_after members max_calls count (block_rows self.now)) }
    {
        calls_of_text(alloc, self.lines(), members, max_calls, count)
    }

    /// Goes on to the next block, and says whether there is one. The faults are those of `open`; after a fault there is
    /// no block.
    pub fn next<R: Source>(&mut self, reader: &mut R) -> Result<bool, FileFault>
        ensures failed { IsErrOf result FileFault.ReadFailed ↔ (R.failures reader.old < R.failures reader.new) }
        ensures steady { IfOk result (λ _. R.failures reader.new ≡ R.failures reader.old) }
        ensures faults { IfErr result IsOfReading }
        ensures rows { IfSome (R.left reader.old)
            (λ left. GivesNextBlock result self.old self.new (R.left reader.new) left) }
        ensures taken { TakesBytesOrFails result self.old.room (λ _. self.new.room) (R.left reader.old)
            (R.left reader.new) }
        ensures falls { IfOk result (λ more. more ≡ true → turns_left self.new < turns_left self.old) }
    {
        if self.ended {
            return Ok(false);
        }
        drop_front(&mut self.bytes, self.whole - 1);
        self.whole = 1;
        let enough = self.bytes.len().saturating_add(BLOCK);
        let ended = read_on(reader, &mut self.bytes, &mut self.room, enough)?;
        let cut = cut_lines(reader, &mut self.bytes, &mut self.room, ended)?;
        self.whole = cut.whole;
        self.ended = cut.ended;
        Ok(true)
    }

    /// Reads what is left of the input, and keeps none of it: so an input that is too long, or cannot be read, is known
    /// for such, whatever was found before. The faults are `FileFault::TooLong` and `ReadFailed`.
    pub fn drain<R: Source>(&self, reader: &mut R) -> Result<(), FileFault>
        ensures failed { IsErrOf result FileFault.ReadFailed ↔ (R.failures reader.old < R.failures reader.new) }
        ensures steady { IfOk result (λ _. R.failures reader.new ≡ R.failures reader.old) }
        ensures faults { IfErr result IsOfInput }
        ensures rows { IfSome (R.left reader.old) (λ left. PassesOverRest result self.now left) }
        ensures taken { TakesAtMost (self.now.room + 1) (R.left reader.old) (R.left reader.new) }
    {
        if self.ended {
            return Ok(());
        }
        pass_over(reader, self.room)
    }
}
