//! Lines as long as they may be, and longer.

ghost use Rattle.std.specs.Prelude.{None};

use super::*;

/// Hands out a good record, then a line of `left` bytes, each `byte`, and a good record again, and keeps the last bytes
/// of what is answered.
#[derive(Drop)]
struct LongLine {
    front: &'static [u8],
    byte: u8,
    left: usize,
    behind: &'static [u8],
    answers: [u8; 128],
    len: usize,
}

impl LongLine {
    fn new(byte: u8, count: usize) -> LongLine {
        LongLine {
            front: b"1,ask\n",
            byte,
            left: count,
            behind: b"\n1,ask\n",
            answers: [0; 128],
            len: 0,
        }
    }

    /// The next byte, if there is one.
    fn next_byte(&mut self) -> Option<u8> {
        if let [byte, rest @ ..] = self.front {
            self.front = rest;
            return Some(*byte);
        }
        if self.left > 0 {
            self.left -= 1;
            return Some(self.byte);
        }
        let [byte, rest @ ..] = self.behind else {
            return None;
        };
        self.behind = rest;
        Some(*byte)
    }

    /// What was answered, if it is no more than there is room for.
    fn answers(&self) -> Option<&[u8]> {
        self.answers.get(..self.len)
    }
}

impl Conversation for LongLine {
    ghost left = { λ _. None };

    ghost written = { λ _. None };

    ghost committed = { λ _. None };

    ghost read_failures = { λ _. 0 };

    ghost write_failures = { λ _. 0 };

    ghost commit_failures = { λ _. 0 };

    ghost MayRead = { λ _. Unit {0} };

    ghost MayWrite = { λ _ _. Unit {0} };

    ghost Becomes = { λ a b. Unit {0} };

    ghost becomes_itself = { λ c. tt };

    ghost becomes_on = { λ a b c h k. tt };

    fn read(&mut self, buffer: &mut [u8]) -> Result<usize, SourceFailed> {
        for place in 0..buffer.len() {
            let Some(byte) = self.next_byte() else {
                return Ok(place);
            };
            buffer[place] = byte;
        }
        Ok(buffer.len())
    }

    fn commit(&mut self, _entries: &[u8]) -> Result<(), CommitFailed> {
        Ok(())
    }

    fn write(&mut self, text: &[u8]) -> Result<(), WriteFailed> {
        for byte in text {
            if let Some(slot) = self.answers.get_mut(self.len) {
                *slot = *byte;
            }
            self.len = self.len.saturating_add(1);
        }
        Ok(())
    }
}

/// A session with such a line gives these answers.
fn gives<T: Abort + AllocGlobal>(
    rt: &T,
    byte: u8,
    count: usize,
    answers: &[u8],
) -> Result<(), OpenFault> {
    let mut line = LongLine::new(byte, count);
    let auction = auction_of(rt.alloc(), 8)?;
    let ended = run_live(rt.alloc(), &mut line, auction, TERMS);
    assert_eq!(rt; ended, Ok(Ending::SomeBad));
    assert!(rt; line.answers() == Some(answers));
    Ok(())
}

#[test]
fn the_longest_line_is_read(rt: HostRuntime) -> Result<(), OpenFault> {
    let answers = b"1: no price bid - ask -\nrecord 2: bad member\n2: no price bid - ask -\n";
    for byte in [b'x', b','] {
        gives(&rt, byte, MAX_RECORD_BYTES, answers)?;
    }
    let number = b"1: no price bid - ask -\n\
        record 2: bad member: members are numbered from 0, and there are 4\n2: no price bid - ask -\n";
    gives(&rt, b'7', MAX_RECORD_BYTES, number)
}

#[test]
fn a_line_that_is_too_long_is_passed_over(rt: HostRuntime) -> Result<(), OpenFault> {
    let answers = b"1: no price bid - ask -\nrecord 2: record too long\n2: no price bid - ask -\n";
    for byte in [b'7', b'x', b',', b'"'] {
        gives(&rt, byte, MAX_RECORD_BYTES.saturating_add(1), answers)?;
        gives(&rt, byte, MAX_RECORD_BYTES.saturating_add(70_000), answers)?;
    }
    Ok(())
}
