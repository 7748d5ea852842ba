//! An end that is waited for.

use std::io::{Error, ErrorKind, Read, Result, Write};
use std::thread::sleep;
use std::time::{Clock, Duration};

// How long an end that isn't ready is left alone before it is tried again, in milliseconds.
const PAUSE: u64 = 1;

/// What is read or written as `end` is: where that would have to wait and doesn't, it is tried again after a pause by
/// this clock.
#[derive(Drop)]
pub struct Patient<'a, T: Drop, C: Clock> {
    pub end: T,
    pub clock: &'a C,
}

impl<'a, R: Read + Drop, C: Clock> Read for Patient<'a, R, C> {
    ghost remaining = { λ s. R.remaining s.end };

    fn read(&mut self, buf: &mut [u8]) -> Result<usize> {
        'turns: for _ in 0..u64::MAX {
            match self.end.read(buf) {
                Err(error) if error.kind() == ErrorKind::WouldBlock => {
                    sleep(self.clock, Duration::from_millis(PAUSE));
                }
                result => return result,
            }
        }
        Err(Error::from(ErrorKind::WouldBlock))
    }
}

impl<'a, W: Write + Drop, C: Clock> Write for Patient<'a, W, C> {
    ghost contents = { λ s. W.contents s.end };

    fn write(&mut self, buf: &[u8]) -> Result<usize> {
        'turns: for _ in 0..u64::MAX {
            match self.end.write(buf) {
                Err(error) if error.kind() == ErrorKind::WouldBlock => {
                    sleep(self.clock, Duration::from_millis(PAUSE));
                }
                result => return result,
            }
        }
        Err(Error::from(ErrorKind::WouldBlock))
    }

    fn flush(&mut self) -> Result<()> {
        self.end.flush()
    }
}
