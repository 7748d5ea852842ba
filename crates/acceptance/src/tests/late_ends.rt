//! An end that isn't ready at once.

use byte_streams::Patient;
use std::io::{Error, ErrorKind, Read, Result, Write};
use std::process::Abort;

/// An end that isn't ready `times` times, and then reads or takes one byte.
#[derive(Drop)]
struct Late {
    times: u8,
    taken: u8,
}

impl Late {
    /// One time less.
    fn turn(&mut self) -> Result<()> {
        if self.times == 0 {
            return Ok(());
        }
        self.times = self.times.saturating_sub(1);
        Err(Error::from(ErrorKind::WouldBlock))
    }
}

impl Read for Late {
    fn read(&mut self, buf: &mut [u8]) -> Result<usize> {
        self.turn()?;
        if buf.is_empty() {
            return Ok(0);
        }
        buf[0] = 7;
        Ok(1)
    }
}

impl Write for Late {
    fn write(&mut self, buf: &[u8]) -> Result<usize> {
        self.turn()?;
        if buf.is_empty() {
            return Ok(0);
        }
        self.taken = buf[0];
        Ok(1)
    }

    fn flush(&mut self) -> Result<()> {
        Ok(())
    }
}

#[test]
fn what_is_not_ready_is_waited_for(rt: HostRuntime) -> Result<()> {
    let mut patient = Patient {
        end: Late { times: 3, taken: 0 },
        clock: &rt,
    };
    let mut room = [0u8; 2];
    assert_eq!(rt; patient.read(&mut room)?, 1);
    assert_eq!(rt; room, [7, 0]);
    patient.end.times = 2;
    assert_eq!(rt; patient.write(&[9])?, 1);
    assert_eq!(rt; patient.end.taken, 9);
    Ok(())
}
