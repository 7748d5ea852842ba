//! A call auction board for one instrument: reads an order file or a journal on standard input, runs it
//! on an auction, and prints a line for each command on standard output, or the day's journal; or answers each
//! record as it comes; or has its members call their commands at once on a board, and prints what the day came to; or
//! audits a journal.
#![tactic(auto)]

ghost use Rattle.std.specs.Prelude.{◌≡◌, ◌<◌, ◌⊎◌, map, string_bytes, IfErr, IfOk};
ghost use Rattle.clap.specs.Walk.{texts};
ghost use Rattle.program_runs.specs.Served.{IsAnswer};
ghost use Rattle.std.specs.Process.{exit_status};

use byte_streams::{Failures, FromRead, Patient, ToWrite};
use input_hints::StartKeeper;
use journal_file::{OpenFileFault, Opened, Syncing, Tracked, open};
use program_runs::{OpenedJournal, OpensJournal, serve};
use settings::JournalFile;
use std::alloc::{AllocError, Global};
use std::marker::Brand;
use std::process::ExitCode;
use std::sync::Wait;
use std::sync::ledger::{Blank, Ledger};
use std::thread::Threads;
use std::{env, io};

/// The same arguments, lent.
fn lend<'a>(alloc: Global, arguments: &'a [String]) -> Result<Vec<&'a str>, AllocError>
    ensures { IfOk result (λ lent. texts lent.items ≡ map string_bytes arguments.now) }
{
    let mut lent = Vec::new(alloc);
    for word in arguments {
        lent.push(word.as_str())?;
    }
    Ok(lent)
}

/// The files of the file system.
#[derive(Drop)]
struct Files<'a> {
    host: &'a HostRuntime,
}

impl<'a> OpensJournal<Tracked<Opened<'a>>> for Files<'a> {
    ghost use Rattle.program_runs.specs.Served.{OpensAsAsked};

    ghost Opens = { λ _ file device. OpensAsAsked file device };

    fn open(
        self,
        alloc: Global,
        file: JournalFile<'_>,
    ) -> Result<OpenedJournal<Tracked<Opened<'a>>>, OpenFileFault> {
        let syncing = if file.is_synced {
            Syncing::Each
        } else {
            Syncing::Never
        };
        let mut bytes = Vec::new(alloc);
        match open(self.host, file.name, syncing, &mut bytes) {
            Ok(device) => Ok(OpenedJournal { device, bytes }),
            Err(fault) => Err(fault),
        }
    }
}

/// Runs the program on the process's arguments and its ends, each of which is waited for, and counts its failures in a
/// ledger of its own. `rt` is the same runtime where the program waits and starts threads. The status is one that
/// `serve` answers; no clause says of which arguments and ends, since none says what a process is given.
fn run_program<I: Ledger, O: Ledger, E: Ledger, T: Wait + Threads + Sync>(
    host: &HostRuntime,
    rt: &T,
    input: Blank,
    output: Blank,
    errors: Blank,
) -> io::Result<u8>
    requires input_name { input.name ≡ I.name }
    requires input_parts { input.parts ≡ I.parts }
    requires input_backed { 0 < I.parts }
    requires output_name { output.name ≡ O.name }
    requires output_parts { output.parts ≡ O.parts }
    requires output_backed { 0 < O.parts }
    requires errors_name { errors.name ≡ E.name }
    requires errors_parts { errors.parts ≡ E.parts }
    requires errors_backed { 0 < E.parts }
    ensures { IfOk result IsAnswer }
{
    let alloc = host.alloc();
    let mut reader = StartKeeper::new(FromRead {
        reader: Patient {
            end: host.stdin(),
            clock: host,
        },
        failures: Failures::<I>::new(input),
    });
    let mut out = ToWrite {
        writer: Patient {
            end: host.stdout(),
            clock: host,
        },
        failures: Failures::<O>::new(output),
    };
    let mut err = ToWrite {
        writer: Patient {
            end: host.stderr(),
            clock: host,
        },
        failures: Failures::<E>::new(errors),
    };
    let owned: Vec<String> = env::args(host)?.collect(alloc)?;
    let arguments = lend(alloc, owned.as_slice())?;
    let files = Files { host };
    let mut left = None;
    Ok(serve(
        alloc,
        arguments.as_slice(),
        &mut reader,
        &mut out,
        &mut err,
        files,
        &mut left,
        rt,
    ))
}

/// Says why the process's arguments could not be had: memory was refused, or one is not UTF-8.
fn refuse_arguments(rt: &HostRuntime, error: &io::Error) -> u8
    ensures { (result ≡ 2) ⊎ (result ≡ 3) }
{
    if error.kind() == io::ErrorKind::OutOfMemory {
        let _ = eprintln!(rt; "out of memory");
        return 3;
    }
    let _ = eprintln!(rt; "bad command line");
    2
}

/// What the process ends with: the status that the program answered, which is one that `serve` answers to some
/// arguments, or where its arguments couldn't be had 2 or 3.
fn exit_code(rt: &HostRuntime, answered: &io::Result<u8>) -> ExitCode
    requires { IfOk answered.now IsAnswer }
    ensures answered { IfOk answered.now (λ status. exit_status result ≡ status) }
    ensures refused { IfErr answered.now (λ _. (exit_status result ≡ 2) ⊎ (exit_status result ≡ 3)) }
{
    match answered {
        Ok(status) => ExitCode::from(*status),
        Err(error) => ExitCode::from(refuse_arguments(rt, error)),
    }
}

// The toolchain takes no clause on the entry. What is left to it is to hand `exit_code` what `run_program` answered,
// which the stored run and the test command see.
fn main(rt: HostRuntime) -> ExitCode {
    let blanks = (Blank::new(1), Blank::new(1), Blank::new(1));
    let answered = run_program::<Brand, Brand, Brand, HostRuntime>(
        &rt, &rt, blanks.0, blanks.1, blanks.2,
    );
    exit_code(&rt, &answered)
}

#[cfg(test)]
mod tests;
