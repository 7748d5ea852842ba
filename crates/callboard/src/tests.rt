//! The program on worked examples.

ghost use Rattle.std.specs.Prelude.{◌≡◌, ◌<◌};

use auction_terms::Config;
use byte_streams::{Failures, FromMemory, Sink, Source, ToMemory, ToWrite};
use input_hints::StartKeeper;
use journal::DayHeader;
use journal_file::{Device, OpenFileFault, Opened, Tracked};
use member_board::Gate;
use program_runs::{Fault, Finish, OpenedJournal, OpensJournal, run_file, run_floor, serve};
use settings::{FloorForm, Form, JournalFile};
use std::alloc::Global;
use std::fmt;
use std::io::Cursor;
use std::marker::Brand;
use std::process::Abort;
use std::str::from_utf8;
use std::sync::Wait;
use std::sync::ledger::{Blank, Ledger};
use std::test::Fail;
use std::thread::Threads;

mod days;
mod devices;
mod edges;
mod files;
mod floor;
mod forms;
mod full;
mod hints;
mod keeping;
mod live;
mod refused;
mod tables;

/// The program's name alone.
const PLAIN: &[&str] = &["callboard"];

/// What an ask of an empty book prints.
const SHOWN: &str = "1: no price bid - ask -\n";

/// What a run of the program came to.
#[derive(Drop)]
struct Printed {
    status: u8,
    out: Vec<u8>,
    err: Vec<u8>,
}

/// No file can be opened.
#[derive(Drop)]
struct NoFiles;

impl<'a> OpensJournal<Tracked<Opened<'a>>> for NoFiles {
    fn open(
        self,
        _alloc: Global,
        _file: JournalFile<'_>,
    ) -> Result<OpenedJournal<Tracked<Opened<'a>>>, OpenFileFault> {
        Err(OpenFileFault::Busy)
    }
}

/// Serves the program on this input and output: its status, and what it wrote as its error.
fn served<
    R: Source + Drop,
    S: Sink,
    E: Ledger,
    D: Device + Drop,
    P: OpensJournal<D> + Drop,
    T: AllocGlobal + Wait + Threads + Sync,
>(rt: &T, errors: Blank, arguments: &[&str], reader: R, out: &mut S, files: P) -> (u8, Vec<u8>)
    requires name { errors.name ≡ E.name }
    requires parts { errors.parts ≡ E.parts }
    requires backed { 0 < E.parts }
{
    let mut err = ToMemory {
        bytes: Vec::new(rt.alloc()),
        failures: Failures::<E>::new(errors),
    };
    let mut reader = StartKeeper::new(reader);
    let mut left = None;
    let status = serve(
        rt.alloc(),
        arguments,
        &mut reader,
        out,
        &mut err,
        files,
        &mut left,
        rt,
    );
    let ToMemory { bytes, failures: _ } = err;
    (status, bytes)
}

fn run_to_memory<
    O: Ledger,
    D: Device + Drop,
    P: OpensJournal<D> + Drop,
    T: AllocGlobal + Wait + Threads + Sync,
>(rt: &T, output: Blank, arguments: &[&str], input: &[u8], files: P) -> Printed
    requires name { output.name ≡ O.name }
    requires parts { output.parts ≡ O.parts }
    requires backed { 0 < O.parts }
{
    let reader = FromMemory { rest: input };
    let mut out = ToMemory {
        bytes: Vec::new(rt.alloc()),
        failures: Failures::<O>::new(output),
    };
    let (status, err) = served::<_, _, Brand, D, P, T>(
        rt,
        Blank::new(1),
        arguments,
        reader,
        &mut out,
        files,
    );
    let ToMemory {
        bytes: out,
        failures: _,
    } = out;
    Printed { status, out, err }
}

/// What a file of these bytes, run with these arguments, comes to.
fn run<T: AllocGlobal + Wait + Threads + Sync>(
    rt: &T,
    arguments: &[&str],
    input: &[u8],
) -> Printed {
    run_to_memory::<Brand, Tracked<Opened<'_>>, NoFiles, T>(
        rt,
        Blank::new(1),
        arguments,
        input,
        NoFiles,
    )
}

/// A file of these bytes, run with these arguments, gives this output, this error and this status.
fn gives<T: Abort + AllocGlobal + Wait + Threads + Sync>(
    rt: &T,
    arguments: &[&str],
    input: &[u8],
    out: &str,
    err: &str,
    status: u8,
) {
    let printed = run(rt, arguments, input);
    assert_eq!(rt; from_utf8(printed.out.as_slice()).unwrap_or("?"), out);
    assert_eq!(rt; from_utf8(printed.err.as_slice()).unwrap_or("?"), err);
    assert_eq!(rt; printed.status, status);
}

/// A file of these bytes, run with these arguments, has this fault, whatever its likely cause.
fn gives_fault<T: Abort + AllocGlobal + Wait + Threads + Sync>(
    rt: &T,
    arguments: &[&str],
    input: &[u8],
    fault: &str,
) {
    let printed = run(rt, arguments, input);
    let said = from_utf8(printed.err.as_slice()).unwrap_or("?");
    assert!(rt; printed.out.is_empty());
    assert!(rt; said.starts_with(fault));
    assert_eq!(rt; printed.status, 1);
}

/// Arguments and a file, and the output, the error and the status that they give.
type Row = (
    &'static [&'static str],
    &'static [u8],
    &'static str,
    &'static str,
    u8,
);

/// Each of these rows is so.
fn each_gives<T: Abort + AllocGlobal + Wait + Threads + Sync>(rt: &T, rows: &[Row]) {
    for &(arguments, input, out, err, status) in rows {
        gives(rt, arguments, input, out, err, status);
    }
}

/// An order file, and the lines that it should print.
#[derive(Drop)]
struct Story {
    alloc: Global,
    input: String,
    lines: String,
    records: u64,
}

impl Story {
    fn new(alloc: Global) -> Story {
        Story {
            alloc,
            input: String::new(alloc),
            lines: String::new(alloc),
            records: 0,
        }
    }

    /// One more record, with the text of its reply.
    fn add<T: fmt::Display + Drop>(&mut self, record: &str, text: T) -> Result<(), Fail> {
        self.records = self.records.saturating_add(1);
        let line = format!(in self.alloc; "{}: {text}\n", self.records)?;
        self.input.push_str(record)?;
        self.input.push_str("\n")?;
        self.lines.push_str(line.as_str())?;
        Ok(())
    }

    /// As many entries of the same terms, which get ids from the first to the last.
    fn enter_all(&mut self, record: &str, first: u32, last: u32) -> Result<(), Fail> {
        for id in first..=last {
            self.add(record, format_args!("entered {id}"))?;
        }
        Ok(())
    }

    /// A record for each line, with an arrow between record and reply, or for a remark.
    fn add_all(&mut self, rows: &str) -> Result<(), Fail> {
        for line in rows.lines() {
            if let Some((record, reply)) = line.split_once(" -> ") {
                self.add(record, reply)?;
            } else if !line.starts_with("# ") {
                return Err("neither a record nor a remark")?;
            }
        }
        Ok(())
    }
}

/// A file and what it should print: what it shows, the arguments that the program is run with, and the
/// rows of a story.
struct Example {
    name: &'static str,
    arguments: &'static [&'static str],
    text: &'static str,
}

/// Each of these files gives its texts of replies, record by record.
fn each_gives_its_lines<T: Abort + AllocGlobal + Wait + Threads + Sync>(
    rt: &T,
    examples: &[Example],
) -> Result<(), Fail> {
    for example in examples {
        let mut story = Story::new(rt.alloc());
        story.add_all(example.text)?;
        let printed = run(rt, example.arguments, story.input.as_str().as_bytes());
        let out = from_utf8(printed.out.as_slice()).unwrap_or("?");
        assert_eq!(rt; out, story.lines.as_str(), "{}", example.name);
        let is_done = story.records > 0 && printed.err.is_empty() && printed.status == 0;
        assert!(rt; is_done, "{}", example.name);
    }
    Ok(())
}

/// What a run came to, and what it wrote, to a writer that takes no memory.
#[derive(Drop)]
struct RunResult {
    answer: Result<Finish, Fault>,
    bytes: [u8; 512],
    count: u64,
}

impl RunResult {
    /// The text that was written.
    fn text(&self) -> &str {
        let written = self.bytes.get(..self.count as usize).unwrap_or(&[]);
        from_utf8(written).unwrap_or("?")
    }
}

fn filed<O: Ledger, G: Gate + Sync, T: AllocGlobal + Wait + Threads + Sync>(
    rt: &T,
    output: Blank,
    input: &[u8],
    config: Config,
    members: u8,
    gate: Option<&G>,
) -> RunResult
    requires name { output.name ≡ O.name }
    requires parts { output.parts ≡ O.parts }
    requires backed { 0 < O.parts }
{
    let alloc = rt.alloc();
    let mut reader = FromMemory { rest: input };
    let mut out = ToWrite {
        writer: Cursor::new([0u8; 512]),
        failures: Failures::<O>::new(output),
    };
    let day = DayHeader { config, members };
    let answer = match gate {
        Some(gate) => run_floor(
            alloc,
            &mut reader,
            &mut out,
            day,
            FloorForm::History,
            gate,
            rt,
        ),
        None => run_file(alloc, &mut reader, &mut out, day, Form::Lines),
    };
    let ToWrite {
        writer,
        failures: _,
    } = out;
    RunResult {
        answer,
        count: writer.position(),
        bytes: writer.into_inner(),
    }
}

/// What a file of these bytes comes to: on a board under this gate with its history, or without a gate on an auction.
fn run_under<G: Gate + Sync, T: AllocGlobal + Wait + Threads + Sync>(
    rt: &T,
    input: &[u8],
    config: Config,
    members: u8,
    gate: Option<&G>,
) -> RunResult {
    filed::<Brand, G, T>(rt, Blank::new(1), input, config, members, gate)
}
