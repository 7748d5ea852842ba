//! The texts of faults, put on a page.

ghost use Rattle.std.specs.Prelude.{◌≡◌, ◌≤◌, ◌+◌, ◌++◌, length};
ghost use Rattle.order_file.specs.FileFault.{fault_text, numbered_text};
ghost use Rattle.printed_lines.specs.declared.page.TheConstants.{ROOM};
ghost use Rattle.program_runs.specs.FaultLine.{fault_line};

use crate::fault::Fault;
use auction::OpenFault;
use order_file::FileFault;
use printed_lines::Page;

/// Puts what is said of the record with this number.
fn put_numbered(page: &mut Page, number: u64, words: &str)
    requires { length page.old + length words.now + 29 ≤ ROOM }
    ensures text { page.new ≡ page.old ++ numbered_text number words.now }
    ensures longer { length page.new ≤ length page.old + length words.now + 29 }
{
    page.put("record ");
    page.put_number(number);
    page.put(": ");
    page.put(words);
}

/// Puts the text of a fault of an input.
fn put_file_fault(page: &mut Page, fault: FileFault)
    requires { length page.old + 64 ≤ ROOM }
    ensures text { page.new ≡ page.old ++ fault_text fault }
    ensures longer { length page.new ≤ length page.old + 60 }
{
    match fault {
        FileFault::TooLong => page.put("file too long"),
        FileFault::ReadFailed => page.put("read failed"),
        FileFault::BadMember { number } => put_numbered(page, number, "bad member"),
        FileFault::BadCommand { number } => put_numbered(page, number, "bad command"),
        FileFault::BadCount { number } => put_numbered(page, number, "wrong number of fields"),
        FileFault::BadField { number, field } => {
            put_numbered(page, number, "bad field ");
            page.put_number(field as u64);
        }
        FileFault::TooManyCommands { number } => put_numbered(page, number, "too many commands"),
        FileFault::NotADay => page.put("record 1: not a day record"),
        FileFault::NoMemory => page.put("out of memory"),
    }
}

/// Puts the text of a fault of a day's opening.
fn put_open_fault(page: &mut Page, fault: OpenFault)
    requires { length page.old + 64 ≤ ROOM }
    ensures text { page.new ≡ page.old ++ fault_line (Fault.Open fault) }
    ensures longer { length page.new ≤ length page.old + 60 }
{
    match fault {
        OpenFault::BadBounds => page.put("bad bounds"),
        OpenFault::BadReference => page.put("bad reference"),
        OpenFault::BadCapacity => page.put("bad limits"),
        OpenFault::NoMemory => page.put("out of memory"),
    }
}

/// Puts the line of a fault, without its end.
pub fn put_fault(page: &mut Page, fault: Fault)
    requires { length page.old + 64 ≤ ROOM }
    ensures text { page.new ≡ page.old ++ fault_line fault }
    ensures longer { length page.new ≤ length page.old + 60 }
{
    match fault {
        Fault::File(fault) => put_file_fault(page, fault),
        Fault::Open(fault) => put_open_fault(page, fault),
        Fault::NoMemory => page.put("out of memory"),
        Fault::NotClosed => page.put("floor not closed"),
        Fault::WriteFailed => page.put("write failed"),
    }
}
