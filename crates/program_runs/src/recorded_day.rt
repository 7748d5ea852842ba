//! A day whose commands are run, with what its form needs of its entries.

ghost use Rattle.std.specs.Prelude.{◌≡◌, [], List, None, unwrap_or, IfErr, IfOk};
ghost use Rattle.auction_terms.specs.declared.Entry.{Entry};
ghost use Rattle.auction_terms.specs.Auxiliary.RunningAuction.{opened_auction};
ghost use Rattle.auction.specs.ConfigFault.{open_fault};
ghost use Rattle.program_runs.specs.RecordedEntries.{IsClosedDay, RecordsEntries, form_of_recorder};

use crate::fault::Fault;
use crate::recorder::Recorder;
use auction::{Auction, OpenFault};
use journal::DayHeader;
use order_file::FileFault;
use settings::Form;
use std::alloc::Global;

/// A day that goes on: its auction, and what was recorded of its entries.
#[derive(Drop)]
pub struct OpenDay {
    pub auction: Auction,
    pub recorder: Recorder,
}

/// A day that is over, and what was recorded of its entries.
#[derive(Drop)]
pub struct PrintableDay {
    pub day: DayHeader,
    pub recorder: Recorder,
}

/// A day on which no call has come yet, recorded for this form. It is refused as `Auction::open` is.
#[tactic(auto, using(crate::proofs::RecorderLaws::opened_so))]
pub fn open_day(alloc: Global, day: DayHeader, form: Form) -> Result<OpenDay, OpenFault>
    ensures opened { IfOk result (λ opened. opened.auction ≡ opened_auction day.config) }
    ensures form { IfOk result (λ opened. form_of_recorder opened.recorder ≡ form) }
    ensures none { IfOk result (λ opened. RecordsEntries opened.recorder opened.auction []) }
    ensures opens { IfOk result (λ opened. open_fault day.config ≡ None) }
    ensures refused { IfErr result (λ fault. fault ≡ unwrap_or (open_fault day.config) OpenFault.NoMemory) }
{
    let auction = Auction::open(alloc, day.config)?;
    match Recorder::open(alloc, form, &auction) {
        Ok(recorder) => Ok(OpenDay { auction, recorder }),
        Err(_) => Err(OpenFault::NoMemory),
    }
}

/// A day whose calls have all come.
pub fn close_day(alloc: Global, day: DayHeader, open_day: OpenDay) -> Result<PrintableDay, Fault>
    ensures { (entries : List Entry) → RecordsEntries open_day.recorder open_day.auction entries
        → IsClosedDay day open_day.recorder open_day.auction.config entries result }
{
    let OpenDay {
        mut auction,
        mut recorder,
    } = open_day;
    match recorder.close(alloc, &mut auction) {
        Ok(()) => Ok(PrintableDay { day, recorder }),
        Err(_) => Err(Fault::File(FileFault::NoMemory)),
    }
}
