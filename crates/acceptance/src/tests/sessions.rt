//! Sessions with devices that look at what is answered before they are read, and at what is committed before it is
//! answered.

use auction::{Auction, Config, OpenFault};
use byte_streams::{SourceFailed, WriteFailed};
use live_session::{
    CommitFailed, Conversation, Ending, LiveFault, MAX_RECORD_BYTES, SessionTerms, run_live,
};
use std::alloc::Global;
use std::process::Abort;

mod long;
mod rows;

const TERMS: SessionTerms = SessionTerms {
    members: 4,
    reserve: 0,
};

/// An auction of `max_calls` commands.
fn auction_of(alloc: Global, max_calls: u32) -> Result<Auction, OpenFault> {
    Auction::open(
        alloc,
        Config {
            low: 1,
            high: 1000,
            reference: 200,
            max_open: 8,
            max_calls,
            range: None,
        },
    )
}
