//! A closed day.

use auction_terms::Entry;

/// A closed day: its history, and each member's count of recorded calls, by number.
#[derive(Drop)]
pub struct Closing {
    pub history: Vec<Entry>,
    pub calls: Vec<u32>,
}
