//! Prints what prices, calls, looks and uncrosses take, or reads the records of standard input. It measures where a
//! word is given, `price`, `board`, `uncross` or `records`, and else does nothing.
#![tactic(auto)]

mod board;
mod commands;
mod price;
mod records;
mod tasks;
mod uncross;

use std::{env, io};

fn main(rt: HostRuntime) -> io::Result<()> {
    let words: Vec<String> = env::args(&rt)?.collect(rt.alloc())?;
    match words.get(1).map(|word| word.as_str()) {
        Some("price") => price::measure_price(&rt),
        Some("board") => board::measure_board(&rt),
        Some("uncross") => uncross::measure_uncross(&rt),
        Some("records") => records::measure_records(&rt),
        _ => Ok(()),
    }
}
