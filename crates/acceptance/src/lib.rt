//! What the crates below the program do together and at their edges, on days and files with known answers.
//!
//! Tests alone, and in one crate: where a crate has tests, each of its functions is proved once more for them.
#![tactic(auto)]

#[cfg(test)]
mod tests;
