//! Scripts.

use auction_terms::Command;

/// What one member is to call: its number, and its commands in their order, at most `MAX_CALLS`.
#[derive(Drop)]
pub struct Script {
    pub member: u8,
    pub commands: Vec<Command>,
}
