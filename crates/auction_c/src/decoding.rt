//! What the structs that come from C mean.
ghost use Rattle.std.specs.Prelude.{◌≡◌, IfSome, option_map};
ghost use Rattle.auction_c.specs.Decoding as decoded_as;

use crate::structs::{AuctionCommand, AuctionConfig};
use auction_terms::{Call, Command, Config, Limit, Restriction, Side};

/// The number that means all members.
pub const ALL_MEMBERS: u32 = 256;

/// How many of a board's last calls are the operator's, where its config doesn't say it.
pub const BOARD_RESERVE: u32 = 16;

fn flagged_in(flag: u32, value: u32) -> Option<Option<u32>>
    ensures { result ≡ decoded_as.flagged_in flag value }
{
    if flag == 1 {
        Some(Some(value))
    } else if flag == 0 && value == 0 {
        Some(None)
    } else {
        None
    }
}

/// The config that a struct is, if it is one.
pub(crate) fn config_in(config: &AuctionConfig) -> Option<Config>
    ensures { result ≡ decoded_as.config_in config.now }
{
    let range = flagged_in(config.has_range, config.range)?;
    flagged_in(config.has_reserve, config.reserve)?;
    Some(Config {
        low: config.low,
        high: config.high,
        reference: config.reference,
        max_open: config.max_open,
        max_calls: config.max_calls,
        range,
    })
}

/// How many of the day's last calls are the operator's: what a config says, else the usual number.
pub(crate) fn reserve_in(usual: u32, config: &AuctionConfig) -> u32
    ensures { result ≡ decoded_as.reserve_in usual config.now }
{
    if config.has_reserve == 1 {
        config.reserve
    } else {
        usual
    }
}

fn side_in(side: u8) -> Option<Side>
    ensures { result ≡ decoded_as.side_in side }
{
    match side {
        1 => Some(Side::Bid),
        2 => Some(Side::Ask),
        _ => None,
    }
}

fn decoded_restriction(restriction: u8) -> Option<Restriction>
    ensures { result ≡ decoded_as.decoded_restriction restriction }
{
    match restriction {
        0 => Some(Restriction::Unrestricted),
        1 => Some(Restriction::OpeningOnly),
        2 => Some(Restriction::ClosingOnly),
        _ => None,
    }
}

fn limit_in(flag: u8, tick: u32) -> Option<Limit>
    ensures { result ≡ decoded_as.limit_in flag tick }
{
    if flag == 1 {
        Some(Limit::At(tick))
    } else if flag == 0 && tick == 0 {
        Some(Limit::Market)
    } else {
        None
    }
}

fn peak_in(flag: u8, peak: u64) -> Option<Option<u64>>
    ensures { result ≡ decoded_as.flagged_in flag peak }
{
    if flag == 1 {
        Some(Some(peak))
    } else if flag == 0 && peak == 0 {
        Some(None)
    } else {
        None
    }
}

/// Whose orders a number means: those of a member, or of all.
pub(crate) fn decoded_member(member: u32) -> Option<Option<u8>>
    ensures { result ≡ decoded_as.decoded_member member }
{
    if member < ALL_MEMBERS {
        Some(Some(member as u8))
    } else if member == ALL_MEMBERS {
        Some(None)
    } else {
        None
    }
}

/// The call that a struct is, if it is one.
#[inline]
pub(crate) fn call_in(given: &AuctionCommand) -> Option<Call>
    ensures command { option_map (λ call. call.command) result ≡ decoded_as.command_in given.now }
    ensures member { IfSome result (λ call. call.member ≡ given.now.member) }
{
    let member = given.member;
    match given.tag {
        1 => Some(Call {
            member,
            command: Command::Enter {
                side: side_in(given.side)?,
                restriction: decoded_restriction(given.restriction)?,
                limit: limit_in(given.has_limit, given.limit)?,
                quantity: given.quantity,
                peak: peak_in(given.has_peak, given.peak)?,
            },
        }),
        2 => Some(Call {
            member,
            command: Command::Change {
                id: given.id,
                limit: limit_in(given.has_limit, given.limit)?,
                quantity: given.quantity,
            },
        }),
        3 => Some(Call {
            member,
            command: Command::Delete { id: given.id },
        }),
        4 => Some(Call {
            member,
            command: Command::OrderStatus { id: given.id },
        }),
        5 => Some(Call {
            member,
            command: Command::Indicate,
        }),
        6 => Some(Call {
            member,
            command: Command::ReadTrade { number: given.id },
        }),
        7 => Some(Call {
            member,
            command: Command::Uncross,
        }),
        _ => None,
    }
}

/// The command that a struct is, if it is one.
pub(crate) fn command_in(given: &AuctionCommand) -> Option<Command>
    ensures { result ≡ decoded_as.command_in given.now }
{
    Some(call_in(given)?.command)
}
