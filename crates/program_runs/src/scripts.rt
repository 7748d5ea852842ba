//! The calls of a file, split into a script for each member.

ghost use Rattle.std.specs.Prelude.{◌≡◌, IfOk};
ghost use Rattle.program_runs.specs.BoardRun.{IsSplit, commands_of};

use auction_terms::{Call, Command};
use member_board::Script;
use std::alloc::{AllocError, Global};

/// The commands of one member, in the order of the calls.
fn commands_of(alloc: Global, calls: &[Call], member: u8) -> Result<Vec<Command>, AllocError>
    ensures { IfOk result (λ commands. commands.items ≡ commands_of member calls.now) }
{
    calls
        .iter()
        .filter(|call| call.member == member)
        .map(|call| call.command)
        .collect(alloc)
}

/// A script for each member, by rising numbers, with its commands in the order of the calls.
pub fn split(alloc: Global, members: u8, calls: &[Call]) -> Result<Vec<Script>, AllocError>
    ensures { IfOk result (λ scripts. IsSplit members calls.now scripts.items) }
{
    let mut scripts = Vec::with_capacity(alloc, usize::from(members))?;
    for member in 0..members {
        let commands = commands_of(alloc, calls, member)?;
        scripts.push_reserved(Script { member, commands });
    }
    Ok(scripts)
}
