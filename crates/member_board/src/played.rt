//! One script, played.
ghost use Rattle.std.specs.Prelude.{◌≡◌, ◌+◌, ◌<◌, ◌≤◌, [], length, vec_capacity};
ghost use Rattle.auction_terms.specs.declared.limits.TheConstants.{MAX_CALLS};
ghost use Rattle.member_board.specs.PlaysScript.{PlaysScript};

use crate::gate::Gate;
use crate::{Board, BoardIdentity, CallFault, Member, Receipt, Update, Version};
use auction_terms::Command;
use left_right::Absorb;
use std::marker::Model;
use std::sync::Wait;

/// What came of a script: its member, the receipts of its calls in their order, and the fault that ended it, if one
/// did. A script ends at its first fault.
#[derive(Drop)]
pub struct ScriptRun<K: BoardIdentity> {
    pub member: Member<K>,
    pub receipts: Vec<Receipt>,
    pub fault: Option<CallFault>,
}

impl<K: BoardIdentity> Model for ScriptRun<K> {
    ghost use Rattle.auction_terms.specs.declared.limits.TheConstants.{MAX_CALLS};
    ghost use Rattle.member_board.specs.PlaysScript.{PlayedScript};

    ghost Value = { PlayedScript };

    ghost view = { λ p. record { member = p.member; receipts = p.receipts.items; fault = p.fault } };
}

// Calls each command under the gate, up to the first fault. The room for the receipts is there.
pub(crate) fn play<K: BoardIdentity, G: Gate, R: Wait>(
    board: &Board<K>,
    member: Member<K>,
    commands: &[Command],
    receipts: Vec<Receipt>,
    gate: &G,
    rt: &R,
) -> ScriptRun<K>
where
    Version<K>: Absorb<Update<K>, State = ()>,
    requires room { (receipts.items ≡ []) × (length commands.now ≤ vec_capacity receipts) }
    requires few { length commands.now ≤ MAX_CALLS }
    ensures { PlaysScript K.config member commands.now result }
{
    let mut member = member;
    let mut receipts = receipts;
    let number = member.number();
    for i in 0..commands.len() {
        let k = (i + 1) as u32;
        gate.before(rt, number, k);
        let answer = member.call(board, rt, commands[i]);
        gate.after(rt, number, k);
        match answer {
            Ok(receipt) => receipts.push_reserved(receipt),
            Err(fault) => {
                return ScriptRun {
                    member,
                    receipts,
                    fault: Some(fault),
                };
            }
        }
    }
    ScriptRun {
        member,
        receipts,
        fault: None,
    }
}
