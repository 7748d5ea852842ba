//! Members with their scripts: the commands of each, and room for the receipts.
ghost use Rattle.std.specs.Prelude.{◌≡◌, ◌≤◌, [], List, All, map, length, vec_capacity, IfOk};
ghost use Rattle.std.specs.Vec.Iter.{into_iter_items};
ghost use Rattle.auction_terms.specs.declared.Command.{Command};
ghost use Rattle.member_board.specs.PlaysScript.{FitsHistory, PlaysScript, MemberScript};

use crate::gate::Gate;
use crate::played::{ScriptRun, play};
use crate::script::Script;
use crate::{Board, BoardIdentity, Member, Receipt, Update, Version};
use auction_terms::Command;
use left_right::Absorb;
use std::alloc::{AllocError, Global};
use std::marker::Model;
use std::sync::Wait;
use std::vec;

/// The commands of a script, and room for its receipts. Contracts see the commands.
#[derive(Drop)]
pub(crate) struct PreparedScript {
    commands: Vec<Command>,
    receipts: Vec<Receipt>,
}

impl Model for PreparedScript {
    ghost use Rattle.std.specs.Prelude.{◌≡◌, ◌≤◌, [], List, length, vec_capacity};
    ghost use Rattle.auction_terms.specs.declared.Command.{Command};
    ghost use Rattle.auction_terms.specs.declared.limits.TheConstants.{MAX_CALLS};

    ghost Value = { List Command };

    ghost view = { λ s. s.commands.items };

    ghost invariant = { λ s.
        (s.receipts.items ≡ []) × (length s.commands.items ≤ vec_capacity s.receipts)
        × (length s.commands.items ≤ MAX_CALLS) };
}

/// A member with its script.
#[derive(Drop)]
pub(crate) struct MemberTask<K: BoardIdentity> {
    member: Member<K>,
    prepared: PreparedScript,
}

impl<K: BoardIdentity> Model for MemberTask<K> {
    ghost use Rattle.member_board.specs.PlaysScript.{MemberScript};

    ghost Value = { MemberScript };

    ghost view = { λ p. record { member = p.member; commands = p.prepared } };
}

// Takes the room for the receipts of each script.
pub(crate) fn prepare_scripts(
    alloc: Global,
    scripts: Vec<Script>,
) -> Result<Vec<PreparedScript>, AllocError>
    requires few { All FitsHistory scripts.items }
    ensures { IfOk result (λ v. v.items ≡ map (λ s. s.commands.items) scripts.items) }
{
    let n = scripts.len();
    let mut scripts = scripts.into_iter();
    let mut prepared_scripts = Vec::with_capacity(alloc, n)?;
    for _ in 0..n {
        let Script {
            member: _,
            commands,
        } = scripts.next().unwrap();
        let receipts = Vec::with_capacity(alloc, commands.len())?;
        prepared_scripts.push_reserved(PreparedScript { commands, receipts });
    }
    Ok(prepared_scripts)
}

// Gives each member its script. The room is there.
pub(crate) fn pair_members<K: BoardIdentity>(
    tasks: Vec<MemberTask<K>>,
    members: Vec<Member<K>>,
    prepared_scripts: Vec<PreparedScript>,
) -> Vec<MemberTask<K>>
    requires room { (tasks.items ≡ []) × (length members.items ≤ vec_capacity tasks) }
    requires many { length prepared_scripts.items ≡ length members.items }
    ensures members { map (λ p. p.member) result.items ≡ members.items }
    ensures commands { map (λ p. p.commands) result.items ≡ prepared_scripts.items }
{
    let n = members.len();
    let mut tasks = tasks;
    let mut members = members.into_iter();
    let mut prepared_scripts = prepared_scripts.into_iter();
    for _ in 0..n {
        let member = members.next().unwrap();
        let prepared = prepared_scripts.next().unwrap();
        tasks.push_reserved(MemberTask { member, prepared });
    }
    tasks
}

// The members of the parts that are left. The room is there.
pub(crate) fn members_left<K: BoardIdentity>(
    tasks: vec::IntoIter<MemberTask<K>>,
    rest: Vec<Member<K>>,
) -> Vec<Member<K>>
    requires room { (rest.items ≡ []) × (length (into_iter_items tasks) ≤ vec_capacity rest) }
    ensures { result.items ≡ map (λ p. p.member) (into_iter_items tasks) }
{
    let mut tasks = tasks;
    let mut rest = rest;
    for _ in 0..tasks.len() {
        let MemberTask {
            member,
            prepared: _script,
        } = tasks.next().unwrap();
        rest.push_reserved(member);
    }
    rest
}

impl<K: BoardIdentity> MemberTask<K> {
    // Plays the script of this member.
    pub(crate) fn play<G: Gate, R: Wait>(self, board: &Board<K>, gate: &G, rt: &R) -> ScriptRun<K>
    where
        Version<K>: Absorb<Update<K>, State = ()>,
        ensures { PlaysScript K.config self.member self.commands result }
    {
        let MemberTask { member, prepared } = self;
        let PreparedScript { commands, receipts } = prepared;
        play(board, member, commands.as_slice(), receipts, gate, rt)
    }
}
