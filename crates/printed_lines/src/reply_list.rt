//! The replies of a day, kept in a byte each until they are printed.
//!
//! A [`ReplyList`] is seen by contracts as the list of its replies, and [`Replies`] as those that are left to read.
//! Most replies take one byte: an entry with the next id, a deletion, a change, a refusal, and one that is the same as
//! the last of the others, as displays often are. Any other one is kept whole beside them.

ghost use Rattle.std.specs.Prelude.{◌≡◌, ◌<◌, ◌≤◌, ◌+◌, ◌-◌, ◌%◌, ◌^◌, ◌∷◌, ◌++◌, []};
ghost use Rattle.std.specs.Prelude.{ℕ, List, get_or, length, true, IfOk, IfSome, OnErr, OnOk};
ghost use Rattle.auction_terms.specs.declared.Reply.TheVariants as replies;
ghost use Rattle.auction_terms.specs.declared.Reply.{Reply};
ghost use Rattle.printed_lines.specs.ReplyList.{IsCoded, brief_reply, entered_after, reply_of_code, shown_after};

use auction_terms::{Refusal, Reply};
use std::alloc::{AllocError, Global};
use std::marker::Model;

// The codes above those of the brief replies: an entry with the next id, the next of the others, the last of them
// again.
const ENTERED: u8 = 12;

const OTHER: u8 = 13;

const AGAIN: u8 = 14;

/// The replies of a day, in their order.
#[derive(Drop)]
pub struct ReplyList {
    codes: Vec<u8>,
    others: Vec<Reply>,
    // The id of the last of the codes' entries.
    entered: u32,
}

impl Model for ReplyList {
    ghost use Rattle.std.specs.Prelude.{List};
    ghost use Rattle.auction_terms.specs.declared.Reply.{Reply};
    ghost use Rattle.printed_lines.specs.ReplyList.{IsKept, replies_of_codes};

    ghost Value = { List Reply };

    ghost view = { λ l. replies_of_codes l.others.items 0 0 l.codes.items };

    ghost invariant = { λ l. IsKept l.codes.items l.entered l.others.items };
}

/// The replies of a list that are left to read.
#[derive(Drop)]
pub struct Replies<'a> {
    codes: &'a [u8],
    others: &'a [Reply],
    entered: u32,
    shown: usize,
}

impl<'a> Model for Replies<'a> {
    ghost use Rattle.std.specs.Prelude.{◌<◌, ◌+◌, ◌^◌, List, length};
    ghost use Rattle.auction_terms.specs.declared.Reply.{Reply};
    ghost use Rattle.printed_lines.specs.ReplyList.{replies_of_codes};

    ghost Value = { List Reply };

    ghost view = { λ r. replies_of_codes r.others.now r.entered r.shown r.codes.now };

    ghost invariant = { λ r. r.shown + length r.codes.now < 2 ^ 64 };
}

/// The code of a refusal, which is its number.
#[tactic(auto, using(crate::proofs::ReplyListLaws::refusal_code))]
fn refusal_code(refusal: Refusal) -> u8
    ensures code { brief_reply result ≡ replies.Refused refusal }
    ensures brief { result < ENTERED }
{
    refusal.number()
}

/// The code of a reply that is said by its code, after entries of which the last has this id.
#[tactic(auto, unfolding(crate::specs::ReplyList::brief_reply))]
#[inline]
fn brief_code(entered: u32, reply: &Reply) -> Option<u8>
    ensures { IfSome result (λ code. IsCoded entered code reply.now) }
{
    match reply {
        Reply::Deleted => Some(0),
        Reply::Refused(refusal) => Some(refusal_code(*refusal)),
        Reply::Changed { kept } => Some(if *kept { 10 } else { 11 }),
        Reply::Entered { id } if *id == entered.wrapping_add(1) => Some(ENTERED),
        _ => None,
    }
}

/// Whether the last of these replies is this one.
fn ends_with(others: &[Reply], reply: &Reply) -> bool
    ensures { result ≡ true
        → (0 < length others.now) × (get_or others.now (length others.now - 1) reply.now ≡ reply.now) }
{
    match (others.last(), reply) {
        (Some(Reply::Indicated(last)), Reply::Indicated(display)) => last == display,
        (Some(last), _) => last == reply,
        (None, _) => false,
    }
}

/// The code of a reply that is kept whole: it is appended to the others, but where it is the last of them already.
fn other_code(others: &mut Vec<Reply>, reply: &Reply) -> Result<u8, AllocError>
    ensures said { IfOk result (λ code. (entered : ℕ)
        → reply_of_code others.new.items entered (length others.old.items) code ≡ reply.now) }
    ensures shown { IfOk result (λ code. shown_after (length others.old.items) code ≡ length others.new.items) }
    ensures kept { (more : List Reply) × (others.new.items ≡ others.old.items ++ more) }
    ensures refused { OnErr result (others.new.items ≡ others.old.items) }
{
    if ends_with(others.as_slice(), reply) {
        return Ok(AGAIN);
    }
    others.push(*reply)?;
    Ok(OTHER)
}

/// The code of a reply after these others, which may grow by it, and entries of which the last has this id.
#[inline]
fn code_of(others: &mut Vec<Reply>, entered: u32, reply: &Reply) -> Result<u8, AllocError>
    ensures said { IfOk result (λ code.
        reply_of_code others.new.items entered (length others.old.items) code ≡ reply.now) }
    ensures shown { IfOk result (λ code. shown_after (length others.old.items) code ≡ length others.new.items) }
    ensures kept { (more : List Reply) × (others.new.items ≡ others.old.items ++ more) }
    ensures refused { OnErr result (others.new.items ≡ others.old.items) }
{
    match brief_code(entered, reply) {
        Some(code) => Ok(code),
        None => other_code(others, reply),
    }
}

/// The id of the last entry, once this code was read.
#[inline]
fn entered_after(entered: u32, code: u8) -> u32
    ensures { result ≡ entered_after entered code }
{
    if code == ENTERED {
        return entered.wrapping_add(1);
    }
    entered
}

/// How many of the others were read then.
#[inline]
fn shown_after(shown: usize, code: u8) -> usize
    requires { shown + 1 < 2 ^ 64 }
    ensures { result ≡ shown_after shown code }
{
    if code == OTHER {
        return shown + 1;
    }
    shown
}

/// The reply of a code below those of entries.
#[tactic(auto, unfolding(crate::specs::ReplyList::brief_reply))]
#[inline]
fn brief_reply(code: u8) -> Reply
    ensures { result ≡ brief_reply code }
{
    match code {
        1 => Reply::Refused(Refusal::BadQuantity),
        2 => Reply::Refused(Refusal::BadLimit),
        3 => Reply::Refused(Refusal::BadPeak),
        4 => Reply::Refused(Refusal::BookFull),
        5 => Reply::Refused(Refusal::UnknownOrder),
        6 => Reply::Refused(Refusal::NotOperator),
        7 => Reply::Refused(Refusal::DayOver),
        8 => Reply::Refused(Refusal::NoSuchTrade),
        9 => Reply::Refused(Refusal::PastAuction),
        10 => Reply::Changed { kept: true },
        11 => Reply::Changed { kept: false },
        _ => Reply::Deleted,
    }
}

/// One of the others, by its place from 0, or a deletion where there is none, in the place that is lent.
#[inline]
fn other_at<'a>(others: &'a [Reply], place: usize, lent: &'a mut Reply) -> &'a Reply
    ensures { result.now ≡ get_or others.now place replies.Deleted }
{
    match others.get(place) {
        Some(reply) => reply,
        None => {
            *lent = Reply::Deleted;
            lent
        }
    }
}

/// The last of the first `shown` others, or a deletion where there is none, in the place that is lent.
#[inline]
fn last_of<'a>(others: &'a [Reply], shown: usize, lent: &'a mut Reply) -> &'a Reply
    ensures { result.now ≡ get_or (replies.Deleted ∷ others.now) shown replies.Deleted }
{
    if shown == 0 {
        *lent = Reply::Deleted;
        return lent;
    }
    other_at(others, shown - 1, lent)
}

/// The reply that a code says after the first `shown` others, and entries of which the last has this id. One that is
/// not kept whole is put into the place that is lent.
#[tactic(auto, unfolding(crate::specs::ReplyList::reply_of_code))]
#[inline]
fn reply_of_code<'a>(
    others: &'a [Reply],
    entered: u32,
    shown: usize,
    code: u8,
    lent: &'a mut Reply,
) -> &'a Reply
    ensures { result.now ≡ reply_of_code others.now entered shown code }
{
    match code {
        ENTERED => {
            *lent = Reply::Entered {
                id: entered.wrapping_add(1),
            };
            lent
        }
        OTHER => other_at(others, shown, lent),
        AGAIN => last_of(others, shown, lent),
        _ => {
            *lent = brief_reply(code);
            lent
        }
    }
}

impl ReplyList {
    /// No replies.
    pub fn new(alloc: Global) -> ReplyList
        ensures { result ≡ [] }
    {
        ReplyList {
            codes: Vec::new(alloc),
            others: Vec::new(alloc),
            entered: 0,
        }
    }

    /// One more reply, after the others. Where memory is refused, the list is as it was.
    #[inline]
    pub fn push(&mut self, reply: &Reply) -> Result<(), AllocError>
        ensures pushed { OnOk result (self.new ≡ self.old ++ reply.now ∷ []) }
        ensures refused { OnErr result (self.new ≡ self.old) }
    {
        self.codes.reserve(1)?;
        let code = code_of(&mut self.others, self.entered, reply)?;
        self.entered = entered_after(self.entered, code);
        self.codes.push_reserved(code);
        Ok(())
    }

    /// How many replies there are.
    #[inline]
    pub fn len(&self) -> usize
        ensures { result ≡ length self.now }
    {
        self.codes.len()
    }

    /// The replies, to be read one after the other.
    pub fn iter(&self) -> Replies<'_>
        ensures { result ≡ self.now }
    {
        Replies {
            codes: self.codes.as_slice(),
            others: self.others.as_slice(),
            entered: 0,
            shown: 0,
        }
    }
}

impl<'a> Replies<'a> {
    /// The next reply. There is one. One that was kept whole is lent from the list, and any other is put into the
    /// place that is lent.
    #[inline]
    pub fn next_reply<'b>(&mut self, lent: &'b mut Reply) -> &'b Reply
    where
        'a: 'b,
        requires { 0 < length self.old }
        ensures { self.old ≡ result.now ∷ self.new }
    {
        let code = self.codes[0];
        let (others, entered, shown) = (self.others, self.entered, self.shown);
        self.codes = &self.codes[1..];
        self.entered = entered_after(entered, code);
        self.shown = shown_after(shown, code);
        reply_of_code(others, entered, shown, code, lent)
    }
}
