//! The day of an auction, and what each command comes to.
ghost use Rattle.std.specs.Prelude.{◌≡◌, ◌<◌, None, IfOk, OnErr};
ghost use Rattle.auction_terms.specs.Day as day;
ghost use Rattle.tick_ladder.specs.TickLadder.{IsLadderOf};
ghost use Rattle.auction.specs.ConfigFault.{open_fault};
ghost use Rattle.auction.specs.OpenOrders.{IsOpenIn};
ghost use Rattle.auction.specs.AuctionState.{opening, current_orders, ladder_over, outcome, IsOneCommand};

mod change;
mod copying;
mod delete;
mod enter;
mod expiring;
mod indicate;
mod listing;
mod order_status;
mod read_trade;
mod refilling;
mod uncross;

use crate::book::Book;
use auction_terms::{
    AuctionKind, Call, Command, Config, Display, Limit, MAX_QUANTITY, NewOrder, Order, Refusal,
    Reply, Trade,
};
use std::alloc::{AllocError, Global};
use std::marker::Model;
use tick_ladder::Ladder;

/// The auctions of one day: the open orders in time order, the trades so far and the reference price.
#[derive(Drop)]
pub(crate) struct DayState {
    config: Config,
    book: Book,
    tape: Vec<Trade>,
    // The last auction price, or the one that was handed in.
    reference: u32,
    // None once the day is over.
    auction: Option<AuctionKind>,
    // Whether this call phase was extended by an interruption.
    extended: bool,
}

impl Model for DayState {
    ghost use Rattle.std.specs.Prelude.{◌+◌};
    ghost use Rattle.auction.specs.AuctionState.{AuctionState, IsSoundDay};

    ghost Value = { AuctionState };

    ghost view = { λ d. record {
      config = d.config;
      state = record {
        book = d.book.orders;
        reference = d.reference;
        next_id = d.book.entered + 1;
        tape = d.tape.items;
        auction = d.auction;
        extended = d.extended;
      };
      stamps = d.book.stamps;
    } };

    ghost invariant = { λ d. IsSoundDay d.config d.auction d.book d.reference d.tape };
}

// Refuses a command for this reason where the check holds.
fn refuse_if(check: bool, reason: Refusal) -> Result<(), Refusal>
    ensures { result ≡ day.refuse_if check reason }
{
    if check { Err(reason) } else { Ok(()) }
}

// Whether a quantity lies outside 1 to `MAX_QUANTITY` shares.
fn is_bad_quantity(quantity: u64) -> bool
    ensures { result ≡ day.is_bad_quantity quantity }
{
    quantity == 0 || quantity > MAX_QUANTITY
}

// Whether a limit is a tick outside the bounds.
fn is_bad_limit(config: Config, limit: Limit) -> bool
    ensures { result ≡ day.is_bad_limit config limit }
{
    match limit {
        Limit::Market => false,
        Limit::At(tick) => tick < config.low || tick > config.high,
    }
}

impl DayState {
    /// The day at its opening: no orders, no trades, the reference of the config, with room for all that the day can
    /// bring. It fails only where memory is refused.
    pub(crate) fn open(alloc: Global, config: Config) -> Result<DayState, AllocError>
        requires { open_fault config ≡ None }
        ensures { IfOk result (λ d. d ≡ opening config) }
    {
        Ok(DayState {
            config,
            book: Book::open(alloc, config)?,
            tape: Vec::with_capacity(alloc, 3 * config.max_open as usize)?,
            reference: config.reference,
            auction: Some(AuctionKind::Opening),
            extended: false,
        })
    }

    /// What it was opened with.
    pub(crate) fn config(&self) -> Config
        ensures { result ≡ self.now.config }
    {
        self.config
    }

    /// The trades so far.
    pub(crate) fn tape(&self) -> &[Trade]
        ensures { result.now ≡ self.now.state.tape }
    {
        &self.tape
    }

    /// The auction whose call phase it is; none after the day.
    pub(crate) fn auction(&self) -> Option<AuctionKind>
        ensures { result ≡ self.now.state.auction }
    {
        self.auction
    }

    /// Whether an interruption extended this call phase.
    pub(crate) fn is_extended(&self) -> bool
        ensures { result ≡ self.now.state.extended }
    {
        self.extended
    }

    /// The last auction price, or the one that was handed in.
    pub(crate) fn reference(&self) -> u32
        ensures { result ≡ self.now.state.reference }
    {
        self.reference
    }

    /// The quantities of the orders that count, tick by tick over the bounds.
    pub(crate) fn ladder(&self) -> &Ladder
        ensures value { result.now ≡ ladder_over self.now.config (current_orders self.now.state) }
        ensures book { IsLadderOf result.now (current_orders self.now.state) }
    {
        self.book.ladder()
    }

    /// What is shown.
    #[tactic(auto, unfolding(auction_terms::specs::Day::display))]
    pub(crate) fn display(&self) -> Display
        ensures { result ≡ day.display self.now.state }
    {
        self.book.display(self.reference)
    }

    /// The same, of which the price is kept for the next question.
    #[tactic(auto, unfolding(auction_terms::specs::Day::display))]
    #[inline(always)]
    pub(crate) fn show(&mut self) -> Display
        ensures state { self.new ≡ self.old }
        ensures display { result ≡ day.display self.old.state }
    {
        self.book.show(self.reference)
    }

    // The current auction. After the day it is refused.
    fn current(&self) -> Result<AuctionKind, Refusal>
        ensures { result ≡ day.current_auction self.now.state }
    {
        self.auction.ok_or(Refusal::DayOver)
    }

    // The member's own open order with this id.
    fn own_order(&self, member: u8, id: u32) -> Result<Order, Refusal>
        ensures order { result ≡ day.own_order self.now.state member id }
        ensures open { IfOk result (λ order. IsOpenIn self.now.state.book order) }
    {
        self.book
            .get(id)
            .filter(|order| order.member == member)
            .ok_or(Refusal::UnknownOrder)
    }

    /// Puts the reply to a member's command in the place of another, or answers why the command is refused. A refused
    /// command changes nothing of the day.
    #[tactic(auto, unfolding(auction_terms::specs::Day::decide))]
    pub(crate) fn decide(&mut self, call: &Call, reply: &mut Reply) -> Result<(), Refusal>
        requires { self.old.stamps < self.old.config.max_calls }
        ensures outcome { outcome self.new reply.new result
            ≡ day.decide self.old.config self.old.state call.now.member call.now.command }
        ensures refused { OnErr result (self.new ≡ self.old) }
        ensures one { IsOneCommand self.old self.new }
    {
        let member = call.member;
        match call.command {
            Command::Enter {
                side,
                restriction,
                limit,
                quantity,
                peak,
            } => {
                let new = NewOrder {
                    member,
                    side,
                    restriction,
                    limit,
                    quantity,
                    peak,
                };
                self.enter(new, reply)
            }
            Command::Change {
                id,
                limit,
                quantity,
            } => self.change(member, id, limit, quantity, reply),
            Command::Delete { id } => self.delete(member, id, reply),
            Command::OrderStatus { id } => self.order_status(member, id, reply),
            Command::Indicate => self.indicate(reply),
            Command::ReadTrade { number } => self.read_trade(number, reply),
            Command::Uncross => self.uncross(member, reply),
        }
    }
}
