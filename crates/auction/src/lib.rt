//! The call auction of one instrument over one day.
//!
//! An [`Auction`] takes the commands of the members one by one. Each is one step of the day: it is checked, it has its
//! effect on the open orders, the trades, the reference price and the current auction, and it is answered. The opening,
//! the intraday and the closing auction follow one another, each with its call phase and its uncross.
//!
//! All memory is taken by [`Auction::open`], [`Auction::copied`] and [`Auction::open_orders`].
#![tactic(auto)]

ghost use Rattle.std.specs.Prelude.{◌≡◌, ◌<◌, ◌≤◌, IfOk, IfErr, IfSome, Err, None, nat_eq};
ghost use Rattle.auction_terms.specs.Day.{display, step};
ghost use Rattle.auction_terms.specs.Auxiliary.RunningAuction.{opened_auction, auction_after_call};
ghost use Rattle.tick_ladder.specs.TickLadder.{IsLadderOf};
ghost use Rattle.auction.specs.ConfigFault.{open_fault};
ghost use Rattle.auction.specs.AuctionState.{current_orders, ladder_over, call_by};
ghost use Rattle.auction.specs.Reserve.{is_reserved_from};

mod book;
mod commands;
mod copying;
mod history;
mod open_orders;
mod refilling;

pub use auction_terms::Config;
use auction_terms::{
    AuctionKind, Call, Command, Display, MAX_CALLS, MAX_OPEN_ORDERS, MAX_TICK, MAX_TICKS, Reply,
    Trade,
};
use commands::DayState;
pub use history::audit;
use std::alloc::Global;
use std::marker::Model;
use tick_ladder::Ladder;

/// Why an auction can't be opened. The faults are looked for in this order.
#[derive(Clone, Copy, Debug, PartialEq, Eq)]
pub enum OpenFault {
    /// The bounds aren't `1 <= low <= high <= MAX_TICK`, or they have more than `MAX_TICKS` ticks.
    BadBounds,
    /// The first reference price isn't a tick from `low` to `high`.
    BadReference,
    /// `max_open` isn't from 1 to `MAX_OPEN_ORDERS`, or `max_calls` isn't from 1 to `MAX_CALLS`.
    BadCapacity,
    /// There is no memory for the orders, the trades and the ladder.
    NoMemory,
}

/// What an audit says of a history.
#[derive(Clone, Copy, Debug, PartialEq, Eq)]
pub enum AuditFinding {
    /// Each reply is the auction's own.
    Legal,
    /// The first place, from 0, of an entry that the auction doesn't answer so, or has no room for.
    BadAt(usize),
}

/// The auctions of one day, and how many commands they had.
#[derive(Drop)]
pub struct Auction {
    day: DayState,
    calls: u32,
}

impl Model for Auction {
    ghost use Rattle.std.specs.Prelude.{◌≤◌};
    ghost use Rattle.auction_terms.specs.Auxiliary.RunningAuction.{RunningAuction};
    ghost use Rattle.auction.specs.AuctionState.{HasCallCount, IsBoundedBy};

    ghost Value = { RunningAuction };

    ghost view = { λ a. record { config = a.day.config; state = a.day.state; calls = a.calls } };

    ghost invariant = { λ a. HasCallCount a.day a.calls × IsBoundedBy a.day.config a.day.config.reference };
}

/// The first fault for which an opening refuses a config, or none: then [`Auction::open`] can fail by `NoMemory` alone.
#[tactic(auto, unfolding(crate::specs::ConfigFault::open_fault))]
pub fn config_fault(config: Config) -> Option<OpenFault>
    ensures { result ≡ open_fault config }
{
    if config.low == 0
        || config.low > config.high
        || config.high > MAX_TICK
        || config.high - config.low >= MAX_TICKS
    {
        Some(OpenFault::BadBounds)
    } else if config.reference < config.low || config.reference > config.high {
        Some(OpenFault::BadReference)
    } else if config.max_open == 0
        || config.max_open > MAX_OPEN_ORDERS
        || config.max_calls == 0
        || config.max_calls > MAX_CALLS
    {
        Some(OpenFault::BadCapacity)
    } else {
        None
    }
}

impl Auction {
    /// An auction at the opening of its day: no orders, no trades, the reference of the config. It has room for all
    /// that the day can bring, `3 * max_open` trades among it, since no auction makes more trades than there were open
    /// orders.
    ///
    /// It is refused with the first fault of the config, and with `NoMemory` only where it has none.
    pub fn open(alloc: Global, config: Config) -> Result<Auction, OpenFault>
        ensures opening { IfOk result (λ a. a ≡ opened_auction config) }
        ensures refused { IfSome (open_fault config) (λ fault. result ≡ Err fault) }
        ensures memory { open_fault config ≡ None → IfErr result (λ fault. fault ≡ OpenFault.NoMemory) }
    {
        if let Some(fault) = config_fault(config) {
            return Err(fault);
        }
        match DayState::open(alloc, config) {
            Ok(day) => Ok(Auction { day, calls: 0 }),
            Err(_) => Err(OpenFault::NoMemory),
        }
    }

    /// How many commands were applied, the refused ones among them.
    pub fn calls(&self) -> u32
        ensures value { result ≡ self.now.calls }
        ensures within { self.now.calls ≤ self.now.config.max_calls }
    {
        self.calls
    }

    /// What it was opened with.
    pub fn config(&self) -> Config
        ensures { result ≡ self.now.config }
    {
        self.day.config()
    }

    /// Whether as many commands were applied as may be: `apply` takes no further one.
    pub fn is_full(&self) -> bool
        ensures value { result ≡ nat_eq self.now.calls self.now.config.max_calls }
        ensures within { self.now.calls ≤ self.now.config.max_calls }
    {
        self.calls == self.day.config().max_calls
    }

    /// Whether no more than `reserve` commands are left, which are the operator's, member 0, and the member isn't it.
    pub fn is_reserved_from(&self, member: u8, reserve: u32) -> bool
        ensures { result ≡ is_reserved_from reserve self.now.config member self.now.calls }
    {
        let calls = u64::from(self.calls) + u64::from(reserve);
        member != 0 && u64::from(self.day.config().max_calls) <= calls
    }

    /// The trades of the day so far, in the order in which they were made.
    pub fn tape(&self) -> &[Trade]
        ensures { result.now ≡ self.now.state.tape }
    {
        self.day.tape()
    }

    /// What is shown of the orders that count in the current auction: the auction price in ticks with the volume that
    /// it executes and the surplus left over, in shares, or where no orders can be executed against one another the
    /// highest bid limit and the lowest ask limit. It is kept after the day too.
    pub fn display(&self) -> Display
        ensures { result ≡ display self.now.state }
    {
        self.day.display()
    }

    /// The same as [`Auction::display`], which is then kept for the next question, until an order that decides it comes
    /// or goes, or the reference or the auction changes.
    pub fn show(&mut self) -> Display
        ensures state { self.new ≡ self.old }
        ensures display { result ≡ display self.old.state }
    {
        self.day.show()
    }

    /// The auction whose call phase it is; none after the day.
    pub fn current(&self) -> Option<AuctionKind>
        ensures { result ≡ self.now.state.auction }
    {
        self.day.auction()
    }

    /// Whether an interruption extended the current call phase.
    pub fn is_extended(&self) -> bool
        ensures { result ≡ self.now.state.extended }
    {
        self.day.is_extended()
    }

    /// The reference price in ticks: the last auction price of the day, and before it that of the config.
    pub fn reference(&self) -> u32
        ensures { result ≡ self.now.state.reference }
    {
        self.day.reference()
    }

    /// The quantities of the orders that count in the current auction, tick by tick over the bounds, among which are
    /// all limits of these orders.
    pub fn ladder(&self) -> &Ladder
        ensures value { result.now ≡ ladder_over self.now.config (current_orders self.now.state) }
        ensures book { IsLadderOf result.now (current_orders self.now.state) }
    {
        self.day.ladder()
    }

    /// Applies a member's command, and answers it. It takes no memory.
    ///
    /// The first check that refuses the command gives the answer. They come in this order: the day is over; only member
    /// 0 may uncross; a quantity outside 1 to `MAX_QUANTITY` shares; a limit outside the bounds; an order that isn't
    /// open or is another member's; a peak of 0, above the quantity or without a limit; an order for the opening
    /// auction alone, once that has been; a trade that isn't of the day; a full book. A refused command counts as a
    /// call and leaves all else as it was.
    ///
    /// - `Enter`: the order goes last in time, with the next id.
    /// - `Change`: the order gets this limit and open quantity. With another limit or more quantity it goes last in
    ///   time.
    /// - `Delete`: the order leaves the book.
    /// - `OrderStatus`, `Indicate`, `ReadTrade`: what is open of the order, what is shown, a trade by its number.
    /// - `Uncross`: the orders that count are executed at the auction price, by price and then time, and that price is
    ///   the new reference. Orders for this auction alone leave, and the next auction's call phase begins. The first
    ///   price of a call phase that lies more than the range away from the reference executes nothing: the call phase
    ///   goes on.
    pub fn apply(&mut self, member: u8, command: Command) -> Reply
        requires { self.old.calls < self.old.config.max_calls }
        ensures state { self.new ≡ auction_after_call self.old (call_by member command) }
        ensures reply { result ≡ (step self.old.config self.old.state (call_by member command)).1 }
    {
        let mut reply = Reply::Deleted;
        self.answer_call(&Call { member, command }, &mut reply);
        reply
    }

    /// The same as [`Auction::apply`], with the call lent and the reply put in the place of another, as neither is
    /// copied then.
    #[tactic(auto, unfolding(auction_terms::specs::Day::step))]
    pub fn answer_call(&mut self, call: &Call, reply: &mut Reply)
        requires { self.old.calls < self.old.config.max_calls }
        ensures state { self.new ≡ auction_after_call self.old call.now }
        ensures reply { reply.new ≡ (step self.old.config self.old.state call.now).1 }
    {
        if let Err(refusal) = self.day.decide(call, reply) {
            *reply = Reply::Refused(refusal);
        }
        self.calls += 1;
    }
}
