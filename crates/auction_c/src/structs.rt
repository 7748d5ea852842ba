//! The structs that C and an auction hand to one another.
//!
//! Each is plain numbers, and has the layout of its namesake in `callauction.h`. A flag is 0 or 1.

/// What an auction is opened with, as `Config`.
#[repr(C)]
#[derive(Clone, Copy, Debug, PartialEq, Eq)]
pub struct AuctionConfig {
    /// The lowest and the highest tick.
    pub low: u32,
    pub high: u32,
    /// The first reference price, in ticks.
    pub reference: u32,
    /// How many orders may be open at a time.
    pub max_open: u32,
    /// How many commands may be applied.
    pub max_calls: u32,
    /// 0: no price interrupts an uncross, and `range` is 0. 1: one does that lies more than `range` ticks from the
    /// reference.
    pub has_range: u32,
    pub range: u32,
    /// 1: the last `reserve` calls are the operator's, member 0. 0: as many as usual are, and `reserve` is 0.
    pub has_reserve: u32,
    pub reserve: u32,
}

/// A member's command. What its tag doesn't need isn't read.
#[repr(C)]
#[derive(Clone, Copy, Debug, PartialEq, Eq)]
pub struct AuctionCommand {
    /// Shares, of an entry or a change.
    pub quantity: u64,
    /// The most shares that an entered order shows, where `has_peak` is 1; else 0.
    pub peak: u64,
    /// The caller's own number of an entered order: it isn't read here, and 0 in what is written.
    pub client: u64,
    /// The id of an order, or the number of a trade.
    pub id: u32,
    /// A tick, where `has_limit` is 1; else 0, of a market order.
    pub limit: u32,
    pub member: u8,
    /// 1 enter, 2 change, 3 delete, 4 status, 5 ask, 6 trade, 7 uncross.
    pub tag: u8,
    /// 1 bid, 2 ask.
    pub side: u8,
    /// The auctions that the order is for: 0 every one, 1 the opening, 2 the closing alone.
    pub restriction: u8,
    pub has_limit: u8,
    pub has_peak: u8,
}

/// A reply. What its tag doesn't need is 0.
#[repr(C)]
#[derive(Clone, Copy, Debug, PartialEq, Eq)]
pub struct AuctionReply {
    /// Shares, open of an order or executed in a trade.
    pub quantity: u64,
    /// The shares of an order that are shown.
    pub visible: u64,
    /// Shares, of an auction price.
    pub volume: u64,
    pub surplus: u64,
    /// The id of the order that was entered, or of a trade's bid.
    pub id: u32,
    /// The id of a trade's ask.
    pub ask: u32,
    /// An order's limit, an auction price, or a trade's price, where `has_tick` is 1 or the tag says so.
    pub tick: u32,
    /// How many trades an uncross made.
    pub trades: u32,
    /// The highest bid limit and the lowest ask limit, where their flags are 1.
    pub best_bid: u32,
    pub best_ask: u32,
    /// 1 entered, 2 changed, 3 deleted, 4 open order, 5 priced, 6 unpriced, 7 traded, 8 uncrossed, 9 interrupted,
    /// 10 refused.
    pub tag: u8,
    /// The side of an order or of a surplus: 0 none, 1 bid, 2 ask.
    pub side: u8,
    /// The auction that was uncrossed: 1 opening, 2 intraday, 3 closing.
    pub auction: u8,
    /// Whether an order kept its place in time.
    pub kept: u8,
    /// Why a command was refused: 1 to 9, in the order of `Refusal`.
    pub refusal: u8,
    pub has_tick: u8,
    pub has_best_bid: u8,
    pub has_best_ask: u8,
}

/// A trade.
#[repr(C)]
#[derive(Clone, Copy, Debug, PartialEq, Eq)]
pub struct AuctionTrade {
    /// Shares.
    pub quantity: u64,
    /// The ids of the two orders.
    pub bid: u32,
    pub ask: u32,
    /// The price.
    pub tick: u32,
}

/// An open order, as it is listed.
#[repr(C)]
#[derive(Clone, Copy, Debug, PartialEq, Eq)]
pub struct AuctionOrder {
    /// Shares that are open, that are shown, and that the trades of the day executed.
    pub quantity: u64,
    pub visible: u64,
    pub filled: u64,
    /// The most shares that it shows, where `has_peak` is 1; else 0.
    pub peak: u64,
    /// 0: whoever keeps the callers' own numbers of orders writes it.
    pub client: u64,
    pub id: u32,
    /// A tick, where `has_limit` is 1; else 0, of a market order.
    pub limit: u32,
    pub member: u8,
    /// 1 bid, 2 ask.
    pub side: u8,
    /// The auctions that the order is for: 0 every one, 1 the opening, 2 the closing alone.
    pub restriction: u8,
    pub has_limit: u8,
    pub has_peak: u8,
}

/// What an uncross did to an order of which it executed shares, or which it took out.
#[repr(C)]
#[derive(Clone, Copy, Debug, PartialEq, Eq)]
pub struct AuctionOutcome {
    /// Shares that the uncross executed of it, and those that it left.
    pub filled: u64,
    pub left: u64,
    /// 0, as of a listed order.
    pub client: u64,
    pub id: u32,
    /// The auction price; 0 where there is none.
    pub tick: u32,
    pub member: u8,
    /// 1 bid, 2 ask.
    pub side: u8,
    /// 1 where it was for the ended auction alone and had shares left, which aren't open any more.
    pub expired: u8,
}

/// Where the day of an auction is.
#[repr(C)]
#[derive(Clone, Copy, Debug, PartialEq, Eq)]
pub struct AuctionDayState {
    /// The reference price: the last auction price of the day, and before it that of the config.
    pub reference: u32,
    /// How many commands were applied, and how many more may be: by the operator, and by each other member.
    pub calls: u32,
    pub calls_left: u32,
    pub calls_left_to_members: u32,
    /// The current auction, where `in_call` is 1: 1 opening, 2 intraday, 3 closing; else 0.
    pub auction: u8,
    /// 1 in a call phase, 0 after the day.
    pub in_call: u8,
    /// Whether an interruption extended the call phase.
    pub extended: u8,
}

/// The shares of the market orders that count.
#[repr(C)]
#[derive(Clone, Copy, Debug, PartialEq, Eq)]
pub struct AuctionMarketOrders {
    pub bids: u64,
    pub asks: u64,
}

/// A member's recorded call: its number in the history, from 1, and the auction's reply.
#[repr(C)]
#[derive(Clone, Copy, Debug, PartialEq, Eq)]
pub struct AuctionReceipt {
    pub reply: AuctionReply,
    pub number: u32,
}

/// What a look shows: how many calls a board has had, and the display after them, as a reply with tag 5 or 6.
#[repr(C)]
#[derive(Clone, Copy, Debug, PartialEq, Eq)]
pub struct AuctionShown {
    pub display: AuctionReply,
    pub calls: u32,
}

/// A call of a board's history, with its reply.
#[repr(C)]
#[derive(Clone, Copy, Debug, PartialEq, Eq)]
pub struct AuctionEntry {
    pub command: AuctionCommand,
    pub reply: AuctionReply,
}

/// What a journal's text comes to. Where it has a fault, all but the first three is 0, and else these.
#[repr(C)]
#[derive(Clone, Copy, Debug, PartialEq, Eq)]
pub struct AuctionJournal {
    /// The number of the record that has the fault, and of a bad field in it, from 1 on; 0 where there is none.
    pub record_number: u64,
    pub field_number: u32,
    /// 1 too long, 2 bad member, 3 bad command, 4 wrong number of fields, 5 bad field, 6 too many commands, 7 not a day
    /// record.
    pub fault: u32,
    pub members: u32,
    pub calls: u32,
    /// The calls with a recorded reply, and those of them whose recorded reply isn't the lawful one.
    pub compared: u32,
    pub unlawful: u32,
    /// The number of the first of these, from 1 on; 0 where there is none.
    pub first_unlawful: u32,
    /// How many bytes the whole lines have, of which each call is; what follows them wasn't read.
    pub taken: u32,
}
