//! The numbers of replies, each below 2 ^ 64, as the machine holds no others. The functions here do nothing.

ghost use Rattle.std.specs.Prelude.{IfSome};
ghost use Rattle.journal.specs.WideReplies.{HasWideTick, IsWide, IsWidePrice, IsWideReply, IsWideTrade, IsWideUncross};

use auction_terms::{Display, Limit, Price, Reply, Trade};

fn see_tick(tick: Option<u32>)
    ensures { IfSome tick IsWide }
{
    if let Some(_tick) = tick {}
}

fn see_limit(limit: Limit)
    ensures { HasWideTick limit }
{
    if let Limit::At(_tick) = limit {}
}

fn see_price(price: Price)
    ensures { IsWidePrice price }
{
    let _numbers = (price.tick, price.volume, price.surplus);
}

fn see_trade(trade: Trade)
    ensures { IsWideTrade trade }
{
    let _numbers = (trade.bid, trade.ask, trade.tick, trade.quantity);
}

fn see_uncross(trades: u32, price: Option<Price>)
    ensures { IsWideUncross trades price }
{
    if let Some(price) = price {
        see_price(price);
    }
}

fn see_display(display: Display)
    ensures { IsWideReply (Reply.Indicated display) }
{
    match display {
        Display::Priced(price) => see_price(price),
        Display::Unpriced { best_bid, best_ask } => {
            see_tick(best_bid);
            see_tick(best_ask);
        }
    }
}

pub(crate) fn see_reply(reply: Reply)
    ensures { IsWideReply reply }
{
    match reply {
        Reply::OpenOrder {
            limit,
            quantity: _quantity,
            visible: _visible,
            ..
        } => see_limit(limit),
        Reply::Indicated(display) => see_display(display),
        Reply::Traded(trade) => see_trade(trade),
        Reply::Uncrossed { trades, price, .. } => see_uncross(trades, price),
        Reply::Interrupted(price) => see_price(price),
        Reply::Entered { id: _id } => {}
        _ => {}
    }
}
