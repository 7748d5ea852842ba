//! The tables of days that are small enough to work out by hand.

use super::{Row, each_gives};

const TRADES: &[&str] = &["callboard", "--print", "trades"];

const BOOK: &[&str] = &["callboard", "--print", "book"];

/// A day on which 200 alone has the most volume.
const ONE_LIMIT: &[u8] = b"\
1,enter,bid,200,202
1,enter,bid,200,201
1,enter,bid,300,200
2,enter,ask,100,200
2,enter,ask,200,199
2,enter,ask,200,198
1,ask
0,uncross
";

const ONE_LIMIT_TRADES: &str = "\
trade,auction,bid,bid_member,ask,ask_member,quantity,tick
1,opening,1,1,6,2,200,200
2,opening,2,1,5,2,200,200
3,opening,3,1,4,2,100,200
";

const ONE_LIMIT_BOOK: &str = "\
command,auction,limit,bid,ask,demand,supply,volume,surplus,side,best,price
8,opening,market,0,0,,,,,,,
8,opening,202,200,0,200,500,200,300,ask,0,
8,opening,201,200,0,400,500,400,100,ask,0,
8,opening,200,300,100,700,500,500,200,bid,1,single
8,opening,199,0,200,700,400,400,300,bid,0,
8,opening,198,0,200,700,200,200,500,bid,0,
9,intraday,market,0,0,,,,,,,
9,intraday,200,200,0,200,0,0,200,bid,0,
";

/// A day whose best limits have more bid: the highest decides.
const HIGHEST: &[u8] = b"\
1,enter,bid,400,202
1,enter,bid,200,201
2,enter,ask,300,199
2,enter,ask,200,198
0,ask
";

const HIGHEST_BOOK: &str = "\
command,auction,limit,bid,ask,demand,supply,volume,surplus,side,best,price
6,opening,market,0,0,,,,,,,
6,opening,202,400,0,400,500,400,100,ask,0,
6,opening,201,200,0,600,500,500,100,bid,1,highest
6,opening,199,0,300,600,500,500,100,bid,1,
6,opening,198,0,200,600,200,200,400,bid,0,
";

/// A day whose best limits have more offered: the lowest decides.
const LOWEST: &[u8] = b"\
1,enter,bid,200,202
1,enter,bid,300,201
2,enter,ask,200,199
2,enter,ask,400,198
0,ask
";

const LOWEST_BOOK: &str = "\
command,auction,limit,bid,ask,demand,supply,volume,surplus,side,best,price
6,opening,market,0,0,,,,,,,
6,opening,202,200,0,200,600,200,400,ask,0,
6,opening,201,300,0,500,600,500,100,ask,1,
6,opening,199,0,200,500,600,500,100,ask,1,lowest
6,opening,198,0,400,500,400,400,100,bid,0,
";

/// A day whose best limits have a surplus on both sides: the reference decides.
const REFERENCE: &[u8] = b"\
1,enter,bid,100,market
2,enter,ask,100,market
1,enter,bid,50,190
2,enter,ask,50,210
0,ask
";

const REFERENCE_BOOK: &str = "\
command,auction,limit,bid,ask,demand,supply,volume,surplus,side,best,price
6,opening,market,100,100,,,,,,,
6,opening,210,0,50,100,150,100,50,ask,1,
6,opening,200,0,0,100,100,100,0,none,0,reference
6,opening,190,50,0,150,100,100,50,bid,1,
";

/// A day of market orders alone.
const MARKET: &[u8] = b"\
1,enter,bid,900,market
2,enter,ask,800,market
0,ask
0,uncross
1,trade,1
1,status,1
";

const MARKET_TRADES: &str = "\
trade,auction,bid,bid_member,ask,ask_member,quantity,tick
1,opening,1,1,2,2,800,200
";

const MARKET_BOOK: &str = "\
command,auction,limit,bid,ask,demand,supply,volume,surplus,side,best,price
4,opening,market,900,800,,,,,,,
4,opening,200,0,0,900,800,800,100,bid,0,market
7,intraday,market,100,0,,,,,,,
";

static ROWS: [Row; 7] = [
    (TRADES, ONE_LIMIT, ONE_LIMIT_TRADES, "", 0),
    (BOOK, ONE_LIMIT, ONE_LIMIT_BOOK, "", 0),
    (BOOK, HIGHEST, HIGHEST_BOOK, "", 0),
    (BOOK, LOWEST, LOWEST_BOOK, "", 0),
    (BOOK, REFERENCE, REFERENCE_BOOK, "", 0),
    (TRADES, MARKET, MARKET_TRADES, "", 0),
    (BOOK, MARKET, MARKET_BOOK, "", 0),
];

#[test]
fn each_table_is_as_worked_out(rt: HostRuntime) {
    each_gives(&rt, &ROWS);
}
