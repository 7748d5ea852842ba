//! What the rules show and execute, and what becomes of orders over the day, beside the files of `examples/`.

use super::{Example, each_gives_its_lines};
use std::test::Fail;

static EXAMPLES: [Example; 11] = [
    Example {
        name: "an empty book has no price",
        arguments: &["callboard"],
        text: "\
1,ask -> no price bid - ask -
0,uncross -> opening no price
0,ask -> no price bid - ask -
",
    },
    Example {
        name: "the limit with the most volume is the price",
        arguments: &["callboard", "--range", "0"],
        text: "\
1,enter,bid,200,202 -> entered 1
1,enter,bid,200,201 -> entered 2
1,enter,bid,300,200 -> entered 3
2,enter,ask,100,200 -> entered 4
2,enter,ask,200,199 -> entered 5
2,enter,ask,200,198 -> entered 6
1,ask -> price 200 volume 500 surplus 200 bid
0,uncross -> opening price 200 volume 500 surplus 200 bid trades 3
1,trade,1 -> trade 1 6 200 at 200
1,trade,2 -> trade 2 5 200 at 200
1,trade,3 -> trade 3 4 100 at 200
",
    },
    Example {
        name: "one limit beside market orders is the price",
        arguments: &["callboard"],
        text: "\
1,enter,ask,100,market -> entered 1
2,enter,bid,60,market -> entered 2
1,enter,ask,40,250 -> entered 3
0,ask -> price 250 volume 60 surplus 80 ask
",
    },
    Example {
        name: "a deleted limit is no price any more",
        arguments: &["callboard", "--reference", "185"],
        text: "\
1,enter,bid,100,market -> entered 1
2,enter,ask,100,market -> entered 2
1,enter,bid,50,190 -> entered 3
2,enter,ask,50,210 -> entered 4
1,enter,bid,1,200 -> entered 5
0,ask -> price 200 volume 100 surplus 1 bid
1,delete,5 -> deleted
0,ask -> price 190 volume 100 surplus 50 bid
",
    },
    Example {
        name: "one tick is enough",
        arguments: &["callboard", "--low", "200", "--high", "200"],
        text: "\
1,enter,bid,1,200 -> entered 1
2,enter,ask,1,200 -> entered 2
0,ask -> price 200 volume 1 surplus 0 none
",
    },
    Example {
        name: "the reference decides without a surplus",
        arguments: &["callboard", "--reference", "190"],
        text: "\
1,enter,bid,100,210 -> entered 1
2,enter,ask,100,190 -> entered 2
0,ask -> price 190 volume 100 surplus 0 none
",
    },
    Example {
        name: "the reference decides without a surplus",
        arguments: &["callboard", "--reference", "250"],
        text: "\
1,enter,bid,100,210 -> entered 1
2,enter,ask,100,190 -> entered 2
0,ask -> price 210 volume 100 surplus 0 none
",
    },
    Example {
        name: "orders are changed and deleted",
        arguments: &["callboard"],
        text: "\
1,enter,bid,500,200,100 -> entered 1
1,status,1 -> order bid 500 at 200 visible 100
1,change,1,60,200 -> changed kept
1,status,1 -> order bid 60 at 200 visible 60
1,change,1,60,200 -> changed kept
1,change,1,60,199 -> changed moved
1,change,1,60,market -> refused 3 BadPeak
2,change,1,60,market -> refused 5 UnknownOrder
1,delete,1 -> deleted
1,delete,1 -> refused 5 UnknownOrder
1,enter,ask,7,market -> entered 2
1,status,2 -> order ask 7 market visible 7
1,change,2,7,150 -> changed moved
",
    },
    Example {
        name: "an order for the closing auction waits",
        arguments: &["callboard"],
        text: "\
1,enter,bid,150,200,,closing -> entered 1
0,uncross -> opening no price
0,uncross -> intraday no price
2,enter,bid,100,200 -> entered 2
3,enter,ask,100,200 -> entered 3
0,uncross -> closing price 200 volume 100 surplus 150 bid trades 1
0,trade,1 -> trade 1 3 100 at 200
1,status,1 -> refused 5 UnknownOrder
2,status,2 -> order bid 100 at 200 visible 100
",
    },
    Example {
        name: "a price far from the reference interrupts",
        arguments: &["callboard", "--range", "5"],
        text: "\
1,enter,bid,100,210 -> entered 1
2,enter,ask,100,206 -> entered 2
0,ask -> price 206 volume 100 surplus 0 none
0,uncross -> interrupted price 206 volume 100 surplus 0 none
0,uncross -> opening price 206 volume 100 surplus 0 none trades 1
# The price is the reference now, at which market orders meet.
1,enter,bid,7,market -> entered 3
2,enter,ask,7,market -> entered 4
0,ask -> price 206 volume 7 surplus 0 none
",
    },
    Example {
        name: "a price far from the reference interrupts",
        arguments: &["callboard", "--range", "6"],
        text: "\
1,enter,bid,100,210 -> entered 1
2,enter,ask,100,206 -> entered 2
0,uncross -> opening price 206 volume 100 surplus 0 none trades 1
",
    },
];

#[test]
fn each_day_is_by_the_rules(rt: HostRuntime) -> Result<(), Fail> {
    each_gives_its_lines(&rt, EXAMPLES.as_slice())
}
