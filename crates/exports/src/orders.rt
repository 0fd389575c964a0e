// The order of two serving ends, boxes among them, for a series (02, No. 14), for C and Rust.
ghost use Rattle.std.specs.Prelude.{◌≡◌};
ghost use Rattle.flow.specs.Order.{order_of};
ghost use Rattle.relay.specs.Box.{no_seat, server_of};
ghost use Rattle.exports.specs.Serving.{sender_for};
ghost use Rattle.exports.specs.Boxes.{day_for};
ghost use Rattle.exports.specs.Orders.{order_numbers, OrderNumberLaws};

use crate::boxes::{FtdBox, relay_for};
use crate::serving::{FtdSender, sender_for};
use flow::order::{Order, order_of};
use ftd::refusal::number;

// Which answer it is, and the first number that differs, or the refusal's.
#[repr(C)]
#[derive(Clone, Copy)]
pub struct FtdOrder {
    pub number: u32,
    pub answer: u8,
    pub refusal: u8,
}

// What the order answers.
fn ordered(a: Order) -> FtdOrder
    ensures { result ≡ order_numbers a }
{
    match a {
        Order::Same => FtdOrder {
            number: 0,
            answer: 0,
            refusal: 0,
        },
        Order::FirstStarts => FtdOrder {
            number: 0,
            answer: 1,
            refusal: 0,
        },
        Order::SecondStarts => FtdOrder {
            number: 0,
            answer: 2,
            refusal: 0,
        },
        Order::Differ(k) => FtdOrder {
            number: k,
            answer: 3,
            refusal: 0,
        },
        Order::Refused(r) => FtdOrder {
            number: 0,
            answer: 4,
            refusal: number(r),
        },
    }
}

// Two serving ends, each with its log.
#[unsafe(no_mangle)]
pub extern "C" fn ftd_order(
    first: FtdSender,
    log: &[u8],
    second: FtdSender,
    other: &[u8],
    series: u16,
) -> FtdOrder
    ensures { result ≡ order_numbers (order_of series (sender_for first) log.now (sender_for second)
        other.now) }
{
    ordered(order_of(series, sender_for(first), log, sender_for(second), other))
}

// Two boxes, each with its log: their days are compared.
#[unsafe(no_mangle)]
pub extern "C" fn ftd_box_order(
    first: FtdBox,
    log: &[u8],
    second: FtdBox,
    other: &[u8],
    series: u16,
) -> FtdOrder
    ensures { result ≡ order_numbers (order_of series (server_of (day_for first.day) no_seat) log.now
        (server_of (day_for second.day) no_seat) other.now) }
{
    ordered(relay_for(first).order(series, log, relay_for(second), other))
}

// A box and a serving end, each with its log.
#[unsafe(no_mangle)]
pub extern "C" fn ftd_box_order_with(
    first: FtdBox,
    log: &[u8],
    second: FtdSender,
    other: &[u8],
    series: u16,
) -> FtdOrder
    ensures { result ≡ order_numbers (order_of series (server_of (day_for first.day) no_seat) log.now
        (sender_for second) other.now) }
{
    ordered(relay_for(first).order_with(series, log, sender_for(second), other))
}

// The order's numbers, as a promise.
pub fn keeps_order_numbers()
    ensures { OrderNumberLaws }
{}
