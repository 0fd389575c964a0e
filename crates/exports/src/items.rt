// Items of a field, read and written, as numbers; and the mode of a message.
ghost use Rattle.std.specs.Prelude.{◌≡◌};
ghost use Rattle.ftd.specs.Mode.{mode_of};
ghost use Rattle.ftd.specs.Item.{item_value_of, item_fits, item_written};
ghost use Rattle.ftd.specs.Write.{written_answer, written_output, fit_verdict};
ghost use Rattle.exports.specs.Numbers.{written_numbers};
ghost use Rattle.exports.specs.Items.{value_numbers, text_numbers, day_numbers, date_numbers, item_numbers, char_for};
ghost use Rattle.exports.specs.Items.{word_for, int_for, item_for, mode_number};

use crate::tags::flag_of;
use crate::written::{FtdWritten, written};
use ftd::dates::Date;
use ftd::item::{FieldItem, read_item, write_item};
use ftd::mode::{Mode, mode_of};

// The value of an item: which kind it is of, and its numbers.
// Stays: `negative` as a number; the C interface (include/ftd.h).
#[repr(C)]
#[derive(Clone, Copy)]
pub struct FtdItem {
    pub start: usize,
    pub len: usize,
    pub value: u64,
    pub year: u16,
    pub month: u8,
    pub day: u8,
    pub kind: u8,
    pub negative: u8,
}

// A kind with one number or none: all but a String and a day.
fn valued(kind: u8, minus: u8, x: u64) -> FtdItem
    ensures { result ≡ value_numbers kind minus x }
{
    FtdItem {
        start: 0,
        len: 0,
        value: x,
        year: 0,
        month: 0,
        day: 0,
        kind,
        negative: minus,
    }
}

// A String: where it stands in the field.
fn text(from: usize, size: usize) -> FtdItem
    ensures { result ≡ text_numbers from size }
{
    FtdItem {
        start: from,
        len: size,
        value: 0,
        year: 0,
        month: 0,
        day: 0,
        kind: 5,
        negative: 0,
    }
}

// A day.
fn day(y: u16, m: u8, d: u8) -> FtdItem
    ensures { result ≡ day_numbers y m d }
{
    FtdItem {
        start: 0,
        len: 0,
        value: 0,
        year: y,
        month: m,
        day: d,
        kind: 8,
        negative: 0,
    }
}

// A Date.
fn date(d: Date) -> FtdItem
    ensures { result ≡ date_numbers d }
{
    match d {
        Date::NoDate => valued(1, 0, 0),
        Date::Unused => valued(9, 0, 0),
        Date::Day {
            year,
            month,
            day: d,
        } => day(year, month, d),
    }
}

// Numbers of eight, sixteen and thirty-two bits as ones of sixty-four.
fn wide8(x: u8) -> u64
    ensures { result ≡ x }
{
    x as u64
}

fn wide16(x: u16) -> u64
    ensures { result ≡ x }
{
    x as u64
}

fn wide32(x: u32) -> u64
    ensures { result ≡ x }
{
    x as u64
}

// What was read, as numbers.
fn numbers(x: FieldItem) -> FtdItem
    ensures { result ≡ item_numbers x }
{
    match x {
        FieldItem::NoItem => valued(0, 0, 0),
        FieldItem::NoValue => valued(1, 0, 0),
        FieldItem::Char(b) => valued(2, 0, wide8(b)),
        FieldItem::Word(w) => valued(3, 0, wide16(w)),
        FieldItem::Int(n) => valued(4, 0, wide32(n)),
        FieldItem::Text { start, len } => text(start, len),
        FieldItem::Number { negative, units } => valued(6, flag_of(negative), units),
        FieldItem::Float { negative, units } => valued(7, flag_of(negative), units),
        FieldItem::Date(d) => date(d),
    }
}

// Item i of a field, counted from 0, in the field's bytes.
#[unsafe(no_mangle)]
pub extern "C" fn ftd_read_item(fid: u32, i: usize, field: &[u8]) -> FtdItem
    ensures { result ≡ item_numbers (item_value_of fid i field.now) }
{
    numbers(read_item(fid, i, field))
}

// A number as a Char, Word or Int: no value where it is too large.
fn char_for(x: u64) -> FieldItem
    ensures { result ≡ char_for x }
{
    if x < 256 {
        return FieldItem::Char(x as u8);
    }
    FieldItem::NoValue
}

fn word_for(x: u64) -> FieldItem
    ensures { result ≡ word_for x }
{
    if x < 65536 {
        return FieldItem::Word(x as u16);
    }
    FieldItem::NoValue
}

fn int_for(x: u64) -> FieldItem
    ensures { result ≡ int_for x }
{
    if x < 4294967296 {
        return FieldItem::Int(x as u32);
    }
    FieldItem::NoValue
}

// The value that the numbers say.
fn item_for(x: FtdItem) -> FieldItem
    ensures { result ≡ item_for x }
{
    if x.kind == 0 {
        return FieldItem::NoItem;
    }
    if x.kind == 2 {
        return char_for(x.value);
    }
    if x.kind == 3 {
        return word_for(x.value);
    }
    if x.kind == 4 {
        return int_for(x.value);
    }
    if x.kind == 5 {
        return FieldItem::Text {
            start: x.start,
            len: x.len,
        };
    }
    if x.kind == 6 {
        return FieldItem::Number {
            negative: x.negative != 0,
            units: x.value,
        };
    }
    if x.kind == 7 {
        return FieldItem::Float {
            negative: x.negative != 0,
            units: x.value,
        };
    }
    if x.kind == 8 {
        return FieldItem::Date(Date::Day {
            year: x.year,
            month: x.month,
            day: x.day,
        });
    }
    if x.kind == 9 {
        return FieldItem::Date(Date::Unused);
    }
    FieldItem::NoValue
}

// A value as item i of a field, at the start of the output; of a String, the bytes given beside it.
#[unsafe(no_mangle)]
pub extern "C" fn ftd_write_item(
    fid: u32,
    i: usize,
    value: FtdItem,
    text: &[u8],
    out: &mut [u8],
) -> FtdWritten
    ensures answer { result ≡ written_numbers
        (written_answer (fit_verdict (item_fits fid i (item_for value) text.now))
        (item_written fid i (item_for value) text.now) out.old) }
    ensures output { out.new ≡ written_output
        (fit_verdict (item_fits fid i (item_for value) text.now))
        (item_written fid i (item_for value) text.now) out.old }
{
    written(write_item(fid, i, item_for(value), text, out))
}

// The mode of a message by its TID.
#[unsafe(no_mangle)]
pub extern "C" fn ftd_mode_of(tid: u32) -> u8
    ensures { result ≡ mode_number (mode_of tid) }
{
    match mode_of(tid) {
        Mode::Unknown => 0,
        Mode::Private => 1,
        Mode::Broadcast => 2,
        Mode::Management => 3,
        Mode::Dialog => 4,
    }
}
