// The value of an item of a field, by FID and item number: read and written.
ghost use Rattle.std.specs.Prelude.{◌≡◌};
ghost use Rattle.ftd.specs.Write.{written_answer, written_output, fit_verdict};
ghost use Rattle.ftd.specs.Item.{typed_value, given_at, item_value_of, item_fits, item_written, ItemLaws};
ghost use Rattle.ftd.specs.Item.Helpers.{of_kind};

use crate::bytes::{be16, be32};
use crate::dates::{Date, read_date, write_date};
use crate::kinds::{DATE, FLOAT, INT, NUMBER, STRING, WORD};
use crate::places::{ItemPlace, item_place};
use crate::refusal::Refusal;
use crate::signed::{Signed, read_float, read_number, write_float, write_number};
use crate::texts::{read_text, write_text};
use crate::whole::{char_fits, write_char, write_int, write_word};
use crate::write::WriteError;

// The value of an item; or its bytes are none; or there is no such item, or it is not there whole. Of a text, trailing
// spaces aside, the place within the field's bytes.
// Stays: nine outcomes that callers tell apart in one match, as specs/Item.antt names them; a Result round them
// would nest it.
#[derive(Clone, Copy)]
pub enum FieldItem {
    NoItem,
    NoValue,
    Char(u8),
    Word(u16),
    Int(u32),
    Text { start: usize, len: usize },
    Number { negative: bool, units: u64 },
    Float { negative: bool, units: u64 },
    Date(Date),
}

// An item's bytes by kind and decimals; the item starts at `start`.
fn typed_item(kind: u8, scale: u8, s: &[u8], start: usize) -> FieldItem
    ensures { result ≡ given_at start (typed_value kind scale s.now) }
{
    match kind {
        WORD => {
            if s.len() != 2 {
                return FieldItem::NoValue;
            }
            FieldItem::Word(be16(s, 0))
        }
        INT => {
            if s.len() != 4 {
                return FieldItem::NoValue;
            }
            FieldItem::Int(be32(s, 0))
        }
        STRING => match read_text(s) {
            None => FieldItem::NoValue,
            Some(len) => FieldItem::Text { start, len },
        },
        NUMBER => match read_number(s) {
            None => FieldItem::NoValue,
            Some(Signed { negative, units }) => FieldItem::Number { negative, units },
        },
        FLOAT => match read_float(scale, s) {
            None => FieldItem::NoValue,
            Some(Signed { negative, units }) => FieldItem::Float { negative, units },
        },
        DATE => match read_date(s) {
            Date::NoDate => FieldItem::NoValue,
            date => FieldItem::Date(date),
        },
        _ => {
            if s.len() != 1 || !char_fits(kind, s[0]) {
                return FieldItem::NoValue;
            }
            FieldItem::Char(s[0])
        }
    }
}

// Item i of a field, counted from 0, in the field's bytes (without FID and length).
pub fn read_item(fid: u32, i: usize, field: &[u8]) -> FieldItem
    ensures { result ≡ item_value_of fid i field.now }
{
    let Some(
        ItemPlace {
            kind,
            scale,
            start,
            width,
        },
    ) = item_place(fid, i)
    else {
        return FieldItem::NoItem;
    };
    if field.len() < start || field.len() - start < width {
        return FieldItem::NoItem;
    }
    typed_item(kind, scale, &field[start..start + width], start)
}

// A value is of the item's type. A Char's kind is tested where it is written.
fn of_kind(kind: u8, value: FieldItem) -> bool
    ensures { result ≡ of_kind kind value }
{
    match value {
        FieldItem::NoItem | FieldItem::NoValue => false,
        FieldItem::Char(_) => true,
        FieldItem::Word(_) => kind == WORD,
        FieldItem::Int(_) => kind == INT,
        FieldItem::Text { .. } => kind == STRING,
        FieldItem::Number { .. } => kind == NUMBER,
        FieldItem::Float { .. } => kind == FLOAT,
        FieldItem::Date(_) => kind == DATE,
    }
}

// A value as item i of a field, at the start of the output; of a text, the bytes given beside it. What does not fit the
// item is refused with 9, and so is a value where there is no such item.
pub fn write_item(
    fid: u32,
    i: usize,
    value: FieldItem,
    text: &[u8],
    out: &mut [u8],
) -> Result<usize, WriteError>
    ensures answer { result ≡ written_answer (fit_verdict (item_fits fid i value text.now))
        (item_written fid i value text.now) out.old }
    ensures output { out.new ≡ written_output (fit_verdict (item_fits fid i value text.now))
        (item_written fid i value text.now) out.old }
{
    let Some(
        ItemPlace {
            kind,
            scale,
            width,
            ..
        },
    ) = item_place(fid, i)
    else {
        return Err(WriteError::Refused(Refusal::Item));
    };
    if !of_kind(kind, value) {
        return Err(WriteError::Refused(Refusal::Item));
    }
    match value {
        FieldItem::NoItem | FieldItem::NoValue => Err(WriteError::Refused(Refusal::Item)),
        FieldItem::Char(b) => write_char(out, kind, b),
        FieldItem::Word(x) => write_word(out, x),
        FieldItem::Int(x) => write_int(out, x),
        FieldItem::Text { .. } => write_text(out, width, text),
        FieldItem::Number { negative, units } => write_number(out, width, negative, units),
        FieldItem::Float { negative, units } => write_float(out, scale, width, negative, units),
        FieldItem::Date(d) => write_date(out, d),
    }
}

// What holds of every row of the table, as a promise.
pub fn keeps_item_laws()
    ensures { ItemLaws }
{}
