//! Pieces of markup, filled with texts.

ghost use Rattle.std.specs.Prelude.{◌≡◌, ◌++◌, OnOk, decimal, map};
ghost use Rattle.pb_page.specs.Inner.Filling.{filled};
ghost use Rattle.pb_page.specs.Inner.Value.{text_of};
ghost use Rattle.pb_page.specs.Markup.{written};
ghost use Rattle.pb_rows.specs.ExactText.{exact_text};

use crate::forms::width;
use crate::markup::amounts::{write_amount, write_count};
use crate::markup::value::Value;
use crate::markup::words::Words;
use crate::markup::written::write_text;
use itoa::Buffer;
use pb_core::no_memory::NoMemory;
use pb_rows::put_exact;

/// Stands in a piece of markup where a value goes.
const PLACE: u8 = b'~';

/// Writes a piece of the program's own markup after a page, with these values in the places of its `~`, one
/// after the other. A place without a value stays empty.
pub(crate) fn fill(
    page: &mut Vec<u8>,
    words: &Words,
    piece: &'static str,
    values: &[Value],
) -> Result<(), NoMemory>
    ensures { OnOk result (page.new.items
        ≡ page.old.items ++ filled piece.now (map (text_of words.now) values.now)) }
{
    let mut used = 0;
    let bytes = piece.as_bytes();
    for byte in bytes {
        if *byte != PLACE {
            page.push(*byte)?;
        } else if used < values.len() {
            let value = &values[used];
            write_value(page, words, value)?;
            used += 1;
        }
    }
    Ok(())
}

/// Writes a value.
fn write_value(page: &mut Vec<u8>, words: &Words, value: &Value) -> Result<(), NoMemory>
    ensures { OnOk result (page.new.items ≡ page.old.items ++ written (text_of words.now value.now)) }
{
    match value {
        Value::Text(text) => write_text(page, text),
        Value::Said(key) => write_text(page, words.sentence(*key)),
        Value::Noun(key, number) => write_text(page, words.noun(*key, *number)),
        Value::Number(number) => write_number(page, *number),
        Value::Small(number) => write_number(page, u64::from(*number)),
        Value::Grouped(number, group) => write_count(page, u128::from(*number), group),
        Value::Width(amount, whole) => write_number(page, width(*amount, *whole)),
        Value::Amount(amount) => {
            let text = amount.text(*page.allocator())?;
            write_text(page, text.as_str())
        }
        Value::Shown(amount, form) => write_amount(page, u128::from(amount.0), form),
        Value::Exact(amount, divisor) => write_exact(page, *amount, *divisor),
        Value::Hundredths(amount, form) => write_amount(page, *amount, form),
    }
}

/// Writes an amount that is divided by so much, as reports have it.
fn write_exact(page: &mut Vec<u8>, amount: u128, divisor: u64) -> Result<(), NoMemory>
    ensures { OnOk result (page.new.items ≡ page.old.items ++ written (exact_text amount divisor)) }
{
    let mut text = String::new(*page.allocator());
    put_exact(&mut text, amount, divisor)?;
    write_text(page, text.as_str())
}

/// Writes a number.
fn write_number(page: &mut Vec<u8>, number: u64) -> Result<(), NoMemory>
    ensures { OnOk result (page.new.items ≡ page.old.items ++ written (decimal number)) }
{
    let mut digits = Buffer::new();
    write_text(page, digits.format(number))
}
