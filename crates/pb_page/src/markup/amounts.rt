//! Amounts of money, and other numbers, as people write them.

ghost use Rattle.std.specs.Prelude.{◌≡◌, ◌++◌, ◌<◌, OnOk, decimal};
ghost use Rattle.pb_page.specs.Amount.{decimals, grouped, shown};
ghost use Rattle.pb_page.specs.Inner.Digits.{grouped_digit};
ghost use Rattle.pb_page.specs.Markup.{written};

use crate::markup::form::Form;
use crate::markup::written::{write_byte, write_text};
use itoa::Buffer;
use pb_core::no_memory::NoMemory;

/// Writes an amount as people write it.
pub(crate) fn write_amount(page: &mut Vec<u8>, amount: u128, form: &Form) -> Result<(), NoMemory>
    ensures { OnOk result (page.new.items ≡ page.old.items ++ written (shown form.now amount)) }
{
    write_text(page, form.before)?;
    write_count(page, amount / 100, form.group)?;
    write_decimals(page, amount % 100, form)?;
    write_text(page, form.after)
}

/// Writes a number in groups of three digits.
pub(crate) fn write_count(page: &mut Vec<u8>, number: u128, group: &str) -> Result<(), NoMemory>
    ensures { OnOk result (page.new.items ≡ page.old.items ++ written (grouped group.now (decimal number))) }
{
    let mut digits = Buffer::new();
    write_grouped(page, digits.format(number), group)
}

/// Writes digits in groups of three.
fn write_grouped(page: &mut Vec<u8>, digits: &str, group: &str) -> Result<(), NoMemory>
    ensures { OnOk result (page.new.items ≡ page.old.items ++ written (grouped group.now digits.now)) }
{
    let digits = digits.as_bytes();
    for at in 0..digits.len() {
        write_digit(page, digits[at], digits.len() - at - 1, group)?;
    }
    Ok(())
}

/// Writes a digit, behind which so many more come before the decimals.
fn write_digit(page: &mut Vec<u8>, digit: u8, more: usize, group: &str) -> Result<(), NoMemory>
    ensures { OnOk result (page.new.items ≡ page.old.items ++ written (grouped_digit group.now digit more)) }
{
    write_byte(page, digit)?;
    if more > 0 && more % 3 == 0 {
        write_text(page, group)?;
    }
    Ok(())
}

/// Writes the decimals of an amount that is so many hundredths more than a whole one.
fn write_decimals(page: &mut Vec<u8>, hundredths: u128, form: &Form) -> Result<(), NoMemory>
    requires { hundredths < 100 }
    ensures { OnOk result (page.new.items ≡ page.old.items ++ written (decimals form.now hundredths)) }
{
    if form.is_whole && hundredths == 0 {
        return Ok(());
    }
    write_text(page, form.point)?;
    let mut digits = Buffer::new();
    if hundredths < 10 {
        write_byte(page, b'0')?;
    }
    write_text(page, digits.format(hundredths))
}
