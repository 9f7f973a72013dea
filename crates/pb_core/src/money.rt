//! Amounts of money, in hundredths, and the texts that name them.

ghost use Rattle.std.specs.Prelude.{◌≡◌, ◌==◌, ◌&&◌, ◌||◌, ◌*◌, ◌<◌, ◌++◌, ℕ, true, codes, drop, min, take};
ghost use Rattle.std.specs.Prelude.{string_bytes, IfOk, OnOk};
ghost use Rattle.std.specs.Char.{is_ascii_digit};
ghost use Rattle.std.specs.List.{list_all, position_or_len};
ghost use Rattle.std.specs.Str.Parse.{digits_value};
ghost use Rattle.pb_core.specs.MoneyText.{is_number, is_mark, whole_part, fraction, money_text};
ghost use Rattle.pb_core.specs.Money.{largest_money, money_of};

use crate::money_fault::MoneyFault;
use crate::no_memory::NoMemory;
use itoa::Buffer;
use std::alloc::{AllocError, Allocator};
use std::marker::Model;

/// An amount of money, in hundredths.
#[derive(Clone, Copy, Debug, PartialEq, Eq, PartialOrd, Ord)]
pub struct Money(pub u64);

impl Model for Money {
    ghost Value = { ℕ };

    ghost view = { λ m. m.0 };

    ghost inverse = { λ n. record { 0 = n } };
}

/// What larger numbers are read as. It is above every amount, and ten times as much fits a u64.
const CAP: u64 = 10 * Money::LARGEST.0;

impl Money {
    /// The largest amount that is read, in hundredths: ten million million units.
    pub const LARGEST: Money = Money(1_000_000_000_000_000);

    /// The amount that a text names: digits, then perhaps `.` or `,` and further digits, of which those
    /// after the second are zeros. The caller trims; a comma is never a mark of thousands.
    pub fn read(text: &str) -> Result<Money, MoneyFault>
        ensures { result ≡ money_of text.now }
    {
        let text = text.as_bytes();
        let (whole, decimals) = parts(text);
        if !is_money(text, whole, decimals) {
            return Err(MoneyFault::BadMoney);
        }
        if !has_two_decimals(decimals) {
            return Err(MoneyFault::MoneyTooFine);
        }
        let hundredths = 100 * number(whole) + hundreds(decimals);
        if hundredths > Money::LARGEST.0 {
            return Err(MoneyFault::MoneyTooLarge);
        }
        Ok(Money(hundredths))
    }

    /// The amount as text: whole units, a point and two decimals, as `12.30`.
    pub fn text<A: Allocator>(self, alloc: A) -> Result<String<A>, NoMemory>
        ensures { IfOk result (λ text. string_bytes text ≡ money_text self) }
    {
        let mut text = String::new(alloc);
        put_amount(&mut text, u128::from(self.0))?;
        Ok(text)
    }
}

/// Puts an amount in hundredths after a text: whole units, a point and two decimals, as `12.30`.
pub fn put_amount<A: Allocator>(text: &mut String<A>, amount: u128) -> Result<(), AllocError>
    ensures { OnOk result (string_bytes text.new ≡ string_bytes text.old ++ money_text amount) }
{
    let mut digits = Buffer::new();
    text.push_str(digits.format(amount / 100))?;
    text.push('.')?;
    text.push(char::from((amount / 10 % 10) as u8 + b'0'))?;
    text.push(char::from((amount % 10) as u8 + b'0'))
}

fn is_mark(c: u8) -> bool
    ensures { result ≡ is_mark c }
{
    c == b'.' || c == b','
}

/// Where the first point or comma stands; the text's length where there is none.
fn mark_place(text: &[u8]) -> usize
    ensures { result ≡ position_or_len is_mark text.now }
{
    text.iter().take_while(|c| !is_mark(**c)).count()
}

/// What stands before the first point or comma, and after it; where there is none, the whole text and
/// nothing.
fn parts(text: &[u8]) -> (&[u8], &[u8])
    ensures whole { result.0.now ≡ whole_part text.now }
    ensures decimals { result.1.now ≡ fraction text.now }
{
    let mark = mark_place(text);
    if mark < text.len() {
        (&text[..mark], &text[mark + 1..])
    } else {
        (text, &[])
    }
}

/// Whether each digit after the second is `0`.
fn has_two_decimals(decimals: &[u8]) -> bool
    ensures { result ≡ list_all (λ c. c == 48) (drop 2 decimals.now) }
{
    decimals.iter().skip(2).all(|digit| *digit == b'0')
}

fn are_digits(text: &[u8]) -> bool
    ensures { result ≡ list_all is_ascii_digit text.now }
{
    text.iter().all(|c| c.is_ascii_digit())
}

/// Whether there is a digit, and nothing but digits.
fn is_number(text: &[u8]) -> bool
    ensures { result ≡ is_number text.now }
{
    !text.is_empty() && are_digits(text)
}

fn is_money(text: &[u8], whole: &[u8], decimals: &[u8]) -> bool
    ensures { result ≡ (is_number text.now || is_number whole.now && is_number decimals.now) }
{
    is_number(text) || is_number(whole) && is_number(decimals)
}

/// The number that digits name, or `CAP` where that is less.
fn number(digits: &[u8]) -> u64
    requires { list_all is_ascii_digit digits.now ≡ true }
    ensures { result ≡ min (digits_value 10 digits.now) (10 * largest_money) }
{
    let mut number = 0;
    for digit in digits {
        number = (10 * number + u64::from(*digit - b'0')).min(CAP);
    }
    number
}

/// The first two decimals as a number below 100; missing ones are zeros.
fn hundreds(decimals: &[u8]) -> u64
    requires { list_all is_ascii_digit decimals.now ≡ true }
    ensures value { result ≡ digits_value 10 (take 2 (decimals.now ++ codes "00")) }
    ensures below { result < 100 }
{
    match decimals {
        [] => 0,
        [tenths] => 10 * u64::from(*tenths - b'0'),
        [tenths, hundredths, ..] => 10 * u64::from(*tenths - b'0') + u64::from(*hundredths - b'0'),
    }
}
