//! The values that fill the places of markup.

use crate::markup::form::Form;
use pb_core::money::Money;

/// A value that fills a place of a piece of markup.
#[derive(Clone, Copy)]
pub(crate) enum Value<'a> {
    /// A text from outside.
    Text(&'a str),
    /// What the words of the page say at a key.
    Said(u16),
    /// The form for a number of the noun whose forms begin at a key.
    Noun(u16, u64),
    /// A number, in decimal.
    Number(u64),
    /// A number below 2^32, in decimal.
    Small(u32),
    /// A number in groups of three digits, with this between them.
    Grouped(u64, &'a str),
    /// How wide an amount is, in ten thousandths of a whole.
    Width(u64, u64),
    /// An amount of money, as reports have it.
    Amount(Money),
    /// An amount of money, as people write it.
    Shown(Money, Form<'a>),
    /// An amount in hundredths, divided by so much, as reports have it.
    Exact(u128, u64),
    /// An amount in hundredths, which may be more than an amount of money, as people write it.
    Hundredths(u128, Form<'a>),
}
