//! A field of a row, and its text.

ghost use Rattle.std.specs.Prelude.{◌≡◌, OnOk, string_bytes};
ghost use Rattle.pb_rows.specs.Tables.{field_text};
ghost use Rattle.pb_rows.specs.declared.field.Field.TheVariants.{Amount, Number};

use crate::exact::put_exact;
use itoa::Buffer;
use pb_core::money::{Money, put_amount};
use std::alloc::AllocError;

/// A field of a row.
#[derive(Clone, Copy)]
pub enum Field<'a> {
    /// Nothing.
    Empty,
    /// A text as it is.
    Text(&'a str),
    /// A number, in decimal.
    Number(u64),
    /// An amount in hundredths: whole units, a point and two decimals, as `12.30`.
    Amount(u128),
    /// An amount in hundredths, divided by so much (by 0 as by 1): as above where that is whole hundredths, else a
    /// reduced fraction of a unit, as `100/3`.
    Exact(u128, u64),
}

impl Field<'static> {
    /// The field of a number.
    pub fn number(number: u32) -> Field<'static>
        ensures { result ≡ Number number }
    {
        Field::Number(u64::from(number))
    }

    /// The field of an amount.
    pub fn amount(amount: Money) -> Field<'static>
        ensures { result ≡ Amount amount }
    {
        Field::Amount(u128::from(amount.0))
    }
}

/// Makes a text that of a field; what it held is gone.
pub(crate) fn set_text(text: &mut String, field: Field) -> Result<(), AllocError>
    ensures { OnOk result (string_bytes text.new ≡ field_text field.entry) }
{
    text.clear();
    match field {
        Field::Empty => Ok(()),
        Field::Text(it) => text.push_str(it),
        Field::Number(number) => {
            let mut digits = Buffer::new();
            text.push_str(digits.format(number))
        }
        Field::Amount(amount) => put_amount(text, amount),
        Field::Exact(amount, divisor) => put_exact(text, amount, divisor),
    }
}
