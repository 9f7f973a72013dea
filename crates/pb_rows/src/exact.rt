//! The text of an amount that may be no whole number of hundredths.

ghost use Rattle.std.specs.Prelude.{◌≡◌, ◌*◌, ◌<◌, ◌++◌, ℕ, codes, decimal, string_bytes, OnOk};
ghost use Rattle.pb_rows.specs.ExactText.{exact_text};
ghost use Rattle.std.specs.Int.{◌∣◌};

use itoa::Buffer;
use pb_core::money::put_amount;
use std::alloc::AllocError;

/// Puts an amount in hundredths, divided by so much (by 0 as by 1), after a text: as an amount where that is whole
/// hundredths, else as a reduced fraction of a unit, as `100/3`.
pub fn put_exact(text: &mut String, amount: u128, divisor: u64) -> Result<(), AllocError>
    ensures { OnOk result (string_bytes text.new ≡ string_bytes text.old ++ exact_text amount divisor) }
{
    let divisor = u128::from(divisor.max(1));
    if amount % divisor == 0 {
        return put_amount(text, amount / divisor);
    }
    let unit = 100 * divisor;
    let common = common_divisor(amount, unit);
    put_fraction(text, amount / common, unit / common)
}

/// Puts a fraction after a text, as `100/3`.
fn put_fraction(text: &mut String, above: u128, below: u128) -> Result<(), AllocError>
    ensures { OnOk result (string_bytes text.new
        ≡ string_bytes text.old ++ (decimal above ++ (codes "/" ++ decimal below))) }
{
    let mut digits = Buffer::new();
    text.push_str(digits.format(above))?;
    text.push('/')?;
    text.push_str(digits.format(below))
}

/// The greatest common divisor, by Euclid's steps.
fn common_divisor(number: u128, other: u128) -> u128
    requires { 0 < other }
    ensures some { 0 < result }
    ensures divides { result ∣ number }
    ensures divides_other { result ∣ other }
    ensures greatest { (d k : ℕ) → d ∣ number * k → d ∣ other * k → d ∣ result * k }
{
    let mut divisor = other;
    let mut rest = number;
    while rest != 0 {
        (divisor, rest) = (rest, divisor % rest);
    }
    divisor
}
