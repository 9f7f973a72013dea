//! Amounts as an exported file has them.

ghost use Rattle.std.specs.Prelude.{◌≡◌, IfOk, string_bytes};
ghost use Rattle.pb_export.specs.FileRows.{amount_text};

use itoa::Buffer;
use pb_core::money::Money;
use pb_core::no_memory::NoMemory;
use std::alloc::Global;

/// The text of an amount: a whole one is written without decimals.
pub(crate) fn amount_text(alloc: Global, amount: Money) -> Result<String, NoMemory>
    ensures { IfOk result (λ text. string_bytes text ≡ amount_text amount) }
{
    if amount.0 % 100 == 0 {
        let mut digits = Buffer::new();
        Ok(String::from_str(alloc, digits.format(amount.0 / 100))?)
    } else {
        Ok(amount.text(alloc)?)
    }
}
