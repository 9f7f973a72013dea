//! The limit on a ballot's length.

ghost use Rattle.std.specs.Prelude.{◌≡◌, ◌≤◌, ◌==◌, Some, None, length, nat_le, if◌then◌else◌};
ghost use Rattle.std.specs.List.{list_all, position_or_len};
ghost use Rattle.pb_core.specs.Election.{most_projects};
ghost use Rattle.pb_core.specs.MoneyText.{fraction, is_mark};
ghost use Rattle.pb_read.specs.Lengths.{max_length_of};

use crate::fault::ReadKind;
use pb_core::election::MOST_PROJECTS;
use pb_core::money::Money;
use pb_core::money_fault::MoneyFault;

/// The most projects that a ballot may approve, as the value of `max_length` says: digits, then perhaps
/// `.` or `,` and zeros. There is no limit where the text is empty, or the number is above 10,000. The
/// caller trims.
pub(crate) fn read_max_length(text: &str) -> Result<Option<u32>, ReadKind>
    ensures { result ≡ max_length_of text.now }
{
    if text.is_empty() {
        return Ok(None);
    }
    if !has_zero_decimals(text.as_bytes()) {
        return Err(ReadKind::BadLength);
    }
    match Money::read(text) {
        Ok(amount) => Ok(limit(amount.0 / 100)),
        Err(MoneyFault::MoneyTooLarge) => Ok(None),
        Err(MoneyFault::BadMoney) => Err(ReadKind::BadLength),
        Err(MoneyFault::MoneyTooFine) => Err(ReadKind::BadLength),
    }
}

/// A number of projects as a limit: none where no election has more projects.
fn limit(projects: u64) -> Option<u32>
    ensures { result ≡ (if nat_le projects most_projects then Some projects else None) }
{
    if projects <= MOST_PROJECTS as u64 {
        Some(projects as u32)
    } else {
        None
    }
}

/// Where the first point or comma stands; the text's length where there is none.
fn mark_place(text: &[u8]) -> usize
    ensures place { result ≡ position_or_len is_mark text.now }
    ensures within { result ≤ length text.now }
{
    text.iter()
        .take_while(|c| !(**c == b'.' || **c == b','))
        .count()
}

/// Whether each digit after the first point or comma is `0`.
fn has_zero_decimals(text: &[u8]) -> bool
    ensures { result ≡ list_all (λ c. c == 48) (fraction text.now) }
{
    let mark = mark_place(text);
    text.iter().skip(mark + 1).all(|digit| *digit == b'0')
}
