//! What a value says as an amount.

use pb_core::money::Money;

/// The whole number that a value names, perhaps with zeros as decimals.
pub fn whole_number(value: &str) -> Option<u64> {
    let Money(hundredths) = Money::read(value).ok()?;
    (hundredths % 100 == 0).then_some(hundredths / 100)
}

/// Whether exactly three digits stand behind an amount's mark, and at most three before it.
pub fn has_thousands_mark(amount: &str) -> bool {
    behind_mark(amount) == 4 && amount.len() <= 7
}

/// Whether one or two digits stand behind an amount's mark.
pub fn has_decimals(amount: &str) -> bool {
    matches!(behind_mark(amount), 2 | 3)
}

/// One more than how many characters stand behind an amount's mark; 0 if it has none.
fn behind_mark(amount: &str) -> usize {
    let last = amount.rsplit_once(|c: char| c == '.' || c == ',');
    last.map_or(0, |(_, behind)| behind.len().saturating_add(1))
}

/// Whether an id has the number behind that of another one, or the letter.
pub fn comes_next(id: &str, before: &str) -> bool {
    let ((front, number), (other_front, other)) = (order_of(id), order_of(before));
    front == other_front && number == other.saturating_add(1)
}

/// What is before the number at the end of an id, or its last letter, and this number, or the letter's.
pub fn order_of(id: &str) -> (&str, u64) {
    let front = id.trim_end_matches(|c: char| c.is_ascii_digit());
    match id.strip_prefix(front).and_then(whole_number) {
        Some(number) => (front, number),
        None => {
            let last = id.chars().last().unwrap_or(' ');
            (id.trim_end_matches(last), u64::from(u32::from(last)))
        }
    }
}
