//! Words for totals.

use pb_seen::changed::{has_one_of, is_digits};

/// What a row of totals is called.
const TOTALS: &str =
    "total|totals|sum|suma|summe|razem|ogolem|ogółem|gesamt|insgesamt|celkem|spolu|totale|totaal|somme|\
    subtotal|summa|ukupno|összesen|yhteensä|итого|всего";

/// Whether a text has a word for a total.
pub fn has_total(text: &str) -> bool {
    !is_digits(text) && has_one_of(TOTALS, text)
}
