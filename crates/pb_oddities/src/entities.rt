//! Letters of a web page, such as `&uuml;`, whose `;` cut a field.

use crate::prelude::*;
use pb_seen::changed::{is_digits, is_one_of};
use pb_seen::fields::has_byte;

/// The names of such letters and signs, and what stands behind one letter in the others.
const NAMES: &str =
    "amp|lt|gt|quot|apos|nbsp|ndash|mdash|euro|copy|laquo|raquo|bdquo|ldquo|rdquo|rsquo|thorn|eth";

const ENDS: &str = "uml|acute|grave|circ|tilde|cedil|caron|slash|ring|strok|ogon|zlig|elig";

/// Takes a row of PROJECTS or VOTES below so many column names, which begin here. It is odd so if a field other than its last
/// ends so; of one with more fields there is another word.
pub fn take_entity(row: &Row<'_>, (names, header): (usize, Mark), found: &mut Oddities) {
    if row.record.len() > names || !has_byte(row.record.as_slice(), b'&') {
        return;
    }
    let last = row.record.len().saturating_sub(1);
    if let Some(place) = (0..last).find(|place| ends_in_entity(row.at(*place))) {
        let odd = row.odd(Oddity::CutName).in_form(2);
        found.take(odd.at(place).named_in(header));
    }
}

/// Whether a text ends in the name of a letter or a sign, without its `;`.
fn ends_in_entity(text: &str) -> bool {
    let Some((_, name)) = text.rsplit_once('&') else {
        return false;
    };
    let is_number = name.strip_prefix("#").is_some_and(is_digits);
    let end = name.get(1..).unwrap_or("");
    is_number || is_one_of(NAMES, name) || is_one_of(ENDS, end)
}
