//! Names of projects that say that the project can't win.

use pb_seen::changed::{first_word, has_digit, has_part, is_one_of, last_word};

/// What the name of a project says that can't win, and what may stand behind that.
const WITHDRAWN: &str =
    "withdrawn|rejected|cancelled|canceled|disqualified|wycofany|wycofane|odrzucony|odrzucone|\
    zurückgezogen|abgelehnt|staženo|odstoupeno|zrušeno|retirado|retirada|rechazado|anulado|ritirato|ritirata|annullato|\
    retiré|retirée|annulé|annulée|ingetrokken|vervallen|peruttu|tilbagetrukket|återkallad|visszavonva";

const SAID_BY: &str = "by|on|in|from|since";

/// Signs in a name that is struck out.
const STRUCK_OUT: &str = "<s>|<del>|<strike>|~~|\u{336}";

/// Whether the name of a project says that it is withdrawn or the like: with such a word in capitals at its end, or at the
/// start of a part of it, or struck out.
pub fn says_withdrawn(name: &str) -> bool {
    for (place, piece) in name.split(|c: char| "()[]".contains(c)).enumerate() {
        for part in piece.split(|c: char| ",/\u{2013}\u{2014}".contains(c)) {
            let tail = part.rsplit_once(" - ").map_or("", |(_, tail)| tail);
            if begins_withdrawn(part, name, place > 0) || begins_withdrawn(tail, name, false) {
                return true;
            }
        }
    }
    is_loud(last_word(name), name) || is_struck_out(name)
}

/// Whether a name has a sign by which it is struck out: first whether it has a byte of one, which few have.
fn is_struck_out(name: &str) -> bool {
    let is_of_sign = |byte: &u8| matches!(*byte, b'<' | b'~' | 0xcc);
    name.as_bytes().iter().any(is_of_sign) && has_part(STRUCK_OUT, name)
}

/// Whether a part of a name begins with such a word, which is alone, in capitals, or has a sign or a number behind it, or `by` or
/// the like (outside brackets with a number).
fn begins_withdrawn(part: &str, name: &str, is_inside: bool) -> bool {
    let (first, rest) = first_word(part);
    let word = first.trim_matches(|c: char| "*:!-".contains(c));
    if !is_one_of(WITHDRAWN, word) {
        return false;
    }
    let next = first_word(rest).0;
    let is_said = is_one_of(SAID_BY, next) && (is_inside || has_digit(rest));
    let is_apart = word.len() < first.len() || matches!(next, "" | "-") || has_digit(next);
    is_apart || is_said || is_loud(word, name)
}

/// Whether a word says so in capitals, and not the whole name is written so.
fn is_loud(word: &str, name: &str) -> bool {
    let is_small = |c: char| c.is_lowercase();
    is_one_of(WITHDRAWN, word) && name.contains(is_small) && !word.contains(is_small)
}
