//! Projects whose ids begin with that of another one: other versions of it, and parts of a sum.

use crate::prelude::*;
use pb_seen::changed::{is_one_of, last_word};

/// Words for another version of a project.
const VERSIONS: &str =
    "rev|revised|revision|new|neu|nowy|corrected|correction|updated|amended|final|old|copy|v2|v3";

/// How many projects behind one may be its parts.
const MOST: usize = 100;

/// Takes the project at this place, whose row is this one, if its id is another one's with a word for a version behind
/// it, or if it costs what the next ones cost together whose ids begin with its own.
pub fn take_begun(
    odd: Odd,
    place: usize,
    election: &Election,
    projects: &Firsts,
    found: &mut Oddities,
) {
    let Some((project, behind)) = election
        .projects()
        .get(place..)
        .and_then(|rest| rest.split_first())
    else {
        return;
    };
    if let Some(before) = version_of(project.id(), projects) {
        let odd = odd.as_a(Oddity::RepeatedKey).in_form(10);
        if !found.tells_of(odd) {
            let before = Some(before);
            found.take(Odd { before, ..odd }.at(odd.id_place));
        }
    }
    let (mut sum, mut count) = (0u64, 0u64);
    for part in behind.iter().take(MOST) {
        if !is_part(part.id(), project.id()) {
            break;
        }
        sum = sum.saturating_add(part.cost().0);
        count = count.saturating_add(1);
    }
    let odd = odd.as_a(Oddity::FooterRow).in_form(11).by(count);
    if count > 1 && sum == project.cost().0 && !found.tells_of(odd) {
        found.take(odd);
    }
}

/// Where the project stands whose id this one is but for a word for a version, and a sign before that.
fn version_of(id: &str, projects: &Firsts) -> Option<Mark> {
    let is_sign = |c: char| !c.is_alphanumeric();
    let word = last_word(id);
    let begin = id.trim_end_matches(is_sign).strip_suffix(word)?;
    let first = begin.trim_end_matches(is_sign);
    if !is_one_of(VERSIONS, word) || first.len() == begin.len() {
        return None;
    }
    projects.mark(first)
}

/// Whether an id is this one with more behind it, and not a longer number.
fn is_part(id: &str, whole: &str) -> bool {
    let is_digit = |c: char| c.is_ascii_digit();
    let rest = id.strip_prefix(whole).unwrap_or("");
    !rest.is_empty() && !(whole.ends_with(is_digit) && rest.starts_with(is_digit))
}
