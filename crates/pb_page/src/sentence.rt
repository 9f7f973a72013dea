//! A sentence of a file of words, as a page takes it.

use crate::table::SentenceEntry;
use crate::words_fault::{WordsFault, WordsLine};
use std::alloc::Global;

/// The most places that a sentence has.
const MOST_PLACES: usize = 32;

/// The sentence of a line with a byte in the place of each name in braces: 0 for the first place, 1 for the
/// second, and so on.
pub(crate) fn with_places(
    alloc: Global,
    text: &str,
    entry: &SentenceEntry,
    line: WordsLine,
) -> Result<String, WordsFault> {
    let made = placed(alloc, text, entry, line)?;
    match misplaced(made.as_str(), entry) {
        None => Ok(made),
        Some((place, 0)) => Err(WordsFault::MissingPlace(line, place)),
        Some((place, _)) => Err(WordsFault::RepeatedPlace(line, place)),
    }
}

/// The sentence of a line with a byte in the place of each name, whatever places it has.
fn placed(
    alloc: Global,
    text: &str,
    entry: &SentenceEntry,
    line: WordsLine,
) -> Result<String, WordsFault> {
    let mut made = String::new(alloc);
    let mut is_first = true;
    for part in text.split('{') {
        put_part(&mut made, entry, part, is_first, line)?;
        is_first = false;
    }
    Ok(made)
}

/// Puts a part of the line behind those before it. Each part but the first begins with the name of a place.
fn put_part(
    made: &mut String,
    entry: &SentenceEntry,
    part: &str,
    is_first: bool,
    line: WordsLine,
) -> Result<(), WordsFault> {
    let text = if is_first {
        part
    } else {
        put_place(made, entry, part, line)?
    };
    if text.contains('}') {
        return Err(WordsFault::LoneBrace(line));
    }
    made.push_str(text)?;
    Ok(())
}

/// Puts the byte of the place whose name a part begins with: the text behind the name.
fn put_place<'a>(
    made: &mut String,
    entry: &SentenceEntry,
    part: &'a str,
    line: WordsLine,
) -> Result<&'a str, WordsFault> {
    let (name, text) = part.split_once('}').ok_or(WordsFault::LoneBrace(line))?;
    made.push(place_named(entry, name).ok_or(WordsFault::UnknownPlace(line))?)?;
    Ok(text)
}

/// The byte of the place with this name.
fn place_named(entry: &SentenceEntry, name: &str) -> Option<char> {
    let place = match position_of(entry.numbers, name) {
        Some(place) => place,
        None => {
            let noun = position_of(entry.nouns, name)?;
            entry.numbers.len().saturating_add(noun)
        }
    };
    if place < MOST_PLACES {
        Some(char::from(place as u8))
    } else {
        None
    }
}

/// Which of these names it is, from 0.
fn position_of(names: &[&str], name: &str) -> Option<usize> {
    names.iter().position(|other| *other == name)
}

/// The first place of a number that is not there once, and how many times it is there.
fn misplaced(sentence: &str, entry: &SentenceEntry) -> Option<(u8, usize)> {
    let bytes = sentence.as_bytes();
    for place in 0..entry.numbers.len() {
        let times = bytes
            .iter()
            .filter(|byte| usize::from(**byte) == place)
            .count();
        if times != 1 {
            return Some((u8::try_from(place).unwrap_or(u8::MAX), times));
        }
    }
    None
}

/// Whether a text has no character that could be taken for markup, and no control character.
pub(crate) fn is_plain(text: &str) -> bool {
    text.as_bytes()
        .iter()
        .all(|byte| !matches!(*byte, b'<' | b'>' | b'&' | 0..=31 | 127))
}
