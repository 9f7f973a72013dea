//! What is said where the file with the words of a page is refused.

use pb_commands::{WordsPlace, WordsRefusal};
use pb_page::{Plural, WordsFault, WordsKey, WordsLine, entry_at};
use pb_witness::text::Text;
use pb_words::PlaceholderValue::Name;
use pb_words::page_words::{
    KeyFault, KeyLine, put_bad_line, put_missing_key, put_not_text, put_unknown_key, put_unused_key,
};
use pb_words::{NO_MEMORY, WordsWriter, unread_words};
use std::alloc::{AllocError, Global};
use std::rt::Files;

/// What the line of a fault says: its name, and its line or its key.
pub(crate) fn refusal_of(fault: &WordsFault) -> WordsRefusal {
    WordsRefusal {
        name: fault.name(),
        place: place_of(fault),
    }
}

/// The number of the line of a fault, or its key where no line has one.
fn place_of(fault: &WordsFault) -> WordsPlace {
    match *fault {
        WordsFault::NotText(number)
        | WordsFault::BadLine(number)
        | WordsFault::UnknownKey(number) => WordsPlace::Line(number),
        WordsFault::RepeatedKey(line)
        | WordsFault::Markup(line)
        | WordsFault::UnknownPlace(line)
        | WordsFault::LoneBrace(line)
        | WordsFault::MissingPlace(line, _)
        | WordsFault::RepeatedPlace(line, _)
        | WordsFault::BadValue(line) => WordsPlace::Line(line.number),
        WordsFault::MissingKey(key) | WordsFault::UnusedKey(key, _) => WordsPlace::Key(key.text()),
        WordsFault::ReadFailed | WordsFault::NoMemory => WordsPlace::Nowhere,
    }
}

/// Words for a fault in the file with this path. Its line is read once more, for what it says.
pub(crate) fn words_file_words<R: Files>(
    rt: &R,
    alloc: Global,
    path: &str,
    fault: &WordsFault,
) -> Result<String, AllocError> {
    if matches!(fault, WordsFault::ReadFailed) {
        return unread_words(rt, alloc, path);
    }
    let number = match place_of(fault) {
        WordsPlace::Line(number) => number,
        WordsPlace::Key(_) | WordsPlace::Nowhere => 0,
    };
    let row = Text::new(rt, alloc, Some(path)).line_at(number)?;
    let mut out = WordsWriter::new(alloc);
    put_fault(&mut out, path, fault, row.as_str());
    drop(row);
    out.finish()
}

/// Puts what is wrong in the file with this path, and what to do. The row of the fault is this, if it could
/// be read again.
fn put_fault(out: &mut WordsWriter, path: &str, fault: &WordsFault, row: &str) {
    let (key, value) = row.split_once('=').unwrap_or(("", ""));
    out.fill("{}", &[Name(Some(path))]);
    match *fault {
        WordsFault::NotText(line) => put_not_text(out, line),
        WordsFault::BadLine(line) => put_bad_line(out, line),
        WordsFault::UnknownKey(line) => put_unknown_key(out, line, key),
        WordsFault::RepeatedKey(line) => key_line(line, value).put(out, KeyFault::Repeated),
        WordsFault::Markup(line) => key_line(line, value).put(out, KeyFault::Markup),
        WordsFault::BadValue(line) => key_line(line, value).put(out, KeyFault::BadValue),
        WordsFault::UnknownPlace(line) => key_line(line, value).put(out, KeyFault::UnknownPlace),
        WordsFault::LoneBrace(line) => key_line(line, value).put(out, KeyFault::LoneBrace),
        WordsFault::MissingPlace(line, place) => {
            key_line(line, value).put(out, KeyFault::MissingPlace(place))
        }
        WordsFault::RepeatedPlace(line, place) => {
            key_line(line, value).put(out, KeyFault::RepeatedPlace(place))
        }
        WordsFault::MissingKey(key) => put_missing_key(out, key.text()),
        WordsFault::UnusedKey(key, plural) => put_unused_key(out, key.text(), plural_text(plural)),
        WordsFault::ReadFailed | WordsFault::NoMemory => out.put(NO_MEMORY),
    }
}

/// A line with this value, as words speak of it.
fn key_line<'a>(line: WordsLine, value: &'a str) -> KeyLine<'a> {
    let entry = match line.key {
        WordsKey::Sentence(index) => entry_at(usize::from(index)),
        WordsKey::Plural | WordsKey::Group | WordsKey::Point => None,
    };
    let (numbers, nouns): (&'static [&'static str], &'static [&'static str]) = match entry {
        Some(entry) => (entry.numbers, entry.nouns),
        None => (&[], &[]),
    };
    KeyLine {
        number: line.number,
        key: line.key.text(),
        value,
        numbers,
        nouns,
    }
}

/// The name of a rule for the forms of nouns, as a file has it.
fn plural_text(plural: Plural) -> &'static str {
    match plural {
        Plural::Same => "same",
        Plural::English => "english",
        Plural::French => "french",
        Plural::Polish => "polish",
    }
}
