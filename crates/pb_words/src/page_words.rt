//! What is said of a file with the words of a page that is refused: what is wrong, and what to do.

use crate::prelude::*;

/// A line of such a file, where its key is known.
#[derive(Clone, Copy)]
pub struct KeyLine<'a> {
    /// Its number, from 1.
    pub number: u32,
    pub key: &'static str,
    /// What stands behind its `=`; the empty text where the line could not be read again.
    pub value: &'a str,
    /// The names of the places that its sentence has for numbers.
    pub numbers: &'static [&'static str],
    /// The names of those that it has for nouns.
    pub nouns: &'static [&'static str],
}

/// What is wrong with such a line.
#[derive(Clone, Copy)]
pub enum KeyFault {
    /// A line before it has its key.
    Repeated,
    /// It has a character that could be taken for markup.
    Markup,
    /// Its key does not take its value.
    BadValue,
    /// Its sentence does not have a place that it names, or it has a brace that belongs to none.
    UnknownPlace,
    LoneBrace,
    /// It lacks the place of the number at this index, or has it more than once.
    MissingPlace(u8),
    RepeatedPlace(u8),
}

impl KeyLine<'_> {
    /// The place of the number at this index.
    fn place(&self, index: u8) -> PlaceholderValue<'_> {
        let name = self.numbers.get(usize::from(index)).copied().unwrap_or("");
        Own(name)
    }

    /// Puts the line and its key, what is wrong there, and what to do.
    pub fn put(&self, out: &mut WordsWriter, fault: KeyFault) {
        let (form, value) = match fault {
            KeyFault::Repeated => (
                ": an earlier line has the same key.\nDelete one of the two lines.\n",
                Own(""),
            ),
            KeyFault::Markup => (
                ": the sentence has {}, which is not allowed here.\nWrite the sentence without <, >, & and control characters.\n",
                shown(markup_in(self.value), unseen_in(self.value)),
            ),
            KeyFault::BadValue => (
                ": {} is not allowed.\nWrite {}.\n",
                shown(self.value, "this value"),
            ),
            KeyFault::UnknownPlace => (
                ": {} in braces is not allowed in this sentence.\n",
                shown(self.unknown_place(), "a name"),
            ),
            KeyFault::LoneBrace => (": a `{` or a `}` has no partner.\n", Own("")),
            KeyFault::MissingPlace(index) => (
                ": {{}} is missing.\nWrite it where the page should show this value.\n",
                self.place(index),
            ),
            KeyFault::RepeatedPlace(index) => (
                ": {{}} is there more than once.\nWrite it only once.\n",
                self.place(index),
            ),
        };
        let line = Number(u64::from(self.number));
        out.fill(": line {}, key {}", &[line, Own(self.key)]);
        out.fill(form, &[value, Own(values_of(self.key))]);
        if matches!(fault, KeyFault::UnknownPlace | KeyFault::LoneBrace) {
            self.put_places(out)
        }
    }

    /// The first name in braces that is not one of its places.
    fn unknown_place(&self) -> &str {
        for part in self.value.split('{') {
            if let Some((name, _)) = part.split_once('}') {
                if !self.numbers.contains(&name) && !self.nouns.contains(&name) {
                    return name;
                }
            }
        }
        ""
    }

    /// Puts which places its sentence has.
    fn put_places(&self, out: &mut WordsWriter) {
        let count = self.numbers.len().saturating_add(self.nouns.len());
        if count == 0 {
            return out.put("Write this sentence without braces.\n");
        }
        out.put("The sentence must have ");
        let mut left = count;
        for places in [self.numbers, self.nouns] {
            for place in places {
                let before = match left {
                    _ if left == count => "",
                    1 => " and ",
                    _ => ", ",
                };
                out.fill("{}{{}}", &[Own(before), Own(place)]);
                left = left.saturating_sub(1);
            }
        }
        out.put(", each of them once, and no other braces.\n")
    }
}

/// Puts that the line with this number is not text.
pub fn put_not_text(out: &mut WordsWriter, line: u32) {
    out.fill(
        ": line {} is not UTF-8.\nSave the file with the encoding UTF-8.\n",
        &[Number(u64::from(line))],
    )
}

/// Puts that the line with this number is not of the form.
pub fn put_bad_line(out: &mut WordsWriter, line: u32) {
    out.fill(
        ": line {} is not of the form `key = sentence`.\nWrite the key, `=` and the sentence; a line that begins with # is a comment.\n",
        &[Number(u64::from(line))],
    )
}

/// Puts that the line with this number has a key that is none; this is the key, if it could be read again.
pub fn put_unknown_key(out: &mut WordsWriter, line: u32, key: &str) {
    out.fill(
        ": line {}: {} is not a key.\nCompare it with the keys in words/en.words.\n",
        &[Number(u64::from(line)), shown(key, "this name")],
    )
}

/// Puts that no line has this key, and what to do.
pub fn put_missing_key(out: &mut WordsWriter, key: &'static str) {
    out.fill(": no line has the key `{}`.\n", &[Own(key)]);
    match values_of(key) {
        "" if key.ends_with(".few") => out.put(
            "The line `plural = polish` asks for it: nouns then have three forms, as words/pl.words shows. If the language has no such form, correct the line `plural`.\n",
        ),
        "" => out.put("Copy its line from words/en.words, and translate it.\n"),
        values => out.fill(
            "Add the line `{} = VALUE`. VALUE is {}.\n",
            &[Own(key), Own(values)],
        ),
    }
}

/// Puts that a line has this key, which a file with this plural does not use.
pub fn put_unused_key(out: &mut WordsWriter, key: &'static str, plural: &'static str) {
    out.fill(
        ": the file says `plural = {}`, so nothing uses the key {}.\nDelete its line, or correct the line `plural`.\n",
        &[Own(plural), Own(key)],
    )
}

/// A text of the line without the white space at its ends, or this where the line could not be read again.
fn shown<'t>(text: &'t str, otherwise: &'t str) -> PlaceholderValue<'t> {
    match text.trim() {
        "" => Own(otherwise),
        text => Quoted(text),
    }
}

/// Which markup a sentence has; the empty text where it has none.
fn markup_in(sentence: &str) -> &'static str {
    let found = ["<", ">", "&"]
        .iter()
        .find(|mark| sentence.contains(**mark));
    found.copied().unwrap_or("")
}

/// What a sentence has that could be taken for markup and is none of these; of a line that could not be read
/// again, all that it may be.
fn unseen_in(sentence: &str) -> &'static str {
    match sentence {
        "" => "<, >, & or a control character",
        _ => "a control character",
    }
}

/// Which values a key takes that takes only some; the empty text of a sentence's key.
fn values_of(key: &str) -> &'static str {
    match key {
        "lang" =>
            "the tag of the language, such as `de` or `pt-BR`, in letters, digits and hyphens",
        "dir" => "`ltr`, or `rtl` if the language runs from right to left",
        "plural" =>
            "`same`, `english`, `french` or `polish` (docs/formats.md says what each means)",
        "group" => "`none`, `comma`, `point`, `apostrophe` or `space`",
        "point" => "`point` or `comma`",
        _ => "",
    }
}
