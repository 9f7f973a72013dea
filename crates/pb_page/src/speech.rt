//! A language, as a file of words has it.

ghost use Rattle.std.specs.Prelude.{◌≡◌, unwrap_or};

use crate::keys;
use crate::markup::Plural;
use crate::sentence::{is_plain, with_places};
use crate::table::{SentenceEntry, entries, entry_at, entry_of};
use crate::words_fault::{WordsFault, WordsKey, WordsLine};
use std::alloc::Global;
use std::{mem, str};

/// What stands between the groups of three digits of an amount, by its name in a file.
const GROUPS: &[(&str, &str)] = &[
    ("none", ""),
    ("comma", ","),
    ("point", "."),
    ("apostrophe", "’"),
    ("space", "\u{202f}"),
];

/// What stands before the decimals.
const POINTS: &[(&str, &str)] = &[("point", "."), ("comma", ",")];

/// The rules for the forms of nouns.
const PLURALS: &[(&str, Plural)] = &[
    ("same", Plural::Same),
    ("english", Plural::English),
    ("french", Plural::French),
    ("polish", Plural::Polish),
];

/// A language: its sentences, and how it writes numbers.
#[derive(Drop)]
pub struct Speech {
    /// By their keys' numbers; one that is not there is empty.
    sentences: Vec<String>,
    plural: Option<Plural>,
    group: Option<&'static str>,
    point: Option<&'static str>,
}

impl Speech {
    /// English, the program's own language.
    pub fn english(alloc: Global) -> Result<Speech, WordsFault> {
        let mut speech = Speech::empty(alloc)?;
        for index in 0..entries() {
            if let Some(entry) = entry_at(index) {
                let line = key_at(index).on(0);
                let sentence = with_places(alloc, entry.english, &entry, line)?;
                speech.keep(index, sentence);
            }
        }
        speech.plural = Some(Plural::English);
        speech.group = Some(",");
        speech.point = Some(".");
        Ok(speech)
    }

    /// The language of a file of words. Its first fault decides: those of its lines in their order, and then
    /// the keys that are not there, and those that should not be.
    pub fn read(alloc: Global, text: &[u8]) -> Result<Speech, WordsFault> {
        let mut speech = Speech::empty(alloc)?;
        let mut line: u32 = 0;
        for bytes in text.split(|byte| *byte == b'\n') {
            line = line.saturating_add(1);
            match str::from_utf8(bytes) {
                Ok(row) => speech.take(alloc, row, line)?,
                Err(_) => return Err(WordsFault::NotText(line)),
            }
        }
        speech.judge()?;
        Ok(speech)
    }

    /// A language without sentences.
    fn empty(alloc: Global) -> Result<Speech, WordsFault> {
        let mut sentences = Vec::new(alloc);
        for _ in 0..entries() {
            sentences.push(String::new(alloc))?;
        }
        Ok(Speech {
            sentences,
            plural: None,
            group: None,
            point: None,
        })
    }

    /// Takes a line.
    fn take(&mut self, alloc: Global, row: &str, line: u32) -> Result<(), WordsFault> {
        let row = row.trim_start_matches('\u{feff}').trim();
        if row.is_empty() || row.starts_with('#') {
            return Ok(());
        }
        let (key, value) = row.split_once('=').ok_or(WordsFault::BadLine(line))?;
        let (key, value) = (key.trim(), value.trim());
        if key.is_empty() || value.is_empty() {
            return Err(WordsFault::BadLine(line));
        }
        match key {
            "plural" => set(&mut self.plural, PLURALS, value, WordsKey::Plural.on(line)),
            "group" => set(&mut self.group, GROUPS, value, WordsKey::Group.on(line)),
            "point" => set(&mut self.point, POINTS, value, WordsKey::Point.on(line)),
            _ => self.take_sentence(alloc, key, value, line),
        }
    }

    /// Takes the sentence of a line.
    fn take_sentence(
        &mut self,
        alloc: Global,
        key: &str,
        text: &str,
        line: u32,
    ) -> Result<(), WordsFault> {
        let (index, entry) = entry_of(key).ok_or(WordsFault::UnknownKey(line))?;
        let line = key_at(index).on(line);
        if self.sentence(index) != "" {
            return Err(WordsFault::RepeatedKey(line));
        }
        if !is_plain(text) {
            return Err(WordsFault::Markup(line));
        }
        if !is_value(index, text) {
            return Err(WordsFault::BadValue(line));
        }
        let sentence = with_places(alloc, text, &entry, line)?;
        self.keep(index, sentence);
        Ok(())
    }

    /// The sentence at this index; where there is none, nothing.
    fn sentence(&self, index: usize) -> &str {
        match self.sentences.get(index) {
            Some(sentence) => sentence.as_str(),
            None => "",
        }
    }

    /// Keeps the sentence at this index.
    fn keep(&mut self, index: usize, sentence: String) {
        match self.sentences.get_mut(index) {
            Some(slot) => drop(mem::replace(slot, sentence)),
            None => drop(sentence),
        }
    }

    /// Whether all is there, and nothing that is of no use.
    fn judge(&self) -> Result<(), WordsFault> {
        let plural = self.plural.ok_or(WordsFault::MissingKey(WordsKey::Plural))?;
        if self.group.is_none() {
            return Err(WordsFault::MissingKey(WordsKey::Group));
        }
        if self.point.is_none() {
            return Err(WordsFault::MissingKey(WordsKey::Point));
        }
        for index in 0..entries() {
            if let Some(entry) = entry_at(index) {
                self.judge_sentence(index, &entry, plural)?;
            }
        }
        Ok(())
    }

    /// Whether the sentence at this index is there if it is needed, and not there if it is of no use.
    fn judge_sentence(
        &self,
        index: usize,
        entry: &SentenceEntry,
        plural: Plural,
    ) -> Result<(), WordsFault> {
        let is_there = self.sentence(index) != "";
        let is_needed = is_needed(entry.key, plural);
        if is_needed && !is_there {
            return Err(WordsFault::MissingKey(key_at(index)));
        }
        if is_there && !is_needed {
            return Err(WordsFault::UnusedKey(key_at(index), plural));
        }
        Ok(())
    }

    /// The sentences, by their keys' numbers.
    pub fn sentences(&self, alloc: Global) -> Result<Vec<&str>, WordsFault> {
        let mut all = Vec::new(alloc);
        for sentence in &self.sentences {
            all.push(sentence.as_str())?;
        }
        Ok(all)
    }

    /// The title of a page that is not given one.
    pub fn title(&self) -> &str {
        self.sentence(usize::from(keys::TITLE))
    }

    /// The rule for the forms of its nouns.
    pub fn plural(&self) -> Plural
        ensures { result ≡ unwrap_or self.now.plural Plural.English }
    {
        self.plural.unwrap_or(Plural::English)
    }

    /// What stands between the groups of three digits.
    pub fn group(&self) -> &'static str {
        self.group.unwrap_or("")
    }

    /// What stands before decimals.
    pub fn point(&self) -> &'static str {
        self.point.unwrap_or(".")
    }

    /// What stands before an amount of this currency, and what behind it.
    pub fn around(&self, alloc: Global, currency: &str) -> Result<(String, String), WordsFault> {
        let (before, after) = self
            .sentence(usize::from(keys::AMOUNT))
            .split_once('\0')
            .unwrap_or(("", ""));
        let before = with_currency(alloc, before, currency)?;
        match with_currency(alloc, after, currency) {
            Ok(after) => Ok((before, after)),
            Err(fault) => {
                drop(before);
                Err(fault)
            }
        }
    }
}

/// A text with the currency in its place.
fn with_currency(alloc: Global, text: &str, currency: &str) -> Result<String, WordsFault> {
    let mut made = String::new(alloc);
    for character in text.chars() {
        if character == '\u{1}' {
            made.push_str(currency)?;
        } else {
            made.push(character)?;
        }
    }
    Ok(made)
}

/// Sets what is given by its name.
fn set<T: Copy>(
    kept: &mut Option<T>,
    known: &[(&str, T)],
    name: &str,
    line: WordsLine,
) -> Result<(), WordsFault> {
    if kept.is_some() {
        return Err(WordsFault::RepeatedKey(line));
    }
    for (other, value) in known {
        if *other == name {
            *kept = Some(*value);
            return Ok(());
        }
    }
    Err(WordsFault::BadValue(line))
}

/// Whether this can be the value of the key at this index: a language is letters, digits and hyphens, a
/// direction one of two.
fn is_value(index: usize, text: &str) -> bool {
    if index == usize::from(keys::LANG) {
        text.as_bytes()
            .iter()
            .all(|byte| byte.is_ascii_alphanumeric() || *byte == b'-')
    } else if index == usize::from(keys::DIR) {
        text == "ltr" || text == "rtl"
    } else {
        true
    }
}

/// Whether a language with this rule has a sentence with this key.
fn is_needed(key: &str, plural: Plural) -> bool {
    let has_one = !matches!(plural, Plural::Same);
    let has_few = matches!(plural, Plural::Polish);
    (has_one || !key.ends_with(".one")) && (has_few || !key.ends_with(".few"))
}

/// The key of the sentence at this index.
fn key_at(index: usize) -> WordsKey {
    WordsKey::Sentence(u16::try_from(index).unwrap_or(u16::MAX))
}
