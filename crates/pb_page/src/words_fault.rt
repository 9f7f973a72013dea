//! Why a file of words is refused.

ghost use Rattle.std.specs.Prelude.{◌≡◌};
ghost use Rattle.pb_core.specs.Numbered.{numbered};
ghost use Rattle.pb_page.specs.contracts.words_fault.WordsFault.{the_type};

use crate::markup::Plural;
use crate::table::entry_at;
use pb_core::names::name_at;
use pb_core::no_memory::NoMemory;
use std::alloc::{AllocError, AllocFailed};

/// The names of `WordsFault`, in the order of its variants. Two have that of the one before them.
pub const NAMES: [&str; 14] = [
    "NotText",
    "BadLine",
    "UnknownKey",
    "RepeatedKey",
    "Markup",
    "UnknownPlace",
    "UnknownPlace",
    "MissingPlace",
    "MissingPlace",
    "BadValue",
    "MissingKey",
    "UnusedKey",
    "ReadFailed",
    "NoMemory",
];

/// A key of a file of words.
#[derive(Clone, Copy)]
pub enum WordsKey {
    Plural,
    Group,
    Point,
    /// That of the sentence at this index of the table.
    Sentence(u16),
}

impl WordsKey {
    /// The key, as a file has it.
    pub fn text(self) -> &'static str {
        match self {
            WordsKey::Plural => "plural",
            WordsKey::Group => "group",
            WordsKey::Point => "point",
            WordsKey::Sentence(index) => match entry_at(usize::from(index)) {
                Some(entry) => entry.key,
                None => "",
            },
        }
    }

    /// The line of this number, which has this key.
    pub(crate) fn on(self, number: u32) -> WordsLine {
        WordsLine { number, key: self }
    }
}

/// A line of a file of words, where its key is known.
#[derive(Clone, Copy)]
pub struct WordsLine {
    /// Its number, from 1.
    pub number: u32,
    pub key: WordsKey,
}

/// Why a file of words is refused. Lines have their numbers from 1.
#[derive(Clone, Copy)]
pub enum WordsFault {
    /// This line is not UTF-8.
    NotText(u32),
    /// This line has no `=`, or nothing before or behind it.
    BadLine(u32),
    /// No sentence has the key of this line.
    UnknownKey(u32),
    /// A line before this one has its key.
    RepeatedKey(WordsLine),
    /// This line has a character that could be taken for markup, or a control character.
    Markup(WordsLine),
    /// This line names a place that its sentence does not have.
    UnknownPlace(WordsLine),
    /// This line has a brace that belongs to no place.
    LoneBrace(WordsLine),
    /// This line lacks the place of the number at this index of the sentence's row in the table.
    MissingPlace(WordsLine, u8),
    /// This line has the place of that number more than once.
    RepeatedPlace(WordsLine, u8),
    /// The value of this line is not one that its key takes.
    BadValue(WordsLine),
    /// No line has this key.
    MissingKey(WordsKey),
    /// A line has this key, but a file with this plural has no use for it.
    UnusedKey(WordsKey, Plural),
    /// The file could not be read.
    ReadFailed,
    /// Memory was refused.
    NoMemory,
}

impl WordsFault {
    /// The fault's number, from 1.
    fn number(&self) -> u32
        ensures { result ≡ (numbered the_type NAMES self.now).0 }
    {
        match self {
            WordsFault::NotText(_) => 1,
            WordsFault::BadLine(_) => 2,
            WordsFault::UnknownKey(_) => 3,
            WordsFault::RepeatedKey(_) => 4,
            WordsFault::Markup(_) => 5,
            WordsFault::UnknownPlace(_) => 6,
            WordsFault::LoneBrace(_) => 7,
            WordsFault::MissingPlace(..) => 8,
            WordsFault::RepeatedPlace(..) => 9,
            WordsFault::BadValue(_) => 10,
            WordsFault::MissingKey(_) => 11,
            WordsFault::UnusedKey(..) => 12,
            WordsFault::ReadFailed => 13,
            WordsFault::NoMemory => 14,
        }
    }

    /// The fault's name, as its line has it.
    pub fn name(&self) -> &'static str
        ensures { result.now ≡ (numbered the_type NAMES self.now).1 }
    {
        name_at(&NAMES, self.number() as usize - 1)
    }
}

impl From<NoMemory> for WordsFault {
    fn from(_refused: NoMemory) -> WordsFault
        ensures { result ≡ WordsFault.NoMemory }
    {
        WordsFault::NoMemory
    }
}

impl From<AllocError> for WordsFault {
    fn from(_refused: AllocError) -> WordsFault
        ensures { result ≡ WordsFault.NoMemory }
    {
        WordsFault::NoMemory
    }
}

impl<T: Drop> From<AllocFailed<T>> for WordsFault {
    fn from(_refused: AllocFailed<T>) -> WordsFault
        ensures { result ≡ WordsFault.NoMemory }
    {
        WordsFault::NoMemory
    }
}
