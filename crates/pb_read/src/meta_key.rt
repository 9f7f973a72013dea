//! The keys of META that the desk or the count uses.

ghost use Rattle.std.specs.Prelude.{◌≡◌};
ghost use Rattle.pb_read.specs.MetaKeys.{key_of, key_text};

use crate::row::is_word;
use pb_core::names::name_at;

/// The keys as a file writes them, in the order of `MetaKey`.
pub const NAMES: [&str; 3] = ["budget", "vote_type", "max_length"];

/// A key of META that the desk or the count uses; readers pass over all others. This is the one table of
/// these keys: whoever needs one of them, or its text, asks here.
#[derive(Clone, Copy, PartialEq, Eq)]
pub enum MetaKey {
    /// The budget.
    Budget,
    /// The kind of votes.
    VoteType,
    /// The most projects that a ballot may approve.
    MaxLength,
}

impl MetaKey {
    /// All of them, in the order of their declaration.
    pub const ALL: [MetaKey; 3] = [MetaKey::Budget, MetaKey::VoteType, MetaKey::MaxLength];

    /// The key as a file writes it.
    pub fn text(&self) -> &'static str
        ensures { result.now ≡ key_text self.now }
    {
        name_at(&NAMES, *self as usize)
    }

    /// The key that a field names, upper and lower case of ASCII aside.
    pub fn of(field: &str) -> Option<MetaKey>
        ensures { result ≡ key_of field.now }
    {
        MetaKey::ALL
            .iter()
            .copied()
            .find(|key| is_word(key.text(), field))
    }
}
