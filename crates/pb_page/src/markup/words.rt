//! What a page says, in a language.

ghost use Rattle.std.specs.Prelude.{◌≡◌};
ghost use Rattle.pb_page.specs.Words.{sentence};
ghost use Rattle.pb_page.specs.Inner.Nouns.{noun};

use crate::markup::plural::Plural;

/// What a page says, in a language.
#[derive(Clone, Copy)]
pub struct Words<'a> {
    /// The sentences, each with the number of its key as its index. The bytes below 32 are a sentence's
    /// places.
    pub sentences: &'a [&'a str],
    pub plural: Plural,
}

impl<'a> Words<'a> {
    /// The sentence with this key; where there is none, nothing.
    pub fn sentence(&self, key: u16) -> &'a str
        ensures { result.now ≡ sentence self.now key }
    {
        self.at(usize::from(key))
    }

    /// The form that goes with this number, of the noun whose forms begin with this key.
    pub(crate) fn noun(&self, key: u16, number: u64) -> &'a str
        ensures { result.now ≡ noun self.now key number }
    {
        let form = self.plural.form(number);
        self.at(usize::from(key) + usize::from(form))
    }

    /// The sentence at this index; where there is none, nothing.
    #[tactic(auto, unfolding(crate::specs::Words::sentence))]
    fn at(&self, index: usize) -> &'a str
        ensures { result.now ≡ sentence self.now index }
    {
        if index < self.sentences.len() {
            self.sentences[index]
        } else {
            ""
        }
    }
}
