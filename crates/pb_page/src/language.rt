//! The language of a page.

ghost use Rattle.std.specs.Prelude.{◌≡◌};
ghost use Rattle.pb_page.specs.Words.{sentence};
ghost use Rattle.pb_page.specs.Inner.Nouns.{noun};

use crate::markup::{Form, Words};

/// What a page says, and how it shows amounts.
#[derive(Clone, Copy)]
pub struct Language<'a> {
    /// A sentence for each row of the table.
    pub words: Words<'a>,
    /// Of shares and prices, and of what comes of them.
    pub amounts: Form<'a>,
    /// Of the budget and of costs.
    pub costs: Form<'a>,
}

impl<'a> Language<'a> {
    /// The sentence at a key.
    pub(crate) fn text(&self, key: u16) -> &'a str
        ensures { result.now ≡ sentence self.now.words key }
    {
        self.words.sentence(key)
    }

    /// The form of a noun for a number.
    pub(crate) fn noun(&self, key: u16, number: u64) -> &'a str
        ensures { result.now ≡ noun self.now.words key number }
    {
        self.words.noun(key, number)
    }
}
