//! What stands at a place of a sentence.

use crate::markup::{Divided, Form};
use pb_core::money::Money;

/// What stands at a place of a sentence. Each name is that of a figure, for programs.
#[derive(Clone, Copy)]
pub(crate) enum Place<'a> {
    /// A text.
    Text(&'a str),
    /// A number without a name, in groups of three digits.
    Digits(u64),
    /// The form for a number of the noun whose forms begin at a key.
    Noun(u16, u64),
    /// An amount as people write it, alone.
    Shown(Money, Form<'a>),
    /// A number by its name.
    Number(&'static str, u64),
    /// An amount by its name.
    Amount(&'static str, Money, Form<'a>),
    /// An amount that is divided, by its name.
    Parted(&'static str, Divided, Form<'a>),
    /// An amount for programs that has no name.
    Nameless(Money, Form<'a>),
    /// What the words of the page say at a key.
    Said(u16),
    /// A text of the program's, as code.
    Code(&'a str),
    /// A link to the row of a project: its place in the file, its id and its name.
    Project(u32, &'a str, &'a str),
    /// A link to what is published: its address.
    Files(&'a str),
    /// A link: its address, and the key of what it is called.
    Link(&'a str, u16),
}
