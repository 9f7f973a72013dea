//! What a language says on a page.

use pb_core::no_memory::NoMemory;
use pb_page::{Form, Language, Plural, Speech, Words, WordsFault};
use std::alloc::Global;

/// A language that a page can be in.
pub(crate) trait Tongue {
    /// What it says, with amounts of this currency if there is one.
    fn said(&self, alloc: Global, currency: Option<&str>) -> Result<Spoken<'_>, NoMemory>;
}

/// What a language says on a page.
#[derive(Drop)]
pub(crate) struct Spoken<'a> {
    /// The title of a page that is not given one.
    pub(crate) title: &'a str,
    sentences: Vec<&'a str>,
    plural: Plural,
    group: &'a str,
    point: &'a str,
    /// What stands before an amount, and what behind it.
    around: (String, String),
}

impl Tongue for Speech {
    fn said(&self, alloc: Global, currency: Option<&str>) -> Result<Spoken<'_>, NoMemory> {
        let around = match around(alloc, self, currency) {
            Ok(around) => around,
            Err(_) => return Err(NoMemory),
        };
        match self.sentences(alloc) {
            Ok(sentences) => Ok(Spoken {
                title: self.title(),
                sentences,
                plural: self.plural(),
                group: self.group(),
                point: self.point(),
                around,
            }),
            Err(_) => {
                drop(around);
                Err(NoMemory)
            }
        }
    }
}

/// What stands before an amount of this currency, and what behind it; nothing where there is none.
fn around(
    alloc: Global,
    speech: &Speech,
    currency: Option<&str>,
) -> Result<(String, String), WordsFault> {
    match currency {
        Some(currency) => speech.around(alloc, currency),
        None => Ok((String::new(alloc), String::new(alloc))),
    }
}

impl Spoken<'_> {
    /// The language of a page of whose election the budget and all costs are whole, or are not.
    pub(crate) fn language(&self, is_whole: bool) -> Language<'_> {
        Language {
            words: Words {
                sentences: self.sentences.as_slice(),
                plural: self.plural,
            },
            amounts: self.form(false),
            costs: self.form(is_whole),
        }
    }

    /// How amounts are shown.
    fn form(&self, is_whole: bool) -> Form<'_> {
        Form {
            before: self.around.0.as_str(),
            after: self.around.1.as_str(),
            group: self.group,
            point: self.point,
            is_whole,
        }
    }
}
