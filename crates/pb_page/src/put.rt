//! A page that grows by pieces of markup.

ghost use Rattle.std.specs.Prelude.{OnOk, map};
ghost use Rattle.pb_page.specs.Inner.Filling.{cut, own};
ghost use Rattle.pb_page.specs.Inner.Grown.{Grows};
ghost use Rattle.pb_page.specs.Inner.Value.{text_of};

use crate::language::Language;
use crate::markup::{Value, fill};
use pb_core::no_memory::NoMemory;

/// Puts a piece after a page, filled with these values.
pub(crate) fn put(
    page: &mut Vec<u8>,
    language: &Language,
    piece: &'static str,
    values: &[Value],
) -> Result<(), NoMemory>
    ensures { OnOk result (Grows page.old.items page.new.items
        (cut piece.now (map (text_of language.now.words) values.now))) }
{
    fill(page, &language.words, piece, values)?;
    Ok(())
}

/// Puts markup without places after a page.
pub(crate) fn put_own(page: &mut Vec<u8>, markup: &'static str) -> Result<(), NoMemory>
    ensures { OnOk result (Grows page.old.items page.new.items (own markup.now)) }
{
    page.extend_from_slice(markup.as_bytes())?;
    Ok(())
}
