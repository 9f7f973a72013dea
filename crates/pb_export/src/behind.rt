//! The fields behind a row's own ones.

use crate::text_row::TextRow;

/// The fields behind a row's own ones: one for each further column. What the row does not have is empty,
/// and is kept nowhere.
#[derive(Clone, Copy)]
pub(crate) struct Behind<'a> {
    /// What the row has.
    fields: &'a [String],
    /// How many further columns there are.
    pub(crate) columns: usize,
}

impl<'a> Behind<'a> {
    ghost use Rattle.std.specs.Prelude.{◌≡◌, Some, map, string_bytes};
    ghost use Rattle.pb_export.specs.FileRows.{below};
    ghost use Rattle.pb_export.specs.Inner.Behind.{behind, field_of};

    /// These fields of a row, below the columns of these names.
    pub(crate) fn below(names: &TextRow, fields: &'a [String]) -> Behind<'a>
        ensures { behind result ≡ below names.now (Some (map string_bytes fields.now)) }
    {
        let columns = names.texts().len();
        Behind { fields, columns }
    }

    /// The names of further columns.
    pub(crate) fn names(names: &'a TextRow) -> Behind<'a>
        ensures { behind result ≡ names.now }
    {
        Behind::below(names, names.texts())
    }

    /// The field below the column at a place, from 0.
    pub(crate) fn field(self, place: usize) -> &'a str
        ensures { result.now ≡ field_of self.entry place }
    {
        match self.fields.get(place) {
            Some(text) => text.as_str(),
            None => "",
        }
    }
}
