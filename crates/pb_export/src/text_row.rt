//! The fields of a row, as texts.

ghost use Rattle.std.specs.Prelude.{◌≡◌, ◌∷◌, ◌++◌, [], map, string_bytes, OnOk};

use pb_core::no_memory::NoMemory;
use std::alloc::Global;
use std::marker::Model;

/// The fields of a row. A contract sees their texts.
#[derive(Drop)]
pub struct TextRow {
    texts: Vec<String>,
}

impl Model for TextRow {
    ghost use Rattle.std.specs.Prelude.{map, string_bytes};
    ghost use Rattle.pb_rows.specs.Reading.{Fields};

    ghost Value = { Fields };

    ghost view = { λ row. map string_bytes row.texts.items };
}

impl TextRow {
    /// A row of no fields.
    pub fn new(alloc: Global) -> TextRow
        ensures { result ≡ [] }
    {
        TextRow {
            texts: Vec::new(alloc),
        }
    }

    /// The fields.
    pub fn texts(&self) -> &[String]
        ensures { map string_bytes result.now ≡ self.now }
    {
        self.texts.as_slice()
    }

    /// Puts this field behind the others.
    pub(crate) fn push(&mut self, alloc: Global, text: &str) -> Result<(), NoMemory>
        ensures { OnOk result (self.new ≡ self.old ++ text.now ∷ []) }
    {
        let text = String::from_str(alloc, text)?;
        self.texts.push(text)?;
        Ok(())
    }
}
