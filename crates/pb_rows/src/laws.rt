//! Laws of the definitions.

ghost use Rattle.std.specs.Prelude.{◌≡◌, ◌≢◌, ◌<◌, ◌∷◌, ℕ, All, List, length};
ghost use Rattle.pb_rows.specs.Reading.{Fields, records_of};
ghost use Rattle.pb_rows.specs.Writing.{text_of_rows};

/// What is written as rows is read back as just these records, if each row has a field and the text
/// doesn't begin with a byte order mark, and only then. The fields may hold `;`, quotes and line ends.
pub fn rows_come_back()
    ensures back { (rows : List Fields) → All (λ fields. 0 < length fields) rows
        × ((rest : List ℕ) → text_of_rows rows ≢ 0xEF ∷ 0xBB ∷ 0xBF ∷ rest)
        → records_of (text_of_rows rows) ≡ rows }
    ensures only { (rows : List Fields) → records_of (text_of_rows rows) ≡ rows
        → All (λ fields. 0 < length fields) rows
        × ((rest : List ℕ) → text_of_rows rows ≢ 0xEF ∷ 0xBB ∷ 0xBF ∷ rest) }
{}
