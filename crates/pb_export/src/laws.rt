//! Laws of the definitions.

ghost use Rattle.std.specs.Prelude.{◌≡◌, ◌≤◌, ◌↔◌, ℕ, All, List, Some, true};
ghost use Rattle.std.specs.Str.{trim};
ghost use Rattle.pb_core.specs.Election.{ElectionView, most_projects};
ghost use Rattle.pb_read.specs.StandsFor.{StandsFor};
ghost use Rattle.pb_rows.specs.Reading.{Fields};
ghost use Rattle.pb_export.specs.Export.{is_of_file};

/// No election that a file stands for is refused as `OfNoFile`: ids and names of projects have no white space at
/// their ends, and a limit on a ballot's length is one that a file can name.
pub fn files_are_so()
    ensures stands { (records : List Fields) (e : ElectionView) → StandsFor records e → is_of_file e ≡ true }
    ensures words { (e : ElectionView) → (is_of_file e ≡ true)
        ↔ (All (λ p. (trim p.id ≡ p.id) × (trim p.name ≡ p.name)) e.projects
        × ((most : ℕ) → e.max_length ≡ Some most → most ≤ most_projects)) }
{}
