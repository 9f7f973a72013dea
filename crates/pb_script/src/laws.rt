//! A law over admissions, as the contract of a function that does nothing.

ghost use Rattle.std.specs.Prelude.{◌≡◌, ℕ, Ok, Err};
ghost use Rattle.pb_rows.specs.Reading.{Fields};
ghost use Rattle.pb_script.specs.Admission.{Judges, open_to_all};
ghost use Rattle.pb_desk.specs.Rows.{IsScriptRow, ScriptRowView};

use crate::admission::RowRefusal;

/// A desk that is open to all admits just the rows of a script, each as what it says, and refuses every other
/// row, for its form alone.
pub fn open_to_all_admits_all_rows()
    ensures admits { (clerks : ℕ) (row : Fields) (x : ScriptRowView) → IsScriptRow clerks row x
        → Judges open_to_all clerks row (Ok x) }
    ensures only { (clerks : ℕ) (row : Fields) (x : ScriptRowView) → Judges open_to_all clerks row (Ok x)
        → IsScriptRow clerks row x }
    ensures refuses { (clerks : ℕ) (row : Fields) → ((x : ScriptRowView) → ¬ IsScriptRow clerks row x)
        → Judges open_to_all clerks row (Err RowRefusal.Bad) }
    ensures form { (clerks : ℕ) (row : Fields) (why : RowRefusal) → Judges open_to_all clerks row (Err why)
        → (why ≡ RowRefusal.Bad) × ((x : ScriptRowView) → ¬ IsScriptRow clerks row x) }
{}
