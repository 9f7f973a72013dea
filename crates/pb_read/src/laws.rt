//! Laws of the definitions.

ghost use Rattle.std.specs.Prelude.{◌≡◌, ◌≢◌, ◌⊎◌, ◌↔◌, ◌<◌, ◌≤◌, ◌-◌, ◌*◌, ℕ};
ghost use Rattle.std.specs.Prelude.{List, [], ◌∷◌, length, take, Some, None, Ok, Err, All, Contains, slice_index_or, true};
ghost use denote.Enum.Declared.{tag_of};
ghost use Rattle.std.specs.Prelude.{◌++◌, ◌+◌, Result, codes, false};
ghost use Rattle.std.specs.List.Sorted.{IsStrictlyIncreasing};
ghost use Rattle.pb_core.specs.Election.{ElectionView, most_projects};
ghost use Rattle.pb_core.specs.MoneyText.{IsMoneyText, IsWorth};
ghost use Rattle.pb_core.specs.Numbered.{numbered};
ghost use Rattle.pb_core.specs.contracts.money_fault.MoneyFault.{the_type as money_faults};
ghost use Rattle.pb_core.specs.declared.money_fault.MoneyFault.{MoneyFault};
ghost use Rattle.pb_rows.specs.Reading.{Fields};
ghost use Rattle.pb_read.specs.Columns.{column, project_columns, vote_columns};
ghost use Rattle.pb_read.specs.Faults.{fails_by};
ghost use Rattle.pb_read.specs.FirstFault.{HasNoFault, IsFaultAt, IsFromOutside};
ghost use Rattle.pb_read.specs.Lengths.{max_length_of};
ghost use Rattle.pb_read.specs.Kinds.{number_of};
ghost use Rattle.pb_read.specs.Listed.{AreListed};
ghost use Rattle.pb_read.specs.MetaKeys.{key_of, key_text};
ghost use Rattle.pb_read.specs.MetaRows.{value_of};
ghost use Rattle.pb_read.specs.Rows.{field, head_of, is_word};
ghost use Rattle.pb_read.specs.StandsFor.{StandsFor};
ghost use Rattle.pb_read.specs.Voting.{ballot_of, is_among, names_only, pieces_of};
ghost use Rattle.pb_read.specs.contracts.section.Section.{the_type as sections};
ghost use Rattle.pb_read.specs.declared.columns.ProjectColumns.{ProjectColumns};
ghost use Rattle.pb_read.specs.declared.columns.VoteColumns.{VoteColumns};
ghost use Rattle.pb_read.specs.declared.fault.ReadFault.{ReadFault};
ghost use Rattle.pb_read.specs.declared.fault.ReadKind.{ReadKind};
ghost use Rattle.pb_read.specs.declared.fault.ReadKind.TheVariants.{BadLength};
ghost use Rattle.pb_read.specs.declared.meta_key.MetaKey.{MetaKey};
ghost use Rattle.pb_read.specs.declared.section.Section.{Section};
ghost use Rattle.pb_read.specs.declared.section.TheConstants.{NAMES as SECTION_NAMES};

/// Records stand for one election at most, are refused by one fault at most, and never both; a failed
/// reader and refused memory stand aside.
pub fn one_answer()
    ensures one_election { (records : List Fields) (e f : ElectionView) →
        StandsFor records e → StandsFor records f → e ≡ f }
    ensures one_fault { (records : List Fields) (k l : ReadKind) (a b : ℕ) →
        IsFaultAt records k a → IsFaultAt records l b → ¬ IsFromOutside k → ¬ IsFromOutside l →
        (k ≡ l) × (a ≡ b) }
    ensures not_both { (records : List Fields) (e : ElectionView) (kind : ReadKind) (at : ℕ) →
        StandsFor records e → IsFaultAt records kind at → IsFromOutside kind }

    // Records are numbered from 1: those before the one at fault have no fault, and with it they have one.
    ensures none_before { (records : List Fields) (kind : ReadKind) (at : ℕ) →
        IsFaultAt records kind at → HasNoFault (take (at - 1) records) }
    ensures one_with_it { (records : List Fields) (kind : ReadKind) (at : ℕ) →
        IsFaultAt records kind at → ¬ IsFromOutside kind → at ≤ length records →
        ¬ HasNoFault (take at records) }
{}

/// What a check lists of records begins with their first fault, and is nothing where they stand for an
/// election, a failed reader aside.
pub fn first_listed()
    ensures none { (records : List Fields) → AreListed 0 records []
        ↔ ((e : ElectionView) × StandsFor records e) }
    ensures first { (records : List Fields) (fault : ReadFault) (more : List ReadFault) →
        AreListed 0 records (fault ∷ more) → IsFaultAt records fault.kind fault.at }
    ensures accepts { (records : List Fields) (fault : ReadFault) (more : List ReadFault) (e : ElectionView) →
        AreListed 0 records (fault ∷ more) → StandsFor records e → IsFromOutside fault.kind }
{}

/// The limit that a value of `max_length` names is the whole number of its digits. There is none where the
/// value is empty, or the number is above the most projects; and a value that names no whole number is bad.
pub fn max_length_is_what_its_text_names()
    ensures limit { (text : List ℕ) → (n : ℕ) → max_length_of text ≡ Ok (Some n)
        ↔ ((whole : List ℕ) × (decimals : List ℕ)
        × IsMoneyText text whole decimals × IsWorth whole decimals (100 * n) × (n ≤ most_projects)) }
    ensures none { (text : List ℕ) → max_length_of text ≡ Ok None
        ↔ ((text ≡ []) ⊎ ((whole : List ℕ) × (decimals : List ℕ) × (n : ℕ)
        × IsMoneyText text whole decimals × IsWorth whole decimals (100 * n) × (most_projects < n))) }
    ensures bad { (text : List ℕ) → (kind : ReadKind) → max_length_of text ≡ Err kind
        ↔ ((kind ≡ BadLength) × (text ≢ []) × ((whole : List ℕ) → (decimals : List ℕ) → (n : ℕ)
        → IsMoneyText text whole decimals → ¬ IsWorth whole decimals (100 * n))) }
{}

/// The places that a vote names are those of the ids that are among its pieces, rising; and a vote names projects
/// alone where each piece is one of their ids.
pub fn a_vote_names_places()
    ensures among { (ids : List (List ℕ)) (id : List ℕ) → (is_among ids id ≡ true) ↔ Contains ids id }
    ensures names { (ids : List (List ℕ)) (vote : List ℕ) → (names_only ids vote ≡ true)
        ↔ All (Contains ids) (pieces_of vote) }
    ensures rising { (ids : List (List ℕ)) (vote : List ℕ) → IsStrictlyIncreasing (ballot_of ids vote) }
    ensures voted { (ids : List (List ℕ)) (vote : List ℕ) (place : ℕ) → Contains (ballot_of ids vote) place
        ↔ ((place < length ids) × Contains (pieces_of vote) (slice_index_or ids place [])) }
{}

/// What names say. The head of a section, and a key of META, is the one whose name the word is. The value of a key is
/// the second field of the last row whose first field is the key, if there is such a row. A header row has the columns
/// of PROJECTS, or of VOTES, where it has each that is needed. The kinds from 11 on refuse an amount, one for each of its
/// faults, in the order in which these are declared.
pub fn names_say_what_they_name()
    ensures head { (row : Fields) (section : Section) → (head_of row ≡ Some section)
        ↔ (is_word (numbered sections SECTION_NAMES section).1 (field row 0) ≡ true) }
    ensures key { (text : List ℕ) (key : MetaKey) → (key_of text ≡ Some key) ↔ (is_word (key_text key) text ≡ true) }
    ensures value { (key : List ℕ) (before : List Fields) (row : Fields) (later : List Fields)
        → is_word key (field row 0) ≡ true → All (λ (other : Fields). is_word key (field other 0) ≡ false) later
        → value_of key (before ++ row ∷ later) ≡ Some (field row 1) }
    ensures none { (key : List ℕ) (rows : List Fields)
        → All (λ (other : Fields). is_word key (field other 0) ≡ false) rows → value_of key rows ≡ None }
    ensures projects { (header : Fields) (c : ProjectColumns) → (project_columns header ≡ Some c)
        ↔ ((column (codes "project_id") header ≡ Some c.id) × (column (codes "cost") header ≡ Some c.cost)
        × (column (codes "name") header ≡ c.name)) }
    ensures votes { (header : Fields) (c : VoteColumns) → (vote_columns header ≡ Some c)
        ↔ ((column (codes "voter_id") header ≡ Some c.voter) × (column (codes "vote") header ≡ Some c.vote)) }
    ensures refused { (kind : ReadKind) (read : Result ℕ MoneyFault) → (fails_by kind read ≡ true)
        ↔ ((fault : MoneyFault) × (read ≡ Err fault) × (number_of kind ≡ tag_of money_faults fault + 11)) }
{}
