//! What a page shows of a .pb file that no count uses: META's currency, and the categories of the projects.

ghost use Rattle.std.specs.Prelude.{◌≡◌, ◌≢◌, ◌≤◌, ◌<◌, ◌^◌, ◌-◌, ◌∷◌, ◌++◌, ℕ, List, Some, None, [], true, IfOk, OnOk};
ghost use Rattle.std.specs.Prelude.{codes, length, map, min, position, slice_get, string_bytes};
ghost use Rattle.std.specs.FinMap as places;
ghost use Rattle.std.specs.List.{All};
ghost use Rattle.std.specs.Str.{trim};
ghost use Rattle.csv.specs.Records.{AllText, fields_of};
ghost use Rattle.pb_read.specs.Rows.{field, is_word};
ghost use Rattle.pb_read.specs.declared.columns.ProjectColumns.{ProjectColumns};
ghost use Rattle.pb_read.specs.declared.section.Section.TheVariants.{Projects};
ghost use Rattle.pb_read.specs.declared.watch.Part.TheVariants.{Names, Project};

use csv::ByteRecord;
use pb_core::election::Election;
use pb_core::no_memory::NoMemory;
use pb_ids::IdTable;
use pb_read::{Part, Refusal, Section, Stage, Watch};
use std::alloc::{AllocError, Global};
use std::marker::Model;
use std::{mem, str};

/// Different texts, each with a number, from 0, in the order in which they came. A contract sees the texts.
#[derive(Drop)]
struct NumberedTexts {
    texts: Vec<String>,
    numbers: IdTable,
    ghost found: { length texts.items ≤ 2 ^ 32 → (text : List ℕ) (number : ℕ)
        → places.get numbers text ≡ Some number → slice_get (map string_bytes texts.items) number ≡ Some text },
}

impl Model for NumberedTexts {
    ghost use Rattle.std.specs.Prelude.{List, ℕ, map, string_bytes};

    ghost Value = { List (List ℕ) };

    ghost view = { λ n. map string_bytes n.texts.items };
}

impl NumberedTexts {
    /// No text yet.
    fn new(alloc: Global) -> NumberedTexts
        ensures { result ≡ [] }
    {
        NumberedTexts {
            texts: Vec::new(alloc),
            numbers: IdTable::new(alloc),
        }
    }

    /// The number of a text, which it gets where it has none.
    fn number_of(&mut self, alloc: Global, text: &str) -> Result<u32, AllocError>
        ensures here { length self.new ≤ 2 ^ 32
            → IfOk result (λ number. slice_get self.new number ≡ Some text.now) }
        ensures more { length self.old ≤ length self.new }
        ensures kept { (k : ℕ) → k < length self.old → slice_get self.new k ≡ slice_get self.old k }
    {
        if let Some(number) = self.numbers.get(text) {
            return Ok(number);
        }
        let number = number_after(self.texts.len());
        let kept = String::from_str(alloc, text)?;
        self.texts.push(kept)?;
        let _ = self.numbers.insert(alloc, text, number)?;
        Ok(number)
    }
}

/// The number of a text that comes after so many others.
fn number_after(count: usize) -> u32
    ensures { result ≡ min count (2 ^ 32 - 1) }
{
    u32::try_from(count).unwrap_or(u32::MAX)
}

/// Looks on while a .pb file is read, and keeps what its page shows that no count uses.
#[derive(Drop)]
pub struct PageNotes {
    alloc: Global,
    /// The value of META's `currency`; empty if there is none.
    currency: String,
    /// Where the column `category` of PROJECTS stands, from 0.
    column: Option<usize>,
    /// The different texts of that column.
    categories: NumberedTexts,
    /// The number of each project's category.
    of_project: Vec<u32>,
    /// Whether all was kept: no memory was refused.
    is_whole: bool,
    ghost numbered: { length categories ≤ 2 ^ 32
        → All (λ number. number < length categories) of_project.items },
}

impl PageNotes {
    /// Nothing was seen yet.
    pub fn new(alloc: Global) -> PageNotes
        ensures rows { result.of_project.items ≡ [] }
        ensures column { result.column ≡ None }
    {
        PageNotes {
            alloc,
            currency: String::new(alloc),
            column: None,
            categories: NumberedTexts::new(alloc),
            of_project: Vec::new(alloc),
            is_whole: true,
        }
    }

    /// Whether all was kept: no memory was refused.
    pub fn is_whole(&self) -> bool
        ensures { result ≡ self.now.is_whole }
    {
        self.is_whole
    }

    /// The currency that META names.
    pub fn currency(&self) -> Option<&str> {
        let currency = self.currency.as_str();
        if currency.is_empty() {
            None
        } else {
            Some(currency)
        }
    }

    /// Whether a project has a category.
    pub fn has_categories(&self) -> bool {
        self.categories
            .texts
            .iter()
            .any(|category| category.as_str() != "")
    }

    /// The different categories, in the order of their first projects; the empty text is that of projects
    /// without one.
    pub fn categories(&self) -> Result<Vec<&str>, NoMemory>
        ensures { IfOk result (λ all. map (λ text. text.now) all.items ≡ self.now.categories) }
    {
        let mut all = Vec::new(self.alloc);
        for category in &self.categories.texts {
            all.push(category.as_str())?;
        }
        Ok(all)
    }

    /// The number of each project's category among these, from 0, in file order.
    pub fn of_project(&self) -> &[u32]
        ensures { result.now ≡ self.now.of_project.items }
    {
        self.of_project.as_slice()
    }

    /// Takes a record of this part.
    fn keep(&mut self, record: &ByteRecord, part: Part) -> Result<(), AllocError>
        ensures row { (columns : ProjectColumns) → (column : ℕ) → part ≡ Project columns
            → self.old.column ≡ Some column → AllText (fields_of record.now)
            → OnOk result (length self.new.categories ≤ 2 ^ 32
            → map (slice_get self.new.categories) self.new.of_project.items
            ≡ map (slice_get self.old.categories) self.old.of_project.items
            ++ Some (trim (field (fields_of record.now) column)) ∷ []) }
        ensures no_other { ((columns : ProjectColumns) → part ≢ Project columns)
            → (self.new.of_project.items ≡ self.old.of_project.items)
            × (self.new.categories ≡ self.old.categories) }
        ensures no_column { self.old.column ≡ None → (self.new.of_project.items ≡ self.old.of_project.items)
            × (self.new.categories ≡ self.old.categories) }
        ensures column { part ≢ Names Projects → self.new.column ≡ self.old.column }
        ensures named { part ≡ Names Projects → AllText (fields_of record.now) → self.new.column
            ≡ position (λ name. is_word (codes "category") (trim name)) (fields_of record.now) }
        ensures whole { self.new.is_whole ≡ self.old.is_whole }
    {
        match part {
            Part::Names(Section::Projects) => self.column = column_of(record, "category"),
            Part::Key => return self.take_key(record),
            Part::Project(_) => return self.take_project(record),
            Part::Other | Part::Head(_) | Part::Names(_) | Part::Vote(_) => {}
        }
        Ok(())
    }

    /// Takes a row of META. Of a repeated key the last value counts.
    fn take_key(&mut self, record: &ByteRecord) -> Result<(), AllocError>
        ensures rows { self.new.of_project.items ≡ self.old.of_project.items }
        ensures categories { self.new.categories ≡ self.old.categories }
        ensures column { self.new.column ≡ self.old.column }
        ensures whole { self.new.is_whole ≡ self.old.is_whole }
    {
        if is_word("currency", text_at(record, 0)) {
            let currency = String::from_str(self.alloc, text_at(record, 1))?;
            drop(mem::replace(&mut self.currency, currency));
        }
        Ok(())
    }

    /// Takes a project that is accepted.
    fn take_project(&mut self, record: &ByteRecord) -> Result<(), AllocError>
        ensures row { (column : ℕ) → self.old.column ≡ Some column → AllText (fields_of record.now)
            → OnOk result (length self.new.categories ≤ 2 ^ 32
            → map (slice_get self.new.categories) self.new.of_project.items
            ≡ map (slice_get self.old.categories) self.old.of_project.items
            ++ Some (trim (field (fields_of record.now) column)) ∷ []) }
        ensures no_column { self.old.column ≡ None → (self.new.of_project.items ≡ self.old.of_project.items)
            × (self.new.categories ≡ self.old.categories) }
        ensures column { self.new.column ≡ self.old.column }
        ensures whole { self.new.is_whole ≡ self.old.is_whole }
    {
        let Some(column) = self.column else {
            return Ok(());
        };
        let number = self
            .categories
            .number_of(self.alloc, text_at(record, column))?;
        self.of_project.push(number)?;
        Ok(())
    }
}

impl Watch for PageNotes {
    /// Where PROJECTS has the column `category`, a row of it adds one number, that of the row's own text in this
    /// column, so that there are as many as projects. Nothing else adds one, and no number gets another text. Where
    /// memory was refused once, what is kept is never whole again.
    fn see(&mut self, record: &ByteRecord, _at: u32, part: Part, _election: &Election)
        ensures row { (columns : ProjectColumns) → (column : ℕ) → part ≡ Project columns
            → self.old.column ≡ Some column → AllText (fields_of record.now)
            → self.new.is_whole ≡ true → length self.new.categories ≤ 2 ^ 32
            → map (slice_get self.new.categories) self.new.of_project.items
            ≡ map (slice_get self.old.categories) self.old.of_project.items
            ++ Some (trim (field (fields_of record.now) column)) ∷ [] }
        ensures no_other { ((columns : ProjectColumns) → part ≢ Project columns) → self.new.is_whole ≡ true
            → (self.new.of_project.items ≡ self.old.of_project.items)
            × (self.new.categories ≡ self.old.categories) }
        ensures no_column { self.old.column ≡ None → self.new.is_whole ≡ true
            → (self.new.of_project.items ≡ self.old.of_project.items)
            × (self.new.categories ≡ self.old.categories) }
        ensures column { part ≢ Names Projects → self.new.is_whole ≡ true
            → self.new.column ≡ self.old.column }
        ensures named { part ≡ Names Projects → AllText (fields_of record.now) → self.new.is_whole ≡ true
            → self.new.column
            ≡ position (λ name. is_word (codes "category") (trim name)) (fields_of record.now) }
        ensures whole { self.new.is_whole ≡ true → self.old.is_whole ≡ true }
    {
        if self.is_whole && self.keep(record, part).is_err() {
            self.is_whole = false;
        }
    }

    fn refuse(&mut self, _record: &ByteRecord, _refusal: Refusal, _stage: &Stage)
        ensures { self.new ≡ self.old }
    {}

    fn end(&mut self, _election: &Election)
        ensures { self.new ≡ self.old }
    {}
}

/// The first place at which a row of column names has this word, in any case.
fn column_of(names: &ByteRecord, word: &str) -> Option<usize>
    ensures { AllText (fields_of names.now)
        → result ≡ position (λ name. is_word word.now (trim name)) (fields_of names.now) }
{
    for place in 0..names.len() {
        if is_word(word, text_at(names, place)) {
            return Some(place);
        }
    }
    None
}

/// Whether a text is this word, upper and lower case of ASCII aside.
fn is_word(word: &str, text: &str) -> bool
    ensures { result ≡ is_word word.now text.now }
{
    word.eq_ignore_ascii_case(text)
}

/// The text of a field without the white space at its ends; the empty text where the record ends before it.
fn text_at(record: &ByteRecord, place: usize) -> &str
    ensures { AllText (fields_of record.now) → result.now ≡ trim (field (fields_of record.now) place) }
{
    let Some(field) = record.get(place) else {
        return "";
    };
    match str::from_utf8(field) {
        Ok(text) => text.trim(),
        Err(_) => "",
    }
}
