//! Who looks on while a .pb file is read, and keeps what the count does not use.

ghost use Rattle.std.specs.Prelude.{◌≡◌, ◌≢◌, ◌<◌, ◌^◌, ◌∷◌, ◌++◌, [], ◌||◌, ℕ, List, codes, false, filter, is_some};
ghost use Rattle.std.specs.Prelude.{length, map, nat_lt, not, string_bytes, take, true, All, IfOk, OnOk, if◌then◌else◌};
ghost use Rattle.std.specs.Option.{option_map_or};
ghost use Rattle.std.specs.Char.{to_ascii_lowercase};
ghost use Rattle.std.specs.List.{list_any, range_with_len};
ghost use Rattle.std.specs.FinMap as finite;
ghost use Rattle.std.specs.Str.{IsUtf8, bytes_eq, trim};
ghost use Rattle.csv.specs.Records.{AllText, fields_of};
ghost use Rattle.pb_read.specs.Rows.{field, is_word};
ghost use Rattle.pb_read.specs.declared.columns.ProjectColumns.{ProjectColumns};
ghost use Rattle.pb_read.specs.declared.columns.VoteColumns.{VoteColumns};
ghost use Rattle.pb_read.specs.declared.section.Section.TheVariants.{Projects, Votes};
ghost use Rattle.pb_read.specs.declared.watch.Part.TheVariants.{Key, Names, Project, Vote};
ghost use Rattle.pb_export.specs.Inner.Carried.{FindsLast, HaveCome, KeepsKeys, Kept, TakesKey, new_columns, texts_at};

use crate::further::Further;
use crate::further_keys::FurtherKey;
use crate::readable::may_follow;
use crate::text_row::TextRow;
use csv::ByteRecord;
use pb_core::election::Election;
use pb_core::no_memory::NoMemory;
use pb_ids::IdTable;
use pb_read::{Part, Refusal, Section, Stage, VoteColumns, Watch};
use std::alloc::Global;
use std::{mem, str};

/// The columns of PROJECTS that an exported file has of its own.
const OWN_OF_PROJECTS: [&str; 5] = ["project_id", "cost", "votes", "name", "selected"];

/// The columns of VOTES that an exported file has of its own.
const OWN_OF_VOTES: [&str; 2] = ["voter_id", "vote"];

/// The place of a key that is not kept.
const NO_PLACE: u32 = u32::MAX;

/// Names that came so far, in small letters of ASCII.
#[derive(Drop)]
struct NamesSoFar {
    alloc: Global,
    came: IdTable,
}

impl NamesSoFar {
    /// Only these names came.
    fn of(alloc: Global, names: &[&str]) -> Result<NamesSoFar, NoMemory>
        ensures { All (λ name. map to_ascii_lowercase name ≡ name) (map (λ name. name.now) names.now)
            → IfOk result (λ so_far. HaveCome so_far.came (map (λ name. name.now) names.now)) }
    {
        let mut came = IdTable::new(alloc);
        for name in names {
            if came.insert(alloc, name, 0).is_err() {
                drop(came);
                return Err(NoMemory);
            }
        }
        Ok(NamesSoFar { alloc, came })
    }

    /// Whether a name came.
    fn has(&self, name: &str) -> bool
        ensures { result ≡ is_some (finite.get self.now.came name.now) }
    {
        self.came.get(name).is_some()
    }

    /// The number that a name came with, if it came; otherwise it comes now, with this one.
    fn number_of(&mut self, name: &str, number: u32) -> Result<Option<u32>, NoMemory>
        ensures { OnOk result ((other : List ℕ) → is_some (finite.get self.new.came other)
            ≡ (bytes_eq (map to_ascii_lowercase name.now) other || is_some (finite.get self.old.came other))) }
    {
        let small = name.to_ascii_lowercase(self.alloc)?;
        let before = self.came.get(small.as_str());
        let taken = match before {
            Some(_) => Ok(None),
            None => self.came.insert(self.alloc, small.as_str(), number),
        };
        drop(small);
        let _ = taken?;
        Ok(before)
    }

    /// Takes a name, and answers whether it had not come before.
    fn take(&mut self, name: &str) -> Result<bool, NoMemory>
        ensures new { IfOk result (λ is_new.
            is_new ≡ not (is_some (finite.get self.old.came (map to_ascii_lowercase name.now)))) }
        ensures came { OnOk result (self.new.came
            ≡ finite.insert self.old.came (map to_ascii_lowercase name.now) 0) }
    {
        let small = name.to_ascii_lowercase(self.alloc)?;
        let before = self.came.insert(self.alloc, small.as_str(), 0);
        drop(small);
        Ok(before?.is_none())
    }
}

/// Who looks on while the file of an export is read.
pub trait Carry {
    ghost use Rattle.pb_export.specs.declared.further.Further.{Further};

    /// What it keeps of that file.
    ghost keeps: { Self → Further };

    /// What it keeps of that file.
    fn carried(&self) -> &Carried
        ensures { result.now.further ≡ keeps self.now };
}

/// Looks on while a .pb file is read, and keeps what the count does not use: further keys of META, and
/// further columns. Of a name that an export writes itself nothing is kept. Of a repeated key the last value
/// is kept, where the key came first; of a repeated column the first.
#[derive(Drop)]
pub struct Carried {
    alloc: Global,
    /// Whether the further columns of VOTES are kept.
    keeps_voters: bool,
    /// The names of keys that came so far; none where memory was refused.
    keys: Option<NamesSoFar>,
    /// Where the further columns of PROJECTS and of VOTES stand, from 0.
    of_projects: Vec<usize>,
    of_votes: Vec<usize>,
    further: Further,
    /// Whether all was kept: no memory was refused.
    is_whole: bool,
}

impl Carried {
    /// Nothing was seen yet.
    pub fn new(alloc: Global, keeps_voters: bool) -> Carried
        ensures rows { result.further.projects.items ≡ [] }
        ensures columns { (result.of_projects.items ≡ []) × (result.further.project_names ≡ []) }
        ensures asked { result.keeps_voters ≡ keeps_voters }
        ensures voters { (result.further.voters.items ≡ []) × (result.further.places ≡ finite.empty) }
        ensures voter_columns { (result.of_votes.items ≡ []) × (result.further.voter_names ≡ []) }
        ensures further_keys { (result.further.keys ≡ []) × (string_bytes result.further.comment ≡ []) }
        ensures keys { (name : List ℕ) → option_map_or (λ keys.
            is_some (finite.get keys.came (map to_ascii_lowercase name))) result.keys false ≡ false }
    {
        let keys = NamesSoFar::of(alloc, &[]).ok();
        let is_whole = keys.is_some();
        Carried {
            alloc,
            keeps_voters,
            keys,
            of_projects: Vec::new(alloc),
            of_votes: Vec::new(alloc),
            further: Further::none(alloc),
            is_whole,
        }
    }

    /// Whether META has this further key, which is in small letters.
    pub fn has_key(&self, name: &str) -> bool
        ensures { result ≡ option_map_or (λ keys. is_some (finite.get keys.came name.now)) self.now.keys false }
    {
        match &self.keys {
            Some(keys) => keys.has(name),
            None => false,
        }
    }

    /// What was kept, if no memory was refused.
    pub fn further(&self) -> Result<&Further, NoMemory>
        ensures further { IfOk result (λ further. further.now ≡ self.now.further) }
        ensures whole { OnOk result (self.now.is_whole ≡ true) }
    {
        if self.is_whole {
            Ok(&self.further)
        } else {
            Err(NoMemory)
        }
    }

    /// Takes a record of this part, which is text.
    fn keep(&mut self, record: &ByteRecord, part: Part) -> Result<(), NoMemory>
        ensures kept { OnOk result (Kept part (fields_of record.now) self.old self.new) }
        ensures asked { self.new.keeps_voters ≡ self.old.keeps_voters }
        ensures not_asked { self.old.keeps_voters ≡ false → (self.new.of_votes.items ≡ self.old.of_votes.items)
            × (self.new.further.voter_names ≡ self.old.further.voter_names) }
    {
        match part {
            Part::Other | Part::Head(_) => Ok(()),
            Part::Names(section) => self.keep_names(record, section),
            Part::Key => self.keep_key(record),
            Part::Project(_) => {
                let fields = fields_at(self.alloc, record, self.of_projects.as_slice())?;
                self.further.projects.push(fields)?;
                Ok(())
            }
            Part::Vote(columns) => self.keep_voter(record, columns),
        }
    }

    /// Takes the row of column names of this section.
    fn keep_names(&mut self, record: &ByteRecord, section: Section) -> Result<(), NoMemory>
        ensures kept { OnOk result (Kept (Names section) (fields_of record.now) self.old self.new) }
        ensures asked { self.new.keeps_voters ≡ self.old.keeps_voters }
        ensures not_asked { self.old.keeps_voters ≡ false → (self.new.of_votes.items ≡ self.old.of_votes.items)
            × (self.new.further.voter_names ≡ self.old.further.voter_names) }
    {
        match section {
            Section::Meta => Ok(()),
            Section::Projects => {
                let places = further_places(self.alloc, record, &OWN_OF_PROJECTS)?;
                drop(mem::replace(&mut self.of_projects, places));
                let names = fields_at(self.alloc, record, self.of_projects.as_slice())?;
                drop(mem::replace(&mut self.further.project_names, names));
                Ok(())
            }
            Section::Votes if self.keeps_voters => {
                let places = further_places(self.alloc, record, &OWN_OF_VOTES)?;
                drop(mem::replace(&mut self.of_votes, places));
                let names = fields_at(self.alloc, record, self.of_votes.as_slice())?;
                drop(mem::replace(&mut self.further.voter_names, names));
                Ok(())
            }
            Section::Votes => Ok(()),
        }
    }

    /// Takes a row of META. Of a repeated key the last value counts.
    fn keep_key(&mut self, record: &ByteRecord) -> Result<(), NoMemory>
        ensures rows { self.new.further.projects.items ≡ self.old.further.projects.items }
        ensures columns { self.new.of_projects.items ≡ self.old.of_projects.items }
        ensures names { self.new.further.project_names ≡ self.old.further.project_names }
        ensures key { OnOk result (AllText (fields_of record.now) → TakesKey (fields_of record.now) self.old self.new) }
        ensures asked { self.new.keeps_voters ≡ self.old.keeps_voters }
        ensures voter_columns { (self.new.of_votes.items ≡ self.old.of_votes.items)
            × (self.new.further.voter_names ≡ self.old.further.voter_names) }
        ensures voters { (self.new.further.voters.items ≡ self.old.further.voters.items)
            × (self.new.further.places ≡ self.old.further.places) }
    {
        let (name, value) = (text_at(record, 0), text_at(record, 1));
        if name.eq_ignore_ascii_case("comment") {
            let comment = String::from_str(self.alloc, value)?;
            drop(mem::replace(&mut self.further.comment, comment));
            return Ok(());
        }
        let Some(keys) = &mut self.keys else {
            return Err(NoMemory);
        };
        let number = if may_follow(name) {
            self.further.keys.next_place()
        } else {
            NO_PLACE
        };
        let before = keys.number_of(name, number)?;
        let value = String::from_str(self.alloc, value)?;
        match before {
            Some(place) => self.further.keys.set(place, value),
            None if number == NO_PLACE => drop(value),
            None => {
                let name = String::from_str(self.alloc, name)?;
                self.further.keys.push(FurtherKey { name, value })?
            }
        }
        Ok(())
    }

    /// Takes a row of VOTES.
    fn keep_voter(&mut self, record: &ByteRecord, columns: VoteColumns) -> Result<(), NoMemory>
        ensures rows { self.new.further.projects.items ≡ self.old.further.projects.items }
        ensures columns { self.new.of_projects.items ≡ self.old.of_projects.items }
        ensures names { self.new.further.project_names ≡ self.old.further.project_names }
        ensures keys { KeepsKeys self.old self.new }
        ensures asked { self.new.keeps_voters ≡ self.old.keeps_voters }
        ensures voter_columns { (self.new.of_votes.items ≡ self.old.of_votes.items)
            × (self.new.further.voter_names ≡ self.old.further.voter_names) }
        ensures voter { OnOk result (self.old.of_votes.items ≢ [] → AllText (fields_of record.now)
            → self.new.further.voters.items ≡ self.old.further.voters.items
            ++ texts_at (fields_of record.now) self.old.of_votes.items ∷ []) }
        ensures voter_id { OnOk result (self.old.of_votes.items ≢ [] → AllText (fields_of record.now)
            → FindsLast (fields_of record.now) columns self.old self.new) }
        ensures no_columns { self.old.of_votes.items ≡ [] → (self.new.further.voters.items ≡ self.old.further.voters.items)
            × (self.new.further.places ≡ self.old.further.places) }
    {
        if self.of_votes.is_empty() {
            return Ok(());
        }
        let place = u32::try_from(self.further.voters.len()).unwrap_or(u32::MAX);
        let fields = fields_at(self.alloc, record, self.of_votes.as_slice())?;
        self.further.voters.push(fields)?;
        let id = text_at(record, columns.voter);
        let _ = self.further.places.insert(self.alloc, id, place)?;
        Ok(())
    }
}

impl Watch for Carried {
    /// Unless memory is refused, a row of PROJECTS adds a row: its own fields in the further columns, as many of
    /// them as it has. No other record adds or changes one. The further columns are those in the row of column
    /// names whose names are none of the file's own, nor stood before. Where memory was refused once, what is kept
    /// is never whole again.
    ///
    /// Of VOTES nothing is kept unless it was asked for. If it was, all of this holds of it too, where it has
    /// further columns; the row of a voter is found by the voter's id. A row of META brings its key or sets the comment.
    fn see(&mut self, record: &ByteRecord, _at: u32, part: Part, _election: &Election)
        ensures row { (columns : ProjectColumns) → part ≡ Project columns → AllText (fields_of record.now)
            → self.new.is_whole ≡ true → self.new.further.projects.items ≡ self.old.further.projects.items
            ++ map (λ place. trim (field (fields_of record.now) place))
            (filter (λ place. nat_lt place (length (fields_of record.now))) self.old.of_projects.items) ∷ [] }
        ensures no_other { ((columns : ProjectColumns) → part ≢ Project columns) → self.new.is_whole ≡ true
            → self.new.further.projects.items ≡ self.old.further.projects.items }
        ensures names { part ≡ Names Projects → AllText (fields_of record.now) → self.new.is_whole ≡ true
            → self.new.further.project_names ≡ map (λ place. trim (field (fields_of record.now) place))
            (filter (λ place. nat_lt place (length (fields_of record.now))) self.new.of_projects.items) }
        ensures places { part ≡ Names Projects → AllText (fields_of record.now) → self.new.is_whole ≡ true
            → self.new.of_projects.items ≡ filter (λ place. not (list_any
            (is_word (field (map trim (fields_of record.now)) place)) (codes "project_id" ∷ codes "cost"
            ∷ codes "votes" ∷ codes "name" ∷ codes "selected" ∷ take place (map trim (fields_of record.now)))))
            (range_with_len 0 (length (fields_of record.now))) }
        ensures columns { part ≢ Names Projects → self.new.is_whole ≡ true
            → (self.new.of_projects.items ≡ self.old.of_projects.items)
            × (self.new.further.project_names ≡ self.old.further.project_names) }
        ensures key { part ≡ Key → AllText (fields_of record.now) → self.new.is_whole ≡ true
            → is_word (codes "comment") (trim (field (fields_of record.now) 0)) ≡ false → (name : List ℕ)
            → option_map_or (λ keys. is_some (finite.get keys.came name)) self.new.keys false
            ≡ (bytes_eq (map to_ascii_lowercase (trim (field (fields_of record.now) 0))) name
            || option_map_or (λ keys. is_some (finite.get keys.came name)) self.old.keys false) }
        ensures no_other_key { part ≢ Key → self.new.is_whole ≡ true → (self.new.keys ≡ self.old.keys)
            × ((self.new.further.keys ≡ self.old.further.keys)
            × (string_bytes self.new.further.comment ≡ string_bytes self.old.further.comment)) }
        ensures comment { part ≡ Key → AllText (fields_of record.now) → self.new.is_whole ≡ true
            → string_bytes self.new.further.comment ≡ (if is_word (codes "comment") (trim (field (fields_of record.now) 0))
            then trim (field (fields_of record.now) 1) else string_bytes self.old.further.comment) }
        ensures whole { self.new.is_whole ≡ true → self.old.is_whole ≡ true }
        ensures asked { self.new.keeps_voters ≡ self.old.keeps_voters }
        ensures not_asked { self.old.keeps_voters ≡ false → (self.new.of_votes.items ≡ self.old.of_votes.items)
            × (self.new.further.voter_names ≡ self.old.further.voter_names) }
        ensures voter { (columns : VoteColumns) → part ≡ Vote columns → self.old.of_votes.items ≢ []
            → AllText (fields_of record.now) → self.new.is_whole ≡ true
            → self.new.further.voters.items ≡ self.old.further.voters.items
            ++ map (λ place. trim (field (fields_of record.now) place))
            (filter (λ place. nat_lt place (length (fields_of record.now))) self.old.of_votes.items) ∷ [] }
        ensures voter_id { (columns : VoteColumns) → part ≡ Vote columns → self.old.of_votes.items ≢ []
            → AllText (fields_of record.now) → self.new.is_whole ≡ true
            → length self.old.further.voters.items < 2 ^ 32
            → self.new.further.places ≡ finite.insert self.old.further.places
            (trim (field (fields_of record.now) columns.voter)) (length self.old.further.voters.items) }
        ensures no_other_voter { ((columns : VoteColumns) → part ≡ Vote columns → self.old.of_votes.items ≡ [])
            → self.new.is_whole ≡ true → (self.new.further.voters.items ≡ self.old.further.voters.items)
            × (self.new.further.places ≡ self.old.further.places) }
        ensures voter_names { part ≡ Names Votes → self.old.keeps_voters ≡ true → AllText (fields_of record.now)
            → self.new.is_whole ≡ true
            → self.new.further.voter_names ≡ map (λ place. trim (field (fields_of record.now) place))
            (filter (λ place. nat_lt place (length (fields_of record.now))) self.new.of_votes.items) }
        ensures voter_places { part ≡ Names Votes → self.old.keeps_voters ≡ true → AllText (fields_of record.now)
            → self.new.is_whole ≡ true → self.new.of_votes.items ≡ filter (λ place. not (list_any
            (is_word (field (map trim (fields_of record.now)) place))
            (codes "voter_id" ∷ codes "vote" ∷ take place (map trim (fields_of record.now)))))
            (range_with_len 0 (length (fields_of record.now))) }
        ensures voter_columns { part ≢ Names Votes → self.new.is_whole ≡ true
            → (self.new.of_votes.items ≡ self.old.of_votes.items)
            × (self.new.further.voter_names ≡ self.old.further.voter_names) }
    {
        if self.is_whole && self.keep(record, part).is_err() {
            self.is_whole = false;
        }
    }

    fn refuse(&mut self, _record: &ByteRecord, _refusal: Refusal, _stage: &Stage)
        ensures { self.new ≡ self.old }
    {}

    fn end(&mut self, _election: &Election)
        ensures { self.new ≡ self.old }
    {}
}

/// The places of the columns in a row of column names whose names are not these, and did not come before.
fn further_places(alloc: Global, names: &ByteRecord, own: &[&str]) -> Result<Vec<usize>, NoMemory>
    ensures { All (λ name. map to_ascii_lowercase name ≡ name) (map (λ name. name.now) own.now)
        → AllText (fields_of names.now) → IfOk result (λ places. places.items
        ≡ new_columns (map (λ name. name.now) own.now) (map trim (fields_of names.now)) (length (fields_of names.now))) }
{
    let mut came = NamesSoFar::of(alloc, own)?;
    let places = new_places(alloc, names, &mut came);
    drop(came);
    places
}

/// The places of the columns in a row of column names whose names did not come before.
fn new_places(
    alloc: Global,
    names: &ByteRecord,
    came: &mut NamesSoFar,
) -> Result<Vec<usize>, NoMemory>
    ensures { (own : List (List ℕ)) → HaveCome came.old.came own → AllText (fields_of names.now)
        → IfOk result (λ places. places.items
        ≡ new_columns own (map trim (fields_of names.now)) (length (fields_of names.now))) }
{
    let mut places = Vec::new(alloc);
    for place in 0..names.len() {
        if came.take(text_at(names, place))? {
            places.push(place)?;
        }
    }
    Ok(places)
}

/// The fields of a record at these places; it passes over those that the record does not have.
fn fields_at(alloc: Global, record: &ByteRecord, places: &[usize]) -> Result<TextRow, NoMemory>
    ensures { AllText (fields_of record.now)
        → IfOk result (λ row. row ≡ texts_at (fields_of record.now) places.now) }
{
    let mut fields = TextRow::new(alloc);
    for place in places {
        if *place < record.len() {
            fields.push(alloc, text_at(record, *place))?;
        }
    }
    Ok(fields)
}

/// The text of a field without the white space at its ends; the empty text where the record ends before it.
fn text_at(record: &ByteRecord, place: usize) -> &str
    ensures { IsUtf8 (field (fields_of record.now) place)
        → result.now ≡ trim (field (fields_of record.now) place) }
{
    match str::from_utf8(bytes_at(record, place)) {
        Ok(text) => text.trim(),
        Err(_) => "",
    }
}

/// The bytes of a field; none where the record ends before it.
fn bytes_at(record: &ByteRecord, place: usize) -> &[u8]
    ensures { result.now ≡ field (fields_of record.now) place }
{
    match record.get(place) {
        Some(field) => field,
        None => b"",
    }
}
