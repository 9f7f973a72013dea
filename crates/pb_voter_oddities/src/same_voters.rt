//! Voters who are there twice but for a character that can't be seen, or for another form of an e-mail address.

use crate::prelude::*;
use pb_seen::changed::without_hidden;
use pb_seen::fields::has_byte;

/// The fewest addresses with a word behind `+` that are another voter's without it: one may be a couple's.
const FEWEST: usize = 2;

/// The voters whose ids may be those of others in another form: the place of each among all, and the row.
#[derive(Drop)]
pub struct SameVoters {
    alloc: Global,
    /// Those with a character at an end that can't be seen, and e-mail addresses with capital letters.
    marked: Vec<(u32, Mark)>,
    /// The e-mail addresses with a `+`.
    tagged: Vec<(u32, Mark)>,
}

impl SameVoters {
    /// No voter yet.
    pub fn new(alloc: Global) -> SameVoters {
        SameVoters {
            alloc,
            marked: Vec::new(alloc),
            tagged: Vec::new(alloc),
        }
    }

    /// Takes a row with an id of these bytes, which may begin and end with a letter or a digit.
    pub fn take(&mut self, row: &Row<'_>, (id, is_plain): (&[u8], bool)) -> Result<(), AllocError> {
        let is_address = has_byte(id, b'@');
        if (is_address && has_capital(row.id())) || (!is_plain && is_marked(row.id())) {
            self.marked.push((place_of(row), row.mark))?;
        }
        if is_address && has_byte(id, b'+') {
            self.tagged.push((place_of(row), row.mark))?;
        }
        Ok(())
    }

    /// Takes the end of the file, whose accepted rows give this election; the last may be odd.
    pub fn end(
        &self,
        election: &Election,
        last: Option<Odd>,
        found: &mut Oddities,
    ) -> Result<(), AllocError> {
        let Some(odd) = last else {
            return Ok(());
        };
        self.take_marked(election, odd.as_a(Oddity::HiddenCharacter), found)?;
        self.take_tagged(election, odd.as_a(Oddity::HiddenCharacter), found)
    }

    /// Takes the rows of voters who are there twice but for a character that can't be seen, or for capital letters of
    /// an e-mail address.
    fn take_marked(
        &self,
        election: &Election,
        odd: Odd,
        found: &mut Oddities,
    ) -> Result<(), AllocError> {
        if self.marked.is_empty() {
            return Ok(());
        }
        let mut ids = IdTable::new(self.alloc);
        let is_other = |id: &str| is_marked(id) || (id.contains('@') && has_capital(id));
        for voter in election
            .voters()
            .iter()
            .filter(|voter| !is_other(voter.id.text()))
        {
            let _ = ids.insert(self.alloc, voter.id.text(), 0)?;
        }
        for (place, mark) in &self.marked {
            let id = id_at(election, *place);
            let bare = bare_id(self.alloc, id)?;
            if ids.insert(self.alloc, bare.as_str(), 0)?.is_some() {
                let odd = odd.in_form(usize::from(!is_marked(id)));
                found.take(Odd { mark: *mark, ..odd });
            }
        }
        drop(ids);
        Ok(())
    }

    /// Takes the rows of voters whose e-mail address is another voter's but for a word behind `+`, if there are several.
    fn take_tagged(
        &self,
        election: &Election,
        odd: Odd,
        found: &mut Oddities,
    ) -> Result<(), AllocError> {
        if self.tagged.len() < FEWEST {
            return Ok(());
        }
        let mut ids = IdTable::new(self.alloc);
        let is_whole = |id: &str| id.contains('@') && !id.contains('+');
        for voter in election
            .voters()
            .iter()
            .filter(|voter| is_whole(voter.id.text()))
        {
            let id = bare_id(self.alloc, voter.id.text())?;
            let _ = ids.insert(self.alloc, id.as_str(), 0)?;
        }
        let mut rows = Vec::new(self.alloc);
        for (place, mark) in &self.tagged {
            let id = without_tag(self.alloc, id_at(election, *place))?;
            if ids.get(id.as_str()).is_some() {
                rows.push(*mark)?;
            }
        }
        drop(ids);
        for mark in rows.iter().filter(|_| rows.len() >= FEWEST) {
            let odd = odd.in_form(4);
            found.take(Odd { mark: *mark, ..odd });
        }
        drop(rows);
        Ok(())
    }
}

/// The place of a row's voter among all.
fn place_of(row: &Row<'_>) -> u32 {
    let voters = row.election.voters().len().saturating_sub(1);
    u32::try_from(voters).unwrap_or(u32::MAX)
}

/// The id of the voter at this place.
fn id_at(election: &Election, place: u32) -> &str {
    let voter = election.voters().get(place as usize);
    voter.map_or("", |voter| voter.id.text())
}

/// Whether an id has a character at an end that can't be seen, and is not of ASCII.
fn is_marked(id: &str) -> bool {
    let bytes = id.as_bytes();
    let is_foreign = |byte: Option<&u8>| byte.is_some_and(|byte| !byte.is_ascii());
    let has_some = is_foreign(bytes.first()) || is_foreign(bytes.last());
    has_some && without_hidden(id).len() < id.len()
}

/// Whether a text has a capital letter of ASCII.
fn has_capital(text: &str) -> bool {
    text.contains(|c: char| c.is_ascii_uppercase())
}

/// An id without the characters at its ends that can't be seen, and an e-mail address in small letters.
fn bare_id(alloc: Global, id: &str) -> Result<String, AllocError> {
    let bare = without_hidden(id);
    let mut out = String::new(alloc);
    for c in bare.chars() {
        out.push(if bare.contains('@') {
            c.to_ascii_lowercase()
        } else {
            c
        })?;
    }
    Ok(out)
}

/// An e-mail address in small letters without the word behind `+`; the empty text where it has none.
fn without_tag(alloc: Global, id: &str) -> Result<String, AllocError> {
    let (name, behind) = id.split_once('+').unwrap_or(("", ""));
    let (_, domain) = behind.split_once('@').unwrap_or(("", ""));
    let mut out = String::new(alloc);
    if name.is_empty() || name.contains('@') || domain.is_empty() {
        return Ok(out);
    }
    for part in [name, "@", domain] {
        for c in part.chars() {
            out.push(c.to_ascii_lowercase())?;
        }
    }
    Ok(out)
}
