//! Voters who are there twice by a phone number: with the code of the country, and without it or with another mark of it.

use crate::prelude::*;

/// The fewest digits of a phone number without a code, and with one.
const FEWEST: usize = 7;

const FEWEST_CODED: usize = 10;

/// The most digits of a code.
const LONGEST_CODE: usize = 3;

/// The voters whose ids are phone numbers with a code.
#[derive(Drop)]
pub struct Phones {
    alloc: Global,
    /// The place of each of them among all voters, and the row.
    coded: Vec<(u32, Odd)>,
}

impl Phones {
    /// No voter yet.
    pub fn new(alloc: Global) -> Phones {
        Phones {
            alloc,
            coded: Vec::new(alloc),
        }
    }

    /// Takes a row that is accepted, with an id of these bytes.
    pub fn take(&mut self, row: &Row<'_>, id: &[u8]) -> Result<(), AllocError> {
        let is_coded = matches!(id, [b'+', ..] | [b'0', b'0', ..]);
        if is_coded && id.len() > FEWEST_CODED {
            let voters = row.election.voters().len().saturating_sub(1);
            let place = u32::try_from(voters).unwrap_or(u32::MAX);
            let odd = row.odd(Oddity::HiddenCharacter).in_form(3);
            self.coded.push((place, odd))?;
        }
        Ok(())
    }

    /// Takes the end of the file, whose accepted rows give this election.
    pub fn end(&self, election: &Election, found: &mut Oddities) -> Result<(), AllocError> {
        if self.coded.is_empty() {
            return Ok(());
        }
        let mut bare = IdTable::new(self.alloc);
        for voter in election.voters() {
            let number = digits_of(self.alloc, voter.id.text())?;
            if number.len() >= FEWEST && !is_coded(voter.id.text()) {
                let own = number.as_str().trim_start_matches('0');
                let _ = bare.insert(self.alloc, own, 0)?;
            }
        }
        let mut coded = IdTable::new(self.alloc);
        for (place, odd) in &self.coded {
            let voter = election.voters().get(*place as usize);
            let number = digits_of(self.alloc, voter.map_or("", |voter| voter.id.text()))?;
            let number = number.as_str().trim_start_matches('0');
            if number.len() >= FEWEST_CODED {
                let is_again = coded.insert(self.alloc, number, 0)?.is_some();
                let is_bare = |code: usize| {
                    let own = number.get(code..).unwrap_or("");
                    own.len() >= FEWEST && bare.get(own).is_some()
                };
                if is_again || (1..=LONGEST_CODE).any(is_bare) {
                    found.take(*odd);
                }
            }
        }
        drop(coded);
        drop(bare);
        Ok(())
    }
}

/// Whether a phone number begins with the mark of a code.
fn is_coded(id: &str) -> bool {
    id.starts_with("+") || id.starts_with("00")
}

/// The digits of a phone number; none where there is something else in it than signs between them.
fn digits_of(alloc: Global, id: &str) -> Result<String, AllocError> {
    let mut digits = String::new(alloc);
    for c in id.chars() {
        if c.is_ascii_digit() {
            digits.push(c)?;
        } else if !"+ -.()/".contains(c) {
            return Ok(String::new(alloc));
        }
    }
    Ok(digits)
}
