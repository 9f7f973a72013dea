//! Voters who are there twice but for capital letters, signs, or letters that look like digits.

use crate::prelude::*;
use pb_oddities::kept::kept_in;
use pb_seen::fields::has_byte;

/// The most rows that a few are, one in how many voters they are at most, and how many are few among this many.
const MOST: u64 = 1_000;

const ONE_IN: u64 = 50;

const FEW: u64 = 2;

const AMONG: u64 = 8;

/// The fewest bytes of such an id, and the fewest digits of one whose signs between digits say nothing.
const SHORTEST: usize = 3;

const FEWEST_DIGITS: usize = 6;

/// What an id may have, each a bit: letters like digits, small ones, capital ones, dashes, other signs.
const BITS: [usize; 5] = [1, 2, 4, 8, 16];

const LIKE_DIGITS: usize = 1;

/// The voters whose ids have what few have, or lack what nearly all have.
#[derive(Drop)]
pub struct AlikeVoters {
    alloc: Global,
    /// How many ids have each set of these bits.
    counts: [u64; 32],
    /// The first voters with each set: the place among all, the set, and the row.
    rows: Vec<(usize, usize, Mark)>,
}

impl AlikeVoters {
    /// No voter yet.
    pub fn new(alloc: Global) -> AlikeVoters {
        AlikeVoters {
            alloc,
            counts: [0; 32],
            rows: Vec::new(alloc),
        }
    }

    /// Takes a row with an id of these bytes; e-mail addresses are another matter.
    pub fn take(&mut self, row: &Row<'_>, id: &[u8]) -> Result<(), AllocError> {
        let set = set_of(id);
        if let Some(count) = self.counts.get_mut(set) {
            *count = count.saturating_add(1);
            if *count <= MOST && id.len() >= SHORTEST && !has_byte(id, b'@') {
                let place = row.election.voters().len().saturating_sub(1);
                self.rows.push((place, set, row.mark))?;
            }
        }
        Ok(())
    }

    /// How many ids have this bit, or lack it.
    fn count_of(&self, bit: usize, has_it: bool) -> u64 {
        let sets = self.counts.iter().enumerate();
        let those = sets.filter(|(set, _)| (set & bit != 0) == has_it);
        those.fold(0, |sum: u64, (_, count)| sum.saturating_add(*count))
    }

    /// Whether few ids of so many have a bit of this set, or few lack one that it lacks.
    fn is_rare(&self, set: usize, voters: u64) -> bool {
        let is_few = |count: u64| {
            (count <= FEW && voters >= AMONG)
                || (count <= MOST && count.saturating_mul(ONE_IN) <= voters)
        };
        BITS.iter()
            .any(|bit| is_few(self.count_of(*bit, set & *bit != 0)))
    }

    /// Which sets are rare among so many voters.
    fn rare_sets(&self, voters: u64) -> [bool; 32] {
        let mut rare = [false; 32];
        for (set, is_rare) in rare.iter_mut().enumerate() {
            *is_rare = self.is_rare(set, voters);
        }
        rare
    }

    /// Takes the end of the file, whose accepted rows give this election; the last row is odd so. Such a voter is odd whose id
    /// is another one in plain form.
    pub fn end(
        &self,
        election: &Election,
        last: Odd,
        found: &mut Oddities,
    ) -> Result<(), AllocError> {
        let rare = self.rare_sets(election.voters().len() as u64);
        let (mut keys, mut twins) = (IdTable::new(self.alloc), Vec::new(self.alloc));
        let mut are_some = false;
        twins.resize(self.rows.len(), false)?;
        for (number, (place, set, _)) in self.rows.iter().enumerate() {
            if rare.get(*set) != Some(&true) {
                continue;
            }
            are_some = true;
            for is_like in [false, true] {
                let id = election
                    .voters()
                    .get(*place)
                    .map_or("", |voter| voter.id.text());
                let key = key_of(self.alloc, id, is_like)?;
                let number = u32::try_from(number).unwrap_or(u32::MAX);
                let _ = kept_in(&mut keys, self.alloc, key.as_str(), number)?;
            }
        }
        let voters = election.voters().iter().enumerate();
        for (place, voter) in voters.filter(|_| are_some) {
            for is_like in [false, true] {
                let key = key_of(self.alloc, voter.id.text(), is_like)?;
                let number = keys.get(key.as_str()).unwrap_or(u32::MAX) as usize;
                if let (Some(row), Some(twin)) = (self.rows.get(number), twins.get_mut(number)) {
                    *twin |= row.0 != place;
                }
            }
        }
        drop(keys);
        for ((_, _, mark), is_twin) in self.rows.iter().zip(&twins) {
            let odd = last.as_a(Oddity::HiddenCharacter).in_form(5);
            let odd = Odd { mark: *mark, ..odd };
            if *is_twin && !found.tells_of(odd) {
                found.take(odd);
            }
        }
        drop(twins);
        Ok(())
    }
}

/// What an id has.
fn set_of(id: &[u8]) -> usize {
    let mut set = 0usize;
    for byte in id {
        set |= match *byte {
            b'O' | b'o' | b'I' | b'l' => LIKE_DIGITS,
            b'a'..=b'z' => 2,
            b'A'..=b'Z' => 4,
            b'-' => 8,
            b' ' => 16,
            byte if byte.is_ascii_punctuation() => 16,
            _ => 0,
        };
    }
    set
}

/// An id with digits in place of letters that look like them; or in small letters and without signs, but for those between
/// the digits of short numbers.
fn key_of(alloc: Global, id: &str, is_like: bool) -> Result<String, AllocError> {
    let mut key = String::new(alloc);
    let digits = id.chars().filter(|c| c.is_ascii_digit()).count();
    let (mut was_digit, mut is_apart) = (false, false);
    for c in id.chars() {
        let is_digit = c.is_ascii_digit();
        match c {
            'O' | 'o' if is_like => key.push('0')?,
            'I' | 'l' if is_like => key.push('1')?,
            c if is_like => key.push(c)?,
            c if c == ' ' || c.is_ascii_punctuation() => is_apart = was_digit
                && digits < FEWEST_DIGITS,
            c => {
                if is_apart && is_digit {
                    key.push('-')?;
                }
                key.push(c.to_ascii_lowercase())?;
                (was_digit, is_apart) = (is_digit, false);
            }
        }
    }
    Ok(key)
}
