//! Projects with one name: whose ids are nearly the same, of which votes name one alone, or with one cost too.

use crate::prelude::*;
use pb_seen::changed::plain;

/// The projects, by their ids and names in plain form.
#[derive(Drop)]
pub struct Twins {
    alloc: Global,
    places: IdTable,
    /// Each of them as one that may be odd, and what it costs.
    rows: Vec<(Odd, Option<Money>)>,
    /// The first project of each name and part of the city, and those that have the same as a first one.
    names: IdTable,
    again: Vec<(u32, u32)>,
}

impl Twins {
    /// No project yet.
    pub fn new(alloc: Global) -> Twins {
        Twins {
            alloc,
            places: IdTable::new(alloc),
            rows: Vec::new(alloc),
            names: IdTable::new(alloc),
            again: Vec::new(alloc),
        }
    }

    /// Takes a project with this name, in this part of the city and at this place. One with a name is odd if an earlier one has
    /// its name and its cost, and an id that differs only by zeros before a number, white space or case.
    pub fn take(
        &mut self,
        row: &Row<'_>,
        name: &str,
        (district, where_it_is): (&str, &str),
        found: &mut Oddities,
    ) -> Result<(), AllocError> {
        let odd = row.odd(Oddity::RepeatedKey).in_form(1);
        let odd = odd.at(odd.id_place);
        let place = u32::try_from(self.rows.len()).unwrap_or(u32::MAX);
        let cost = Money::read(row.value()).ok();
        self.rows.push((odd, cost))?;
        if name.is_empty() {
            return Ok(());
        }
        let name = plain(self.alloc, name)?;
        let key = joined(self.alloc, plain(self.alloc, row.id())?, name.as_str())?;
        let before = self.places.insert(self.alloc, key.as_str(), place)?;
        match before.and_then(|it| self.rows.get(it as usize).copied()) {
            Some((first, its)) if its == cost => found.take(odd.repeats(first)),
            _ => {}
        }
        let key = joined(self.alloc, joined(self.alloc, name, district)?, where_it_is)?;
        if let Some(first) = self.names.insert(self.alloc, key.as_str(), place)? {
            self.again.push((first, place))?;
        }
        Ok(())
    }

    /// Takes the end of the file, in which so many ballots approve each project: one with the name of another is odd if votes
    /// name that one alone, or both, and both have one cost.
    pub fn end(&self, supporters: &[u64], found: &mut Oddities) {
        let is_named = |place: u32| supporters
            .get(place as usize)
            .is_some_and(|count| *count > 0);
        for (first, place) in &self.again {
            let (named, other) = if is_named(*first) {
                (*first, *place)
            } else {
                (*place, *first)
            };
            let rows = (self.rows.get(named as usize), self.rows.get(other as usize));
            match rows {
                (Some((one, _)), Some((odd, _))) if is_named(named) && !is_named(other) => {
                    found.take(odd.in_form(3).repeats(*one))
                }
                (Some((one, cost)), Some((odd, its))) if is_named(other) && cost == its => {
                    if !found.tells_of(*odd) {
                        found.take(odd.in_form(8).repeats(*one));
                    }
                }
                _ => {}
            }
        }
    }
}

/// Two texts, with a line end between them.
fn joined(alloc: Global, mut one: String, other: &str) -> Result<String, AllocError> {
    one.push('\n')?;
    one.push_str(other)?;
    Ok(one)
}
