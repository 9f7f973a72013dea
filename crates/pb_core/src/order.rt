//! Orders of the projects of an election.

ghost use Rattle.std.specs.Prelude.{◌≡◌, ◌<◌, ◌≤◌, ℕ, IfOk, List, length, map, slice_index};
ghost use Rattle.std.specs.List.{range_with_len};
ghost use Rattle.pb_core.specs.Election.{most_projects};
ghost use Rattle.pb_core.specs.Inner.Order.{AreBack};
ghost use Rattle.pb_core.specs.Order.{IsOrder, position_in};

use crate::no_memory::NoMemory;
use std::alloc::{Allocator, Global};
use std::marker::Model;

/// An order of the projects of an election: the place of the project at each position, each place once.
#[derive(Drop)]
pub struct ProjectOrder<A: Allocator = Global> {
    places: Vec<u32, A>,
    /// For each place, the position at which it stands.
    positions: Vec<u32, A>,
}

impl<A: Allocator> Model for ProjectOrder<A> {
    ghost use Rattle.std.specs.Prelude.{◌≤◌, ℕ, List, length};
    ghost use Rattle.pb_core.specs.Election.{most_projects};
    ghost use Rattle.pb_core.specs.Inner.Order.{AreBack};
    ghost use Rattle.pb_core.specs.Order.{IsOrder};

    ghost Value = { List ℕ };

    ghost view = { λ o. o.places.items };

    ghost invariant = { λ o. (length o.places.items ≤ most_projects) × IsOrder o.places.items
        × AreBack o.places.items o.positions.items };
}

impl<A: Allocator> ProjectOrder<A> {
    /// The order in which these places stand.
    pub fn of(alloc: A, places: Vec<u32, A>) -> Result<ProjectOrder<A>, NoMemory>
    where
        A: Copy,
        requires few { length places.items ≤ most_projects }
        requires each_once { IsOrder places.items }
        ensures { IfOk result (λ order. order ≡ places.items) }
    {
        let positions = positions_of(alloc, places.as_slice())?;
        Ok(ProjectOrder { places, positions })
    }

    /// The places, from 0, in this order.
    pub fn places(&self) -> &[u32]
        ensures places { result.now ≡ self.now }
        ensures each_once { IsOrder self.now }
        ensures few { length self.now ≤ most_projects }
    {
        self.places.as_slice()
    }

    /// The position, from 0, at which this order has a place.
    pub fn position(&self, place: u32) -> u32
        requires { place < length self.now }
        ensures position { result ≡ position_in self.now place }
        ensures within { result < length self.now }
        ensures has_it { slice_index self.now result ≡ place }
    {
        self.positions[place as usize]
    }

    /// The order back: in it stands, for each place, the position at which this order has it.
    pub fn back(&self, alloc: A) -> Result<ProjectOrder<A>, NoMemory>
    where
        A: Copy,
        ensures { IfOk result (λ order. order
            ≡ map (position_in self.now) (range_with_len 0 (length self.now))) }
    {
        let places = Vec::from_slice(alloc, self.positions.as_slice())?;
        let positions = Vec::from_slice(alloc, self.places.as_slice())?;
        Ok(ProjectOrder { places, positions })
    }

    /// For each place, the position at which this order has it.
    pub(crate) fn positions(&self) -> &[u32]
        ensures back { AreBack self.now result.now }
        ensures each_once { IsOrder self.now }
    {
        self.positions.as_slice()
    }
}

/// For each place, the position at which it stands among these.
fn positions_of<A: Allocator>(alloc: A, places: &[u32]) -> Result<Vec<u32, A>, NoMemory>
    requires few { length places.now ≤ most_projects }
    requires each_once { IsOrder places.now }
    ensures { IfOk result (λ positions. AreBack places.now positions.items) }
{
    let mut positions = vec![in alloc; 0; places.len()]?;
    for position in 0..places.len() {
        let place = places[position];
        positions[place as usize] = position as u32;
    }
    Ok(positions)
}
