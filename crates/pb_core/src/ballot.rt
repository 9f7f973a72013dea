//! The places of the projects that a voter approves.

ghost use Rattle.std.specs.Prelude.{◌≡◌, ◌↔◌, ◌==◌, ◌<◌, ℕ, All, List, IsTrue, IfOk, MatchOption, length, map};
ghost use Rattle.std.specs.Prelude.{slice_index};
ghost use Rattle.std.specs.List.{list_any};
ghost use Rattle.std.specs.List.Sorted.{IsStrictlyIncreasing};
ghost use Rattle.pb_core.specs.Ballot.{HasSameMembers};
ghost use Rattle.pb_core.specs.Order.{ballot_in};

use crate::no_memory::NoMemory;
use crate::order::ProjectOrder;
use std::alloc::{Allocator, Global};
use std::marker::Model;

/// The places of the projects that a voter approves, rising, none twice.
#[derive(Drop)]
pub struct Ballot<A: Allocator = Global> {
    places: Vec<u32, A>,
}

impl<A: Allocator> Model for Ballot<A> {
    ghost Value = { List ℕ };

    ghost view = { λ b. b.places.items };

    ghost invariant = { λ b. IsStrictlyIncreasing b.places.items };
}

impl<A: Allocator> Ballot<A> {
    /// A ballot that approves these places, in whatever order and however often they stand.
    pub fn of(alloc: A, places: &[u32]) -> Result<Ballot<A>, NoMemory>
        ensures members { IfOk result (HasSameMembers places.now) }
        ensures in_order { IsStrictlyIncreasing places.now → IfOk result (λ ballot. ballot ≡ places.now) }
    {
        let mut own = Vec::from_slice(alloc, places)?;
        if is_rising(places) {
            return Ok(Ballot { places: own });
        }
        make_rising(&mut own);
        Ok(Ballot { places: own })
    }

    /// A ballot that approves these places where they rise, none twice; `None` where they don't.
    pub fn rising(alloc: A, places: &[u32]) -> Result<Option<Ballot<A>>, NoMemory>
        ensures { IfOk result (λ found.
            MatchOption found (¬ IsStrictlyIncreasing places.now) (λ ballot. ballot ≡ places.now)) }
    {
        if !is_rising(places) {
            return Ok(None);
        }
        let places = Vec::from_slice(alloc, places)?;
        Ok(Some(Ballot { places }))
    }

    /// A ballot with the same places, in memory of its own.
    pub fn copy<B: Allocator>(&self, alloc: B) -> Result<Ballot<B>, NoMemory>
        ensures { IfOk result (λ ballot. ballot ≡ self.now) }
    {
        let places = Vec::from_slice(alloc, self.places())?;
        Ok(Ballot { places })
    }

    /// The approved places, from 0, rising.
    pub fn places(&self) -> &[u32]
        ensures places { result.now ≡ self.now }
        ensures is_ballot { IsStrictlyIncreasing self.now }
    {
        self.places.as_slice()
    }

    /// Whether the project at this place is approved.
    pub fn has(&self, place: u32) -> bool
        ensures { result ≡ list_any (λ p. p == place) self.now }
    {
        self.places.contains(&place)
    }

    /// Approves the same projects by their positions in this order.
    pub(crate) fn put_in_order<B: Allocator>(&mut self, order: &ProjectOrder<B>)
        requires { All (λ place. place < length order.now) self.old }
        ensures { self.new ≡ ballot_in order.now self.old }
    {
        exchange(&mut self.places, order.positions());
        make_rising(&mut self.places);
    }
}

/// Whether each place is above the one before it.
fn is_rising(places: &[u32]) -> bool
    ensures { IsTrue result ↔ IsStrictlyIncreasing places.now }
{
    for i in 1..places.len() {
        if places[i] <= places[i - 1] {
            return false;
        }
    }
    true
}

/// Puts for each place what stands there in a list.
fn exchange<A: Allocator>(places: &mut Vec<u32, A>, list: &[u32])
    requires { All (λ place. place < length list.now) places.old.items }
    ensures { places.new.items ≡ map (slice_index list.now) places.old.items }
{
    for i in 0..places.len() {
        let place = places[i];
        places[i] = list[place as usize];
    }
}

/// Puts the places in rising order, each once.
fn make_rising<A: Allocator>(places: &mut Vec<u32, A>)
    ensures rising { IsStrictlyIncreasing places.new.items }
    ensures members { HasSameMembers places.old.items places.new.items }
{
    places.sort_unstable();
    places.dedup();
}
