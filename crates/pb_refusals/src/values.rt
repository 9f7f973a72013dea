//! Values that hold memory: an amount's text, ids, ballots and copies.

use crate::checks::are;
use crate::elections::id;
use crate::walk::{Call, Heap, walk};
use pb_core::{Ballot, Money, NoMemory, Request, VoterId};
use pb_rows::{read_place_list, write_places};
use std::process::Abort;

/// The places 0 to 39 in no order, 7 apart: more than a sort arranges without memory.
const MIXED: [u32; 40] = [
    0, 7, 14, 21, 28, 35, 2, 9, 16, 23, 30, 37, 4, 11, 18, 25, 32, 39, 6, 13, 20, 27, 34, 1, 8, 15,
    22, 29, 36, 3, 10, 17, 24, 31, 38, 5, 12, 19, 26, 33,
];

/// The calls whose allocations are refused.
enum ValueCall {
    Text,
    Id,
    Places,
    CopiedId,
    CopiedPlaces,
    CopiedRequest,
    PlacesRead,
    PlacesWritten,
}

impl Call for ValueCall {
    fn run<R: Abort>(&self, rt: &R, heap: Heap<'_>, nth: u64) -> Result<bool, NoMemory> {
        match self {
            ValueCall::Text => text(heap, nth),
            ValueCall::Id => voter_id(heap, nth),
            ValueCall::Places => ballot(heap, nth),
            ValueCall::CopiedId => copied_id(rt, heap, nth),
            ValueCall::CopiedPlaces => copied_ballot(rt, heap, nth),
            ValueCall::CopiedRequest => copied_request(rt, heap, nth),
            ValueCall::PlacesRead => places_read(heap, nth),
            ValueCall::PlacesWritten => places_written(heap, nth),
        }
    }
}

fn text(heap: Heap<'_>, nth: u64) -> Result<bool, NoMemory> {
    heap.refuse(nth);
    Ok(Money(u64::MAX).text(heap)?.as_str() == "184467440737095516.15")
}

fn voter_id(heap: Heap<'_>, nth: u64) -> Result<bool, NoMemory> {
    heap.refuse(nth);
    match VoterId::new(heap, " ann ")? {
        Some(id) => Ok(id.text() == "ann"),
        None => Ok(false),
    }
}

fn ballot(heap: Heap<'_>, nth: u64) -> Result<bool, NoMemory> {
    heap.refuse(nth);
    Ok(counts_up(Ballot::of(heap, &MIXED)?.places()))
}

/// Whether these are the places 0 to 39 in order.
fn counts_up(places: &[u32]) -> bool {
    places.len() == 40
        && places
            .iter()
            .enumerate()
            .all(|(i, place)| *place as usize == i)
}

fn copied_id(rt: &impl Abort, heap: Heap<'_>, nth: u64) -> Result<bool, NoMemory> {
    let ann = id(rt, heap, "ann");
    heap.refuse(nth);
    let copy = ann.copy(heap);
    let answer = match &copy {
        Ok(copy) => Ok(copy.text() == "ann"),
        Err(NoMemory) => Err(NoMemory),
    };
    drop(copy);
    drop(ann);
    answer
}

fn copied_ballot(rt: &impl Abort, heap: Heap<'_>, nth: u64) -> Result<bool, NoMemory> {
    let ballot = Ballot::of(heap, &MIXED).expect(rt, "memory");
    heap.refuse(nth);
    let copy = ballot.copy(heap);
    let answer = match &copy {
        Ok(copy) => Ok(counts_up(copy.places())),
        Err(NoMemory) => Err(NoMemory),
    };
    drop(copy);
    drop(ballot);
    answer
}

/// Whether ann asks to replace her ballot by one of the places 0 and 1.
fn is_the_request(request: &Request<Heap<'_>>) -> bool {
    match request {
        Request::Replace(voter, ballot) => {
            voter.text() == "ann" && ballot.places() == [0, 1].as_slice()
        }
        _ => false,
    }
}

fn copied_request(rt: &impl Abort, heap: Heap<'_>, nth: u64) -> Result<bool, NoMemory> {
    let ballot = Ballot::of(heap, &[0, 1]).expect(rt, "memory");
    let request = Request::Replace(id(rt, heap, "ann"), ballot);
    heap.refuse(nth);
    let copy = request.copy(heap);
    let answer = match &copy {
        Ok(copy) => Ok(is_the_request(copy)),
        Err(NoMemory) => Err(NoMemory),
    };
    drop(copy);
    drop(request);
    answer
}

fn places_read(heap: Heap<'_>, nth: u64) -> Result<bool, NoMemory> {
    let mut places = Vec::new(heap);
    heap.refuse(nth);
    Ok(read_place_list("0,2,9", &mut places)? && are(places.as_slice(), &[0, 2, 9]))
}

fn places_written(heap: Heap<'_>, nth: u64) -> Result<bool, NoMemory> {
    let mut text = String::new(heap);
    heap.refuse(nth);
    write_places(&[0, 2, 9], &mut text)?;
    Ok(text.as_str() == "0,2,9")
}

const CALLS: &[ValueCall] = &[
    ValueCall::Text,
    ValueCall::Id,
    ValueCall::Places,
    ValueCall::CopiedId,
    ValueCall::CopiedPlaces,
    ValueCall::CopiedRequest,
    ValueCall::PlacesRead,
    ValueCall::PlacesWritten,
];

#[test]
fn values_are_made_or_memory_is_refused(rt: HostRuntime) {
    for call in CALLS {
        walk(&rt, rt.alloc(), call);
    }
}
