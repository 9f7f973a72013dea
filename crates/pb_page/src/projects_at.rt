//! Projects of a counted election, by place.

ghost use Rattle.std.specs.Prelude.{◌≡◌, ◌<◌, All, IfOk, length};
ghost use Rattle.pb_page.specs.Page.{beside};

use pb_core::no_memory::NoMemory;
use pb_reasons::{CountedElection, Winners};
use std::alloc::Global;

/// Projects of a counted election, by place.
#[derive(Clone, Copy)]
pub struct ProjectsAt<'a> {
    pub count: &'a CountedElection,
    pub places: &'a [u32],
    ghost known: { All (λ place. place < length count.now.election.projects) places.now },
}

impl<'a> ProjectsAt<'a> {
    /// The places of those that are none of the projects at these places.
    pub(crate) fn beside(&self, alloc: Global, others: &[u32]) -> Result<Vec<u32>, NoMemory>
        ensures { IfOk result (λ places. places.items ≡ beside others.now self.now.places.now) }
    {
        let others = Winners::of(alloc, self.count.election(), others)?;
        let places = beside(alloc, &others, self.places);
        drop(others);
        places
    }
}

/// Those of these places that are none of the winners.
fn beside(alloc: Global, winners: &Winners, places: &[u32]) -> Result<Vec<u32>, NoMemory>
    requires { All (λ place. place < length winners.now.0.projects) places.now }
    ensures { IfOk result (λ others. others.items ≡ beside winners.now.1 places.now) }
{
    let mut others = Vec::new(alloc);
    for place in places {
        if !winners.has(*place) {
            others.push(*place)?;
        }
    }
    Ok(others)
}
