//! What a clerk asks of the desk.

ghost use Rattle.std.specs.Prelude.{◌≡◌, IfOk};
ghost use Rattle.pb_core.specs.Request.{asked};

use crate::ballot::Ballot;
use crate::no_memory::NoMemory;
use crate::voter_id::VoterId;
use std::alloc::{Allocator, Global};

/// What a clerk asks of the desk.
#[derive(Drop)]
pub enum Request<A: Allocator = Global> {
    /// A first ballot for this voter.
    Cast(VoterId<A>, Ballot<A>),
    /// Another ballot in the place of the one that this voter has.
    Replace(VoterId<A>, Ballot<A>),
    /// This voter's ballot taken back.
    Withdraw(VoterId<A>),
    /// No more changes.
    Shut,
}

impl<A: Allocator> Request<A> {
    /// An equal request, with memory of its own.
    pub fn copy<B: Allocator>(&self, alloc: B) -> Result<Request<B>, NoMemory>
    where
        B: Copy,
        ensures { IfOk result (λ request. asked request ≡ asked self.now) }
    {
        match self {
            Request::Cast(voter, ballot) => {
                let (voter, ballot) = copy_both(voter, ballot, alloc)?;
                Ok(Request::Cast(voter, ballot))
            }
            Request::Replace(voter, ballot) => {
                let (voter, ballot) = copy_both(voter, ballot, alloc)?;
                Ok(Request::Replace(voter, ballot))
            }
            Request::Withdraw(voter) => Ok(Request::Withdraw(voter.copy(alloc)?)),
            Request::Shut => Ok(Request::Shut),
        }
    }
}

/// Equals of both, with memory of their own.
fn copy_both<A: Allocator, B: Allocator>(
    voter: &VoterId<A>,
    ballot: &Ballot<A>,
    alloc: B,
) -> Result<(VoterId<B>, Ballot<B>), NoMemory>
where
    B: Copy,
    ensures { IfOk result (λ both. (both.0 ≡ voter.now) × (both.1 ≡ ballot.now)) }
{
    let voter = voter.copy(alloc)?;
    let ballot = ballot.copy(alloc)?;
    Ok((voter, ballot))
}
