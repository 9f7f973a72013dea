//! The election that a desk leaves when it is shut.

ghost use Rattle.std.specs.Prelude.{◌≡◌, true, if◌then◌else◌, IfErr, IfOk, OnOk};
ghost use Rattle.pb_desk.specs.Desk.{closed_election, standing_of};

use super::Desk;
use crate::into_fault::IntoFault;
use pb_core::election::Election;
use std::alloc::Allocator;

impl<A: Allocator> Desk<A> {
    /// The election that a shut desk leaves: the one that it opened with (its budget, its projects and its
    /// limit on a ballot's length), and the voters whose ballots stand, in their order. A fault carries the
    /// desk back.
    pub fn into_election(self) -> Result<Election<A>, IntoFault<A>>
    where
        A: Copy,
        ensures ok { IfOk result (λ election. election ≡ closed_election self) }
        ensures shut { OnOk result ((standing_of self).is_shut ≡ true) }
        ensures err { IfErr result (λ fault. fault
            ≡ (if (standing_of self).is_shut then IntoFault.NoMemory self else IntoFault.NotShut self)) }
    {
        if !self.is_shut() {
            return Err(IntoFault::NotShut(self));
        }
        let Desk {
            version,
            room,
            ballots,
        } = self;
        match ballots.close() {
            Ok(election) => Ok(election),
            Err(ballots) => Err(IntoFault::NoMemory(Desk {
                version,
                room,
                ballots,
            })),
        }
    }
}
