//! Whether winners leave room for another project that somebody supports.

ghost use Rattle.std.specs.Prelude.{◌≡◌, ◌<◌, ◌≤◌, ◌^◌, All, length};
ghost use Rattle.std.specs.List.{list_any, range_with_len};
ghost use Rattle.pb_reasons.specs.Inner.Raises.{leave_room_for};

use crate::winners::Winners;
use pb_core::money::Money;
use pb_core::voter::Voter;

/// Whether one of the first so many projects of the file is not among the winners and costs at most what is
/// left.
pub(crate) fn leave_room_for_any_project(winners: &Winners, projects: u32, left: Money) -> bool
    requires { projects ≤ length winners.now.0.projects }
    ensures { result ≡ list_any (leave_room_for winners.now left) (range_with_len 0 projects) }
{
    for place in 0..projects {
        if winners.leave_room_for(place, left) {
            return true;
        }
    }
    false
}

/// Whether one of these voters approves a project that is not among the winners and costs at most what is
/// left. It looks at no ballot after the first that approves one.
pub(crate) fn leave_room_for_any_voter(winners: &Winners, voters: &[Voter], left: Money) -> bool
    requires { All (λ v. All (λ place. place < length winners.now.0.projects) v.ballot) voters.now }
    ensures { result ≡ list_any (λ v. list_any (leave_room_for winners.now left) v.ballot) voters.now }
{
    for voter in voters {
        if leave_room_for_any_place(winners, voter.ballot.places(), left) {
            return true;
        }
    }
    false
}

/// Whether the project at one of these places is not among the winners and costs at most what is left.
fn leave_room_for_any_place(winners: &Winners, places: &[u32], left: Money) -> bool
    requires { All (λ place. place < length winners.now.0.projects) places.now }
    ensures { result ≡ list_any (leave_room_for winners.now left) places.now }
{
    for place in places {
        if winners.leave_room_for(*place, left) {
            return true;
        }
    }
    false
}
