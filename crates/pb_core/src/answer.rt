//! What the desk answers.

/// What the desk answers to a request. Any answer but `Done` changes neither the ballots nor whether
/// the desk is shut.
#[derive(Clone, Copy, Debug, PartialEq, Eq)]
pub enum Answer {
    /// The request was carried out.
    Done,
    /// The desk is shut.
    DeskShut,
    /// No project has this place, the first such place of the ballot, from 0.
    UnknownPlace(u32),
    /// The voter has a ballot already.
    AlreadyCast,
    /// The voter has no ballot.
    NoBallot,
    /// As many ballots stand as an election may have voters.
    VoterLimit,
    /// The ballot has more places than the election allows.
    TooLong,
}
