//! The method by which winners are chosen.

/// The method by which winners are chosen.
#[derive(Clone, Copy)]
pub enum Method {
    /// Each voter has an equal share.
    EqualShares,
    /// Nobody has a share: the project with the most votes wins first, where it fits.
    MostVotes,
}

const EQUAL_SHARES: &str = "equal-shares";

const MOST_VOTES: &str = "most-votes";

/// The methods by their names, the standard one first.
pub(crate) const METHODS: &[&str] = &[EQUAL_SHARES, MOST_VOTES];

impl Method {
    /// The method with this name, if one has it.
    pub fn named(name: &str) -> Option<Method> {
        if name == EQUAL_SHARES {
            Some(Method::EqualShares)
        } else if name == MOST_VOTES {
            Some(Method::MostVotes)
        } else {
            None
        }
    }
}
