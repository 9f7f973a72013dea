//! What is found of a project that lost.

use crate::changes::found::WhatIf;

/// A project that lost, and what is found of its cost and of further voters.
#[derive(Clone, Copy)]
pub struct Loser {
    /// Its place in the file, from 0.
    pub place: u32,
    pub found: WhatIf,
}
