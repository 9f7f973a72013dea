//! The pieces of work that workers share.

use crate::supporters::Supporters;
use pb_core::gate::Gate;
use pb_core::money::Money;
use std::alloc::Allocator;

/// The pieces of work that workers share: piece i is pricing `projects[i]` at what is left to each voter.
#[derive(Drop)]
pub struct Pieces<'a, G: Gate, B: Allocator> {
    /// What a worker meets before each piece.
    pub gate: &'a G,
    /// The places of projects, from 0; a place may repeat.
    pub projects: &'a [u32],
    /// Who supports each project.
    pub supporters: &'a Supporters<B>,
    /// What is left to each voter.
    pub rests: &'a [Money],
}
