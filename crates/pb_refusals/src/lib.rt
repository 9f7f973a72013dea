//! What the calls of the other crates answer where an allocation, a read or a write is refused, each in
//! turn, and where a text is cut or damaged. Beside the allocator that refuses, it has tests alone.
#![tactic(auto)]

#[cfg(test)]
mod checks;
#[cfg(test)]
mod counting;
#[cfg(test)]
mod desks;
#[cfg(test)]
mod elections;
#[cfg(test)]
mod files;
#[cfg(test)]
mod journals;
pub mod refusing;
#[cfg(test)]
mod values;
#[cfg(test)]
mod walk;
