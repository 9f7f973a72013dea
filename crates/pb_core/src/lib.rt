//! Money, projects, ballots and elections: the plain values that every other crate speaks of.
#![tactic(auto)]

pub mod answer;
pub mod ballot;
pub mod devices;
pub mod election;
pub mod entry;
pub mod gate;
pub mod laws;
pub mod money;
pub mod money_fault;
pub mod names;
pub mod no_memory;
pub mod order;
pub mod project;
pub mod request;
pub mod row_words;
pub mod terms;
pub mod voter;
pub mod voter_id;

pub use answer::Answer;
pub use ballot::Ballot;
pub use election::{Election, MOST_PROJECTS, MOST_VOTERS};
pub use entry::Entry;
pub use gate::{Gate, NoGate};
pub use money::{Money, put_amount};
pub use money_fault::MoneyFault;
pub use no_memory::NoMemory;
pub use order::ProjectOrder;
pub use project::Project;
pub use request::Request;
pub use terms::Terms;
pub use voter::Voter;
pub use voter_id::VoterId;
