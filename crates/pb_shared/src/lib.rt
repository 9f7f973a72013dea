//! One desk that several clerks' threads share.
//!
//! The desk lies in a slot of a table, under a lock word. A clerk's call tries the lock once, by one
//! exchange: where another clerk holds it, the call answers Busy, and nothing waits. Who wins it takes the
//! desk out, serves on it, brings it back, publishes the entry by one store to the front word, and frees the
//! lock. All calls together make one journal. Each clerk sees a growing front of it, which is legal; its own
//! calls stand in it in their order, each once.
//!
//! Nothing is promised of who gets the lock, or when.
#![tactic(auto)]

pub mod busy;
pub mod clerk;
mod desk_rule;
pub mod note;
mod seat_view;
pub mod share_fault;
pub mod shared_desk;
pub mod shared_fault;
pub mod unfinished;

pub use busy::Busy;
pub use clerk::Clerk;
pub use note::Note;
pub use share_fault::ShareFault;
pub use shared_desk::SharedDesk;
pub use shared_fault::SharedFault;
pub use unfinished::Unfinished;
