//! Counts of an election that is changed: what a project had to cost, or how many further voters it needed,
//! to win.

pub mod answer;
pub mod change;
mod changing;
pub mod found;
mod frame;
pub mod loser;
pub mod losers;
mod numbered;
pub mod project_gate;
pub mod question;
mod ranked;
pub mod recount;
pub mod recounts;
mod search;

pub use answer::{one_change, what_if};
pub use change::{Change, Row, Verdict};
pub use found::{Found, WhatIf};
pub use loser::Loser;
pub use losers::what_if_losers;
pub use project_gate::ProjectGate;
pub use question::Question;
pub use recount::Recount;
pub use recounts::Recounts;
