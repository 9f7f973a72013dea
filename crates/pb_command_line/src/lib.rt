//! The command line: the commands and options that the program knows, and what given arguments ask for.
#![tactic(auto)]

mod address;
mod argument;
mod argument_group;
mod arguments;
mod asked;
mod bylaw;
mod command_line;
mod commands;
pub mod currency;
mod decider;
mod elsewhere;
mod flaw;
mod helps;
mod method;
mod numbers;
pub mod parse;
mod rule;
mod said_rule;
pub mod task;
mod text_source;
mod two_rules;

pub use address::is_link;
pub use command_line::PROGRAM;
pub use decider::Decider;
pub use method::Method;
pub use parse::Parsed;
pub use rule::refuses_page;
pub use said_rule::{SaidRule, most_votes_beside};
pub use task::{
    Admits, Asked, AuditRun, Ballots, BallotsRun, CheckRun, CompareRun, CountRun, DeskRun,
    OneChange, PageRun, ServeRun, Task, WhatIfRun, Whose,
};
pub use text_source::TextSource;
