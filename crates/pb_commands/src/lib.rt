//! The commands `count`, `projects`, `voters`, `fairness`, `compare`, `ties`, `export`, `desk`, `audit`,
//! `ballots` and `check`, from bytes to bytes.
//!
//! A run reads its inputs in their order, makes its whole text in memory, and then writes it: so a run that
//! is refused has written nothing. Each refusal has one line and one status.
#![tactic(auto)]

mod ballots_table;
mod beside_table;
mod counting;
mod decide;
mod decided_name;
pub mod demand;
mod digested;
mod export_text;
mod fairness_table;
mod history_table;
mod in_units;
mod input_fault;
mod inputs;
pub mod laws;
mod losers_table;
mod projects_table;
mod report;
mod rules_table;
pub mod run_audit;
pub mod run_ballots;
pub mod run_beside;
pub mod run_check;
pub mod run_count;
pub mod run_decided;
pub mod run_decided_audit;
pub mod run_decided_export;
pub mod run_desk;
pub mod run_export;
pub mod run_history;
pub mod run_table;
pub mod run_ties;
pub mod table;
pub mod table_laws;
mod ties_table;
mod voters_table;
pub mod what_if_rows;
mod won_by_both;

pub use counting::{Counting, count_inputs};
pub use decide::{Decide, DecidedBy, DecidedCount, decided_inputs};
pub use decided_name::CountedBy;
pub use demand::Demand;
pub use digested::{Digests, write_digested};
pub use inputs::{Inputs, election_of};
pub use losers_table::losers_text;
pub use pb_faults::{
    AppFault, BAD_ARGUMENTS, ServingFault, WordsPlace, WordsRefusal, rows_status, write_out,
};
pub use pb_reasons::CountedElection;
pub use table::Table;
pub use what_if_rows::{Changes, WhatIfFault, what_if_text};
