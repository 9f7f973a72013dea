//! The desk of one clerk: its ballots, its journal, and the audit of a journal.
//!
//! A desk opens with an election, whose voters have their ballots from the opening on. Each request gets
//! the first answer that applies (`answer_of`; docs/desk.md has the table), and only `Done` changes
//! anything. TooLong is the answer to a ballot of more places than the election allows; a desk of version 1
//! knows no such limit, and the ballots that stand at the opening are not checked against it.
//!
//! Every answer stands in the journal. Its text has a row for each entry, with six fields and `;` between
//! two, after the row `journal;2` where the desk has version 2: the number, from 1; the clerk, 0 to 63;
//! `cast`, `replace`, `withdraw` or `shut`; the voter's id; the places of the ballot, rising, with `,`
//! between two; and the answer, as `done` or `unknown-place 2`. A field is quoted only where it has to be.
//!
//! Who has the election and the journal replays it, and must come to the same ballots: an audit accepts
//! exactly the rows of a legal journal that fits the room. It can't tell a journal that was cut at a
//! row's end, which is a shorter legal one, nor whether a clerk wrote down what a voter wanted.
#![tactic(auto)]

pub mod answer_text;
pub mod audit_fault;
pub mod audit_refused;
mod audit_watch;
mod ballot_box;
mod ballot_list;
pub mod desk;
pub mod desk_fault;
mod entry_writer;
mod filed_ballots;
pub mod into_fault;
mod journal_audit;
mod journal_rows;
pub mod laws;
pub mod request_fields;
pub mod row_flaw;
mod row_reader;
mod source;
pub mod standing_ballots;
pub mod start_fault;
mod version;
pub mod write_fault;

pub use audit_fault::AuditFault;
pub use audit_refused::AuditRefused;
pub use audit_watch::{AuditWatch, NoAuditWatch};
pub use desk::{Desk, MOST_CLERKS};
pub use desk_fault::DeskFault;
pub use into_fault::IntoFault;
pub use journal_audit::{audit, audit_or_hand_back, audit_records};
pub use request_fields::{RequestFields, Strictness, read_request};
pub use standing_ballots::StandingBallots;
pub use start_fault::StartFault;
pub use version::Version;
pub use write_fault::WriteFault;
