//! Why an outcome is as it is: project by project who won and by which round, or how much was missing, and
//! voter by voter who paid what.
#![tactic(auto)]

mod beside_votes;
pub mod changes;
pub mod comparison;
mod content;
mod counted;
pub mod counted_election;
mod ending;
mod exchange;
mod fairness;
mod first_told;
mod kept;
pub mod laws;
pub mod money_paid;
pub mod money_teller;
mod numbers;
pub mod payment;
pub mod project_reason;
mod purse;
pub mod raise_end;
pub mod raise_limit;
mod reasons;
mod replay;
mod room;
mod rounds;
pub mod rule_row;
mod separated;
pub mod tie;
mod tie_queue;
mod tied_round;
pub mod told_tie;
pub mod totals;
pub mod voter_reason;
pub mod voter_teller;
pub mod winners;

pub use beside_votes::{compare_with_votes, elected_by_votes};
pub use changes::{
    Change, Found, Loser, ProjectGate, Question, Recount, Recounts, Row, Verdict, WhatIf,
    one_change, what_if, what_if_losers,
};
pub use comparison::{Comparison, compare};
pub use counted_election::CountedElection;
pub use fairness::{most_spent, needed};
pub use money_paid::MoneyPaid;
pub use money_teller::MoneyTeller;
pub use payment::Payment;
pub use project_reason::{Added, Ending, Lost, ProjectReason, Won};
pub use raise_end::{NextRaise, RaiseEnd};
pub use raise_limit::{Patience, RaiseLimit, find_raise_limit};
pub use rule_row::RuleRow;
pub use separated::{all_ties, answered_ties};
pub use tie::Tie;
pub use told_tie::{TieRow, ToldTie, ToldTies};
pub use totals::Totals;
pub use voter_reason::VoterReason;
pub use voter_teller::VoterTeller;
pub use winners::Winners;
