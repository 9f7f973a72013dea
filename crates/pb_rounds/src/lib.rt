//! The Method of Equal Shares in rounds (Peters, Pierczynski and Skowron 2021), and its completion by raises
//! of the share.
#![tactic(auto)]

mod bounds;
pub mod by_votes;
pub mod count;
pub mod count_fault;
mod exhaustion;
mod front;
mod jump;
pub mod key;
pub mod laws;
pub mod measure;
pub mod options;
pub mod outcome;
mod pace;
mod pricing;
pub mod profile_named;
mod queue;
mod raise_end;
mod reach;
mod round;
pub mod rule;
pub mod rule_names;
mod rule_words;
mod run;
mod shortcut_laws;
mod side_by_side;
pub mod tie_order;
pub mod tie_rule;
mod trial;

pub use by_votes::most_votes_first;
pub use count::equal_shares;
pub use count_fault::CountFault;
pub use key::Key;
pub use measure::Measure;
pub use options::{Completion, CountOptions};
pub use outcome::{Elected, Outcome};
pub use rule::{FillUp, Rule};
pub use tie_rule::{TieKeys, TieRule};
