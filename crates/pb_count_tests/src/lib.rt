//! Tests of all that a count needs: values, the rows of texts, the `.pb` reader, prices, counts and most
//! votes first. They show what no contract says, and each public call once with ample memory.
//!
//! They stand apart, since a crate that has tests is proved a second time with them, and need not wait for
//! the desk's proof. A test is a table and a short body, which compares by `checks`: an assertion in a body
//! takes the prover seconds, a call next to nothing.
#![tactic(auto)]

#[cfg(test)]
mod by_votes;
#[cfg(test)]
mod checks;
#[cfg(test)]
mod counting;
#[cfg(test)]
mod crowd;
#[cfg(test)]
mod elections;
#[cfg(test)]
mod outcomes;
#[cfg(test)]
mod prices;
#[cfg(test)]
mod raises;
#[cfg(test)]
mod reading;
#[cfg(test)]
mod rows;
#[cfg(test)]
mod values;
