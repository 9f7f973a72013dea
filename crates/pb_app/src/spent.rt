//! Raises that were spent: whether more would decide is looked for, for words alone.

use crate::system::System;
use pb_command_line::{Task, TextSource};
use pb_commands::{Inputs, election_of};
use pb_core::election::Election;
use pb_core::gate::Gate;
use pb_core::money::Money;
use pb_read::NoWatch;
use pb_reasons::{Patience, RaiseLimit, find_raise_limit};
use pb_rounds::options::{CountOptions, LARGEST_STEP, MOST_RAISES};
use pb_rounds::rule::Rule;
use pb_rounds::tie_order::put_in_tie_order;
use pb_witness::text::Text;
use pb_words::count_words::Deciding;
use std::fs::File;
use std::rt::Clock;
use std::time::{Duration, Instant};

/// What was found after the raises were spent.
#[derive(Clone, Copy)]
pub(crate) struct MoreRaises {
    pub(crate) deciding: Deciding,
    /// A step in hundredths that decides with the allowed raises, where the ballots were read again.
    pub(crate) step: Option<u64>,
}

/// Looks for raises that would decide, in ballots that are read once more, where they stand in files. It
/// looks for about as long as the refused count took, and a second at least.
pub(crate) fn look_further<R: System, G: Gate>(
    rt: &R,
    task: &Task<'_>,
    rule: &Rule,
    took: Option<Duration>,
    gate: &G,
) -> MoreRaises {
    let allowed = Allowed::new(rt, took);
    match ballots_again(rt, task) {
        Some(election) => {
            let mut election = election;
            let deciding = match put_in_tie_order(rt.alloc(), &mut election, &rule.ties) {
                Ok(order) => {
                    drop(order);
                    deciding(rt, &election, &rule.options, &allowed, gate)
                }
                Err(_) => Deciding::Unread,
            };
            let step = sure_step(rule.options.max_raises, election.budget());
            drop(election);
            MoreRaises { deciding, step }
        }
        None => MoreRaises {
            deciding: Deciding::Unread,
            step: None,
        },
    }
}

/// The least step by which this many raises give each voter the whole budget; none where no raise is allowed.
/// At a share of the whole budget the outcome is over or exhausted: what is not spent of it pays for any
/// project that fits, by one of its supporters alone.
fn sure_step(max_raises: u32, budget: Money) -> Option<u64> {
    if max_raises == 0 {
        return None;
    }
    let step = budget.0.div_ceil(u64::from(max_raises)).max(1);
    if step > LARGEST_STEP.0 {
        return None;
    }
    Some(step)
}

/// The ballots that a task counts, read once more, where they stand in files.
fn ballots_again<R: System>(rt: &R, task: &Task<'_>) -> Option<Election> {
    let file = open_again(rt, &task.texts().0)?;
    let journal = match task.journal() {
        Some(journal) => Some(open_again(rt, &journal)?),
        None => None,
    };
    election_of(rt.alloc(), Inputs { file, journal }, &mut NoWatch).ok()
}

/// Opens a text once more, where it stands in a file.
fn open_again<R: System>(rt: &R, text: &TextSource<'_>) -> Option<File> {
    Text::new(rt, rt.alloc(), text.path()).open_at(0)
}

/// What is known of more raises for these ballots.
fn deciding<R: System, G: Gate>(
    rt: &R,
    election: &Election,
    options: &CountOptions,
    allowed: &Allowed<'_, R>,
    gate: &G,
) -> Deciding {
    if options.max_raises >= MOST_RAISES {
        return Deciding::NoneIs;
    }
    match find_raise_limit(rt, election, options, gate, allowed) {
        Ok(Some(RaiseLimit::Least(limit))) => Deciding::Least(limit),
        Ok(Some(RaiseLimit::Enough(limit))) => Deciding::Enough(limit),
        Ok(None) => Deciding::NotFound,
        Err(_) => Deciding::Unread,
    }
}

/// The time that a search may take.
#[derive(Drop)]
struct Allowed<'a, R> {
    rt: &'a R,
    begun: Option<Instant>,
    most: Duration,
}

impl<'a, R: Clock> Allowed<'a, R> {
    /// From now on, as long as the refused count took, and a second at least.
    fn new(rt: &'a R, took: Option<Duration>) -> Allowed<'a, R> {
        let a_second = Duration::from_secs(1);
        Allowed {
            rt,
            begun: Instant::now(rt).ok(),
            most: took.unwrap_or(a_second).max(a_second),
        }
    }
}

impl<R: Clock> Patience for Allowed<'_, R> {
    /// Whether as much again as has been done leaves half of the time.
    fn has_time(&self) -> bool {
        match self.begun.map(|begun| begun.elapsed(self.rt)) {
            Some(Ok(elapsed)) => elapsed.as_millis() < self.most.as_millis() / 2,
            _ => false,
        }
    }
}
