//! Words for a count's options, and for raises that were spent.

use crate::prelude::*;
use pb_rounds::count_fault::CountFault;
use pb_rounds::options::CountOptions;

/// The most raises of a count whose ties are told.
const MOST_OF_TIES: u32 = 999;

/// What is known of raises beyond those that were allowed and spent.
#[derive(Clone, Copy)]
pub enum Deciding {
    /// This is the least limit of raises with which the count ends.
    Least(u32),
    /// With this limit of raises the count ends, and perhaps with a smaller one.
    Enough(u32),
    /// None was found in the time that was allowed.
    NotFound,
    /// None is: as many were allowed as there can be.
    NoneIs,
    /// They were not looked for, since the ballots can't be read again.
    Unread,
}

/// Words for a count of the .pb file with this path that is refused, by these options; no path is standard
/// input. Of raises that were spent they say no more than that: what to do is said by `spent_words`.
pub fn count_words(
    alloc: Global,
    path: Option<&str>,
    fault: CountFault,
    options: &CountOptions,
) -> Said {
    let mut out = WordsWriter::new(alloc);
    match fault {
        CountFault::RaisesSpent => out.fill(
            "{}: the count is not finished after {} of {}, so there is no result.\n",
            &[
                Name(path),
                Count(u64::from(options.max_raises), "raise"),
                Amount(options.step.0),
            ],
        ),
        CountFault::TooFine => out.fill(
            "{}: the amounts are too large for fine money, so there is no result. You can allow fewer raises with \
            `--raises`, or count with `--money hundredths`.\n",
            &[Name(path)],
        ),
        fault => put_option(&mut out, fault, options),
    }
    out.finish()
}

/// Words for a count of the .pb file with this path whose ties are not told; no path is standard input.
pub fn too_many_runs_words(alloc: Global, path: Option<&str>) -> Said {
    let mut out = WordsWriter::new(alloc);
    out.fill(
        "{}: the count has more than 1000 runs (one for each raise), so its ties are not listed. `pb_app page` \
        shows those of the run that decided.\n",
        &[Name(path)],
    );
    out.finish()
}

/// Words for what to do about raises that were spent: what is known of more raises, and of a step that
/// decides.
pub fn spent_words(
    alloc: Global,
    options: &CountOptions,
    deciding: Deciding,
    step: Option<u64>,
) -> Said {
    let mut out = WordsWriter::new(alloc);
    out.put("First see what the rules of your vote say about the step and the number of raises.\n");
    put_raises(&mut out, deciding);
    if options.max_raises > 0 {
        put_step(&mut out, options.max_raises, step);
    }
    out.finish()
}

/// Puts how many raises would decide.
pub(crate) fn put_raises(out: &mut WordsWriter, deciding: Deciding) {
    match deciding {
        Deciding::Least(raises) => out.fill(
            "You can allow more raises: `--raises {}` is enough, and any smaller number is not.\n",
            &[Number(u64::from(raises))],
        ),
        Deciding::Enough(raises) => out.fill(
            "You can allow more raises: `--raises {}` is enough, and a smaller number may be enough too.\n",
            &[Number(u64::from(raises))],
        ),
        Deciding::NoneIs => out.put(
            "More raises can't help: `--raises` can be at most 1000000, and that is not enough.\n",
        ),
        Deciding::NotFound => out.put(
            "You can allow more raises, up to 1000000, but that may not be enough. The program looked for the number that you need, and did not find it in the time that it allows itself.\n",
        ),
        Deciding::Unread => out.put(
            "You can allow more raises, up to 1000000. The program can't say how many you need: it can't read the ballots twice from standard input or a pipe. Save them in a file, and name that file.\n",
        ),
    }
    match deciding {
        Deciding::Least(raises) | Deciding::Enough(raises) if raises > MOST_OF_TIES => out.put(
            "With so many raises `pb_app ties` lists no ties: it takes 999 at most.\n",
        ),
        _ => {}
    }
}

/// Puts a larger step, which is known to decide with so many raises where it is given, and what it may cost.
fn put_step(out: &mut WordsWriter, raises: u32, step: Option<u64>) {
    match step {
        Some(step) => out.fill(
            "You can use a larger step: with {}, `--step {}` ({}) is certainly enough; \
            a smaller step may be enough too.\n",
            &[
                Count(u64::from(raises), "raise"),
                Number(step),
                Amount(step),
            ],
        ),
        None => out.put("You can try a larger step: `--step` can be at most 1000000000.\n"),
    }
    out.put("But with a larger step fewer different shares are tried, so fewer projects may win.\n")
}

/// Puts which option a count refuses.
fn put_option(out: &mut WordsWriter, fault: CountFault, options: &CountOptions) {
    let (option, value, range) = match fault {
        CountFault::WorkerCount => ("workers", u64::from(options.workers), "1 to 64"),
        CountFault::StepRange => ("step", options.step.0, "1 to 1000000000"),
        CountFault::RaisesRange => ("raises", u64::from(options.max_raises), "0 to 1000000"),
        CountFault::RaisesSpent | CountFault::NoMemory | CountFault::TooFine => {
            return out.put("Memory ran out.\n");
        }
    };
    put_range(out, option, value, range)
}

/// Puts that an option is out of its range.
pub(crate) fn put_range<'w>(out: &mut WordsWriter, option: &'w str, value: u64, range: &'w str) {
    out.fill(
        "option --{}: {} is not allowed. Give a value from {}.\n",
        &[Own(option), Number(value), Own(range)],
    )
}
