//! What a count tells of its raises while it is done.

use crate::checks::{THREE_VOTERS, same};
use pb_commands::run_table::run_table;
use pb_commands::{Counting, Inputs, Table};
use pb_core::gate::Gate;
use pb_core::money::Money;
use pb_read::NoWatch;
use pb_rounds::options::CountOptions;
use pb_rounds::rule::{FillUp, Rule};
use pb_rounds::tie_rule::TieRule;
use std::sync::atomic::Ordering::Relaxed;
use std::sync::atomic::{AtomicBool, AtomicU32};

/// A third of the example's 100.00, in hundredths: the share before any raise.
const OPENING: u64 = 3_333;

/// What a raise adds to a share, in hundredths.
const STEP: u64 = 100;

/// A gate that keeps what it is told.
#[derive(Drop)]
struct Told {
    /// How often it was told of a raise.
    times: AtomicU32,
    /// How many raises it was told of last.
    last: AtomicU32,
    /// Whether a share was not that of its raises, or the raises did not rise.
    is_wrong: AtomicBool,
}

impl Gate for Told {
    fn at(&self, _worker: u32, _piece: u32) {}

    fn raised(&self, raises: u32, share: Money) {
        let times = self.times.load(Relaxed);
        let is_next = times == 0 || raises > self.last.load(Relaxed);
        if !is_next || share.0 != OPENING.wrapping_add(u64::from(raises).wrapping_mul(STEP)) {
            self.is_wrong.store(true, Relaxed);
        }
        self.times.store(times.wrapping_add(1), Relaxed);
        self.last.store(raises, Relaxed);
    }
}

/// Five raises of 1.00 let v2 pay the rest of b, as docs/counting.md works by hand; what is tried goes no
/// further than the sixth, which would be over.
#[test]
fn a_count_tells_of_its_raises(rt: HostRuntime) {
    let told = Told {
        times: AtomicU32::new(0),
        last: AtomicU32::new(0),
        is_wrong: AtomicBool::new(false),
    };
    let mut report = Vec::new(rt.alloc());
    let file = THREE_VOTERS.as_bytes();
    let rule = Rule {
        options: CountOptions::standard(),
        fill_up: FillUp::Nothing,
        ties: TieRule::file(),
    };
    let counting = Counting {
        rt: &rt,
        alloc: rt.alloc(),
        gate: &told,
        rule: &rule,
    };
    let inputs = Inputs {
        file,
        journal: None::<&[u8]>,
    };
    let counted = run_table(&counting, inputs, &mut NoWatch, &mut report, Table::Report);
    same(&rt, counted.is_ok(), true, "a count");
    drop(report);
    same(
        &rt,
        told.times.load(Relaxed) > 0,
        true,
        "the raises it told of",
    );
    same(&rt, told.is_wrong.load(Relaxed), false, "their shares");
    same(&rt, told.last.load(Relaxed) <= 6, true, "the last raise");
}
