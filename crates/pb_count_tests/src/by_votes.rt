//! Most votes first, from an empty list and after others, worked by hand.

use crate::checks::same;
use crate::elections::read;
use pb_core::money::Money;
use pb_price::Supporters;
use pb_rounds::most_votes_first;
use std::alloc::Global;
use std::process::Abort;

/// Projects by place: a costs 30.00 and has two votes, b 60.00 and two, c 20.00 and one, d 25.00 and one.
const FOUR: &str =
    "META\nkey;value\nbudget;100\nvote_type;approval\nPROJECTS\nproject_id;cost\na;30\nb;60\nc;20\nd;25\nVOTES\nvoter_id;vote\nv1;a,c\nv2;a,b,d\nv3;b\n";

/// Projects by place: a costs 50.00, b and c 20.00 each, and each of them has one vote; d costs 5.00 and has
/// none.
const TIES: &str =
    "META\nkey;value\nbudget;90\nvote_type;approval\nPROJECTS\nproject_id;cost\na;50\nb;20\nc;20\nd;5\nVOTES\nvoter_id;vote\nv1;a\nv2;b\nv3;c\nv4;\n";

/// Where these places of the file are taken and this much is left, in hundredths, these are added.
const ADDED: &[(&str, &[u32], u64, &[u32])] = &[
    // After a and b 10.00 is left.
    (FOUR, &[], 10_000, &[0, 1]),
    // b does not fit into 49.99, c and d do.
    (FOUR, &[], 7_999, &[0, 2, 3]),
    (FOUR, &[0], 7_000, &[1]),
    (FOUR, &[2, 0], 5_000, &[3]),
    (FOUR, &[0, 1, 2, 3], 10_000, &[]),
    // Among equals the cheaper first, then by place; nobody's d never.
    (TIES, &[], 9_000, &[1, 2, 0]),
    (TIES, &[], 8_999, &[1, 2]),
    (TIES, &[], 3_999, &[1]),
    (TIES, &[1], 2_000, &[2]),
    // A place that no project has takes nothing.
    (TIES, &[9, 1, 1], 2_000, &[2]),
    (TIES, &[], 1_999, &[]),
    (TIES, &[], 0, &[]),
];

/// Where these are taken, and this much is left, these are added.
fn adds(rt: &impl Abort, alloc: Global, file: &str, taken: &[u32], left: u64, wanted: &[u32]) {
    let election = read(rt, alloc, file);
    let supporters = Supporters::build(alloc, &election).expect(rt, "memory");
    let added = most_votes_first(alloc, &supporters, taken, Money(left)).expect(rt, "memory");
    same(rt, added.as_slice(), wanted, "what is added");
    drop(added);
    drop(supporters);
    drop(election);
}

#[test]
fn adds_by_votes(rt: HostRuntime) {
    for (file, taken, left, wanted) in ADDED {
        adds(&rt, rt.alloc(), file, taken, *left, wanted);
    }
}
