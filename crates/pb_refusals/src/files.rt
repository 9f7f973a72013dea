//! A file whose reader fails.

use crate::checks::same;
use pb_core::Election;
use pb_core::devices::FailsAfter;
use pb_read::{ReadFault, ReadKind, read_pb};
use std::alloc::Global;
use std::process::Abort;

/// Three voters' approvals of two projects, in 13 records and 117 bytes.
const THREE_VOTERS: &str =
    "META\nkey;value\nbudget;100\nvote_type;approval\nPROJECTS\nproject_id;cost\na;30\nb;60\nVOTES\nvoter_id;vote\nv1;a\nv2;a,b\nv3;b\n";

/// The same with a cost that is finer than a hundredth, in record 7.
const TOO_FINE: &str =
    "META\nkey;value\nbudget;100\nvote_type;approval\nPROJECTS\nproject_id;cost\na;10.005\nb;60\nVOTES\nvoter_id;vote\nv1;a\nv2;a,b\nv3;b\n";

/// The election of three voters and two projects.
pub fn three_voters(rt: &impl Abort, alloc: Global) -> Election {
    read_pb(alloc, THREE_VOTERS.as_bytes()).expect(rt, "accepted")
}

/// The text's first bytes, this many.
pub fn first(rt: &impl Abort, text: &'static str, size: usize) -> &'static [u8] {
    text.as_bytes().get(..size).expect(rt, "a cut")
}

/// How many lines of these bytes have their end.
pub fn whole_lines(bytes: &[u8]) -> u32 {
    let mut lines = 0u32;
    for byte in bytes {
        if *byte == b'\n' {
            lines = lines.wrapping_add(1);
        }
    }
    lines
}

/// A file whose reader fails after these bytes has this fault.
fn fails_so(rt: &impl Abort, alloc: Global, bytes: &'static [u8], kind: ReadKind, at: u32) {
    let fault = read_pb(alloc, FailsAfter::new(bytes)).err();
    same(rt, fault, Some(ReadFault { kind, at }), bytes.len());
}

#[test]
fn a_reader_that_fails_is_told_at_the_record(rt: HostRuntime) {
    for size in 0..=117usize {
        let bytes = first(&rt, THREE_VOTERS, size);
        let record = whole_lines(bytes).wrapping_add(1);
        fails_so(&rt, rt.alloc(), bytes, ReadKind::ReadFailed, record);
    }
}

/// Record 7 ends with the 79th byte.
#[test]
fn a_fault_before_the_failure_comes_first(rt: HostRuntime) {
    for size in 0..=121usize {
        let bytes = first(&rt, TOO_FINE, size);
        if size < 79 {
            let record = whole_lines(bytes).wrapping_add(1);
            fails_so(&rt, rt.alloc(), bytes, ReadKind::ReadFailed, record);
        } else {
            fails_so(&rt, rt.alloc(), bytes, ReadKind::MoneyTooFine, 7);
        }
    }
}
