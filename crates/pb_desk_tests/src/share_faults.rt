//! What the shared desk's faults say of themselves: number, name and text.

use crate::checks::{shows, tells};
use crate::serving::desk_with_room;
use pb_shared::busy::Busy;
use pb_shared::share_fault::ShareFault;
use pb_shared::shared_fault::SharedFault;
use pb_shared::unfinished::Unfinished;
use std::alloc::Global;
use std::process::Abort;

/// Why a request is not served, and what is said of it.
const FAULTS: &[(SharedFault, &str)] = &[
    (SharedFault::Busy(3), "1 Busy: clerk 3 holds the lock"),
    (
        SharedFault::JournalFull,
        "2 JournalFull: the journal is full",
    ),
    (SharedFault::NoMemory, "3 NoMemory: out of memory"),
];

#[test]
fn tells_faults(rt: HostRuntime) {
    for (fault, wanted) in FAULTS {
        let named = (fault.number(), fault.name());
        tells(&rt, rt.alloc(), named, fault, wanted);
    }
    shows(&rt, rt.alloc(), &Busy(3), "clerk 3 holds the lock");
    shows(&rt, rt.alloc(), &Unfinished(4), "the lock word is 4");
}

/// The fault tells this of itself.
fn tells_share_fault(rt: &impl Abort, alloc: Global, fault: ShareFault, wanted: &str) {
    let named = (fault.number(), fault.name());
    tells(rt, alloc, named, &fault, wanted);
    drop(fault);
}

#[test]
fn tells_share_faults(rt: HostRuntime) {
    let count = ShareFault::ClerkCount(desk_with_room(&rt, rt.alloc(), 1));
    let wanted = "1 ClerkCount: the number of clerks is not 1 to 64";
    tells_share_fault(&rt, rt.alloc(), count, wanted);
    let memory = ShareFault::NoMemory(desk_with_room(&rt, rt.alloc(), 1));
    let wanted = "2 NoMemory: out of memory";
    tells_share_fault(&rt, rt.alloc(), memory, wanted);
}
