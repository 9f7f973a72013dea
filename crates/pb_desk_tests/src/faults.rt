//! What the desk's faults say of themselves: number, name and text.

use crate::checks::tells;
use crate::elections::three_voters;
use crate::serving::desk_with_room;
use pb_desk::audit_fault::AuditFault;
use pb_desk::desk_fault::DeskFault;
use pb_desk::start_fault::StartFault;
use pb_desk::write_fault::WriteFault;
use pb_desk::{AuditRefused, IntoFault};

const DESK_FAULTS: &[(DeskFault, &str)] = &[
    (DeskFault::JournalFull, "1 JournalFull: the journal is full"),
    (DeskFault::NoMemory, "2 NoMemory: out of memory"),
];

#[test]
fn a_desk_tells_its_faults(rt: HostRuntime) {
    for (fault, wanted) in DESK_FAULTS {
        let named = (fault.number(), fault.name());
        tells(&rt, rt.alloc(), named, fault, wanted);
    }
}

const WRITE_FAULTS: &[(WriteFault, &str)] = &[
    (WriteFault::WriteFailed, "1 WriteFailed: the writer failed"),
    (WriteFault::NoMemory, "2 NoMemory: out of memory"),
];

#[test]
fn a_journals_text_tells_its_faults(rt: HostRuntime) {
    for (fault, wanted) in WRITE_FAULTS {
        let named = (fault.number(), fault.name());
        tells(&rt, rt.alloc(), named, fault, wanted);
    }
}

const AUDIT_FAULTS: &[(AuditFault, &str)] = &[
    (
        AuditFault::ReadFailed(7),
        "1 ReadFailed: the reader failed at row 7",
    ),
    (
        AuditFault::BadRow(0),
        "2 BadRow: the first row names no version that exists",
    ),
    (
        AuditFault::BadRow(7),
        "2 BadRow: row 7 has not the form of an entry",
    ),
    (
        AuditFault::WrongNumber(7),
        "3 WrongNumber: row 7 has another number",
    ),
    (
        AuditFault::JournalFull(7),
        "4 JournalFull: there is no room for row 7",
    ),
    (
        AuditFault::WrongAnswer(7),
        "5 WrongAnswer: row 7 has another answer than the desk gives",
    ),
    (AuditFault::NoMemory, "6 NoMemory: out of memory"),
];

#[test]
fn an_audit_tells_its_faults(rt: HostRuntime) {
    for (fault, wanted) in AUDIT_FAULTS {
        let named = (fault.number(), fault.name());
        tells(&rt, rt.alloc(), named, fault, wanted);
    }
}

/// What they tell who hand an election or a desk back.
#[test]
fn what_is_handed_back_comes_with_its_fault(rt: HostRuntime) {
    let alloc = rt.alloc();
    let start: StartFault = StartFault::NoMemory(three_voters(&rt, alloc));
    let named = (start.number(), start.name());
    tells(&rt, alloc, named, &start, "1 NoMemory: out of memory");
    drop(start);
    let into: IntoFault = IntoFault::NoMemory(desk_with_room(&rt, alloc, 1));
    let named = (into.number(), into.name());
    tells(&rt, alloc, named, &into, "2 NoMemory: out of memory");
    drop(into);
    let audit = AuditRefused {
        fault: AuditFault::JournalFull(7),
        election: three_voters(&rt, alloc),
    };
    let named = (audit.fault.number(), audit.fault.name());
    tells(
        &rt,
        alloc,
        named,
        &audit,
        "4 JournalFull: there is no room for row 7",
    );
    drop(audit);
}
