//! What tests ask of what they found.

use std::alloc::Global;
use std::fmt::{Debug, Display};
use std::process::Abort;

/// The two are equal, in this case.
pub(crate) fn same<T: PartialEq + Debug + Copy>(rt: &impl Abort, found: T, wanted: T, case: &str) {
    assert_eq!(rt; found, wanted, "at {case}");
}

/// It is shown as this text.
pub(crate) fn shows<D: Display>(rt: &impl Abort, alloc: Global, found: &D, wanted: &str) {
    let shown = format!(in alloc; "{found}").expect(rt, "memory");
    same(rt, shown.as_str(), wanted, "a text");
    drop(shown);
}

/// A fault's number, name and text are these.
pub(crate) fn tells<D: Display>(
    rt: &impl Abort,
    alloc: Global,
    named: (u32, &str),
    fault: &D,
    wanted: &str,
) {
    let (number, name) = named;
    let shown = format!(in alloc; "{number} {name}: {fault}").expect(rt, "memory");
    same(rt, shown.as_str(), wanted, "a fault");
    drop(shown);
}
