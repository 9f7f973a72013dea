//! What tests ask of what they found.

use std::fmt::Debug;
use std::process::Abort;

/// It is so, at this allocation.
pub fn holds(rt: &impl Abort, is_so: bool, case: &str, nth: u64) {
    assert!(rt; is_so, "{case}, at allocation {nth}");
}

/// Whether the two are equal, item by item.
pub fn are<T: PartialEq>(found: &[T], wanted: &[T]) -> bool {
    found == wanted
}

/// The two are equal, at this number of bytes or rows.
pub fn same<T: PartialEq + Debug + Copy>(rt: &impl Abort, found: T, wanted: T, at: usize) {
    assert_eq!(rt; found, wanted, "at {at}");
}
