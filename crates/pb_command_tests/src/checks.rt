//! What tests ask of what they found, and the file that they read.

use std::fmt::Debug;
use std::process::Abort;

/// Two projects and three voters.
pub const THREE_VOTERS: &str =
    "META\nkey;value\nbudget;100\nvote_type;approval\nPROJECTS\nproject_id;cost\na;30\nb;60\nVOTES\nvoter_id;vote\nv1;a\nv2;a,b\nv3;b\n";

/// The two are equal, in this case.
pub fn same<T: PartialEq + Debug + Copy>(rt: &impl Abort, found: T, wanted: T, case: &str) {
    assert_eq!(rt; found, wanted, "at {case}");
}
