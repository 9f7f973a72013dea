//! Who is told which project is asked about.

use pb_core::gate::NoGate;

/// Told of several projects when the search of each begins.
pub trait ProjectGate {
    /// The search for one more of so many projects begins.
    fn begins(&self, _projects: usize) {}
}

impl ProjectGate for NoGate {}
