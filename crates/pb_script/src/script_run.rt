//! How a script is served.

use crate::admission::Admission;

/// How a script is served: by how many clerks, whether the run shuts the desk, what is admitted, and who looks
/// on.
#[derive(Drop)]
pub struct ScriptRun<'a, G, N> {
    /// How many clerks serve it, 1 to 64.
    pub clerks: u32,
    /// Whether clerk 0 shuts the desk after all rows.
    pub shuts: bool,
    /// Which requests are admitted, and how rows name projects.
    pub admission: &'a Admission,
    /// It is called before the first try of each row.
    pub gate: &'a G,
    /// It hears of the rows that are refused.
    pub notice: &'a N,
}
