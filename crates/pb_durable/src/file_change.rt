//! What somebody has done to a file that is served.

/// What somebody has done to a file that is served.
#[derive(Clone, Copy)]
pub enum FileChange {
    /// Its name leads elsewhere, or nowhere.
    Moved,
    /// It has other bytes than those that the run has read and written.
    Overwritten,
}
