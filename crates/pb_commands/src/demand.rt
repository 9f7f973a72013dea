//! What an audit demands of the desk.

/// What an audit demands of the desk.
#[derive(Clone, Copy)]
pub enum Demand {
    /// The desk may be open.
    Any,
    /// The desk must be shut.
    Shut,
}
