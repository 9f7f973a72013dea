//! What the outcome of a raise says of the raises.

/// What the outcome of a raise is to its completion.
#[derive(Clone, Copy)]
pub(crate) enum RaiseEnd {
    /// Neither over the budget nor exhausted.
    GoesOn,
    /// Exhausted: it is the answer, if no raise before it decides.
    Exhausted,
    /// Over the budget: the raise before it is the answer, if none before it decides.
    Over,
}
