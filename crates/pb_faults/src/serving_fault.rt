//! Why a journal is not served, or no longer.

use crate::run_text::RunText;
use thiserror::Error;

/// Why a journal is not served, or no longer.
#[derive(Clone, Copy, PartialEq, Eq, Debug, Error)]
pub enum ServingFault {
    /// The journal is legal, and spelled otherwise than a desk spells it. The file is as it was.
    #[error("the journal is not spelled as a desk spells it")]
    Spelling,
    /// The journal's name leads to another file than the one that is written, or nowhere.
    #[error("the journal was moved")]
    Moved,
    /// Another run serves the journal that this text is, or would replace.
    #[error("another run serves file {0}")]
    Locked(RunText),
    /// The answers could not be written. What was served stands.
    #[error("the answers could not be written")]
    Output,
}
