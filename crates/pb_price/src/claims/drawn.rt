//! What a claim knows of the numbers that it drew.

ghost use Rattle.std.specs.Prelude.{ℕ, List};
ghost use Rattle.std.specs.Borrow.{ftrue};

use std::marker::Model;

/// What a claim knows: how many worker seats went into it, and the numbers that they drew, in order. No value
/// of it is made.
pub(crate) struct Drawn {
    pub(crate) ghost seats: { ℕ },
    pub(crate) ghost numbers: { List ℕ },
}

impl Model for Drawn {
    ghost also_owns = { λ _. ftrue };
}
