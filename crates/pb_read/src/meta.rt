//! What the rows of META say.

use crate::fault::ReadKind;
use crate::length::read_max_length;
use crate::meta_key::MetaKey;
use crate::row::{Row, is_word};
use pb_core::money::Money;
use pb_core::money_fault::MoneyFault;
use pb_core::terms::Terms;

/// What the rows of META say so far; of a repeated key the last row counts.
#[derive(Clone, Copy)]
pub struct Meta {
    /// The value of `budget`, read as money.
    pub(crate) budget: Option<Result<Money, MoneyFault>>,
    /// Whether the value of `vote_type` is `approval`.
    pub(crate) approval: Option<bool>,
    /// The limit that `max_length` names; none where the key is missing.
    pub(crate) max_length: Result<Option<u32>, ReadKind>,
}

impl Meta {
    ghost use Rattle.std.specs.Prelude.{◌≡◌, [], Some, None, MatchResult};
    ghost use Rattle.pb_read.specs.Inner.Machine.{meta_checks, terms_said, with_row};
    ghost use Rattle.pb_read.specs.MetaRows.{meta_of};

    /// META without rows.
    pub(crate) fn new() -> Meta
        ensures { result ≡ meta_of [] }
    {
        Meta {
            budget: None,
            approval: None,
            max_length: Ok(None),
        }
    }

    /// One more row: a key and its value.
    pub(crate) fn note(&mut self, row: &Row)
        ensures { self.new ≡ with_row self.old row.now }
    {
        let value = row.field(1);
        match MetaKey::of(row.field(0)) {
            Some(MetaKey::Budget) => self.budget = Some(Money::read(value)),
            Some(MetaKey::VoteType) => self.approval = Some(is_word("approval", value)),
            Some(MetaKey::MaxLength) => self.max_length = read_max_length(value),
            None => {}
        }
    }

    /// The terms that META sets, where its values are as they must be.
    pub(crate) fn terms(&self) -> Result<Terms, ReadKind>
        ensures { MatchResult result
            (λ terms. (meta_checks self.now ≡ None) × (terms ≡ terms_said self.now))
            (λ kind. meta_checks self.now ≡ Some kind) }
    {
        let (Some(budget), Some(approval)) = (self.budget, self.approval) else {
            return Err(ReadKind::MissingKey);
        };
        if !approval {
            return Err(ReadKind::VoteType);
        }
        let budget = match budget {
            Ok(budget) => budget,
            Err(fault) => return Err(ReadKind::of_money(fault)),
        };
        match self.max_length {
            Ok(max_length) => Ok(Terms { budget, max_length }),
            Err(_) => Err(ReadKind::BadLength),
        }
    }
}
