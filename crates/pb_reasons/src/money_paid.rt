//! What the supporters of a project paid for the elected.

ghost use Rattle.std.specs.Prelude.{◌≡◌};

use crate::payment::Payment;
use std::marker::Model;

/// What the supporters of a project paid together for the elected.
#[derive(Drop)]
pub struct MoneyPaid {
    /// What they paid for the five for which they paid most, the largest first; of equal ones the one that was
    /// elected earlier. There is none for which they paid nothing.
    pub most: Vec<Payment>,
    /// What they paid for the others, in the parts that are counted.
    pub others: u128,
}

impl Model for MoneyPaid {
    ghost use Rattle.pb_reasons.specs.Money.{MoneyView};

    ghost Value = { MoneyView };

    ghost view = { λ m. record { most = m.most.items; others = m.others } };
}

/// What a voter paid, project by project.
#[derive(Drop)]
pub(crate) struct VoterPayments {
    pub(crate) list: Vec<Payment>,
}

impl Model for VoterPayments {
    ghost use Rattle.std.specs.Prelude.{List};
    ghost use Rattle.pb_reasons.specs.declared.payment.Payment.{Payment};

    ghost Value = { List Payment };

    ghost view = { λ p. p.list.items };
}

impl VoterPayments {
    /// The payments.
    pub(crate) fn list(&self) -> &[Payment]
        ensures { result.now ≡ self.now }
    {
        self.list.as_slice()
    }
}
