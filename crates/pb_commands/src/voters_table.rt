//! The table of voters: who paid.

ghost use Rattle.std.specs.Prelude.{◌≡◌, ◌<◌, ◌++◌, ◌∷◌, [], All, OnOk, decimal, length};
ghost use Rattle.std.specs.Prelude.{string_bytes};
ghost use Rattle.pb_rows.specs.Writing.{text_of_row};
ghost use Rattle.pb_commands.specs.Report.{in_units};
ghost use Rattle.pb_commands.specs.Tables.{table_of};
ghost use Rattle.pb_commands.specs.Inner.Tables.{payments_in_file, payments_text};
ghost use Rattle.pb_commands.specs.declared.table.Table.TheVariants.{Voters};

use crate::in_units::in_units;
use itoa::Buffer;
use pb_core::no_memory::NoMemory;
use pb_reasons::{CountedElection, Payment, VoterReason, VoterTeller};
use pb_rows::{Field, RowsWriter, put_exact};
use std::alloc::Global;

/// Writes the columns, and a row for each voter in file order.
pub(crate) fn put_voters(
    rows: &mut RowsWriter,
    alloc: Global,
    count: &CountedElection,
) -> Result<(), NoMemory>
    ensures { OnOk result (rows.new.text ≡ rows.old.text ++ table_of Voters count.now) }
{
    rows.put_row(&["voter_id", "votes", "elected", "paid", "left", "payments"])?;
    let voters = count.election().voters();
    let mut teller = VoterTeller::of(alloc, count)?;
    let mut payments = Vec::new(alloc);
    let mut text = String::new(alloc);
    for position in 0..voters.len() {
        let reason = teller.tell(position as u32, &mut payments)?;
        let voter = &voters[position];
        put_in_file_order(count, &mut payments)?;
        write_payments(&mut text, count, payments.as_slice())?;
        put_voter(rows, count, voter.id.text(), &reason, text.as_str())?;
    }
    Ok(())
}

/// Lets payments name the places of the file, and puts them in their order.
fn put_in_file_order(count: &CountedElection, payments: &mut Vec<Payment>) -> Result<(), NoMemory>
    requires { All (λ p. p.place < length count.now.election.projects) payments.old.items }
    ensures { OnOk result (payments.new.items ≡ payments_in_file count.now.order payments.old.items) }
{
    // What is true of every count is so of this one.
    let _election = count.election();
    for i in 0..payments.len() {
        let payment = payments[i];
        payments[i].place = count.place(payment.place);
    }
    payments.sort_by_key(|payment| payment.place)?;
    Ok(())
}

/// Writes the row of the voter with this id, with the text of the payments.
fn put_voter(
    rows: &mut RowsWriter,
    count: &CountedElection,
    id: &str,
    reason: &VoterReason,
    payments: &str,
) -> Result<(), NoMemory>
    ensures { OnOk result (rows.new.text ≡ rows.old.text ++ text_of_row
        (id.now ∷ decimal reason.now.votes ∷ decimal reason.now.elected ∷ in_units count.now reason.now.paid 1
        ∷ in_units count.now reason.now.left 1 ∷ payments.now ∷ [])) }
{
    let fields = [
        Field::Text(id),
        Field::number(reason.votes),
        Field::number(reason.elected),
        in_units(count, reason.paid),
        in_units(count, reason.left),
        Field::Text(payments),
    ];
    rows.put_fields(&fields)?;
    Ok(())
}

/// Writes the payments, with `,` between two, in place of what the text held.
fn write_payments(
    text: &mut String,
    count: &CountedElection,
    payments: &[Payment],
) -> Result<(), NoMemory>
    ensures { OnOk result (string_bytes text.new ≡ payments_text count.now payments.now) }
{
    let parts = count.parts();
    let mut digits = Buffer::new();
    text.clear();
    for (i, payment) in payments.iter().enumerate() {
        if i > 0 {
            text.push_str(",")?;
        }
        text.push_str(digits.format(payment.place))?;
        text.push_str(":")?;
        put_exact(text, u128::from(payment.amount.0), parts)?;
    }
    Ok(())
}
