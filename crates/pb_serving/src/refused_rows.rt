//! How many rows were refused, and for which reason.

ghost use denote.Enum.Declared.{tag_of};
ghost use Rattle.std.specs.Prelude.{◌≡◌, ◌+◌, ◌<◌, ◌^◌, [], slice_index_or};
ghost use Rattle.pb_script.specs.contracts.admission.RowRefusal.{the_type};
ghost use Rattle.pb_serving.specs.Inner.Refused.{refusals_of, with_refusal};

use pb_script::RowRefusal;

/// How many reasons there are.
const REASONS: usize = 6;

/// How many rows were refused, and for which reason.
#[derive(Clone, Copy)]
pub struct RefusedRows {
    /// How many were refused.
    pub all: u64,
    /// How many were refused for each reason, in the order of `RowRefusal`.
    pub(crate) counts: [u64; REASONS],
}

impl RefusedRows {
    /// None was.
    pub(crate) fn new() -> RefusedRows
        ensures all { result.all ≡ 0 }
        ensures counts { result.counts ≡ refusals_of [] }
    {
        RefusedRows {
            all: 0,
            counts: [0; REASONS],
        }
    }

    /// How many were refused for this.
    pub fn of(&self, why: RowRefusal) -> u64
        ensures { result ≡ slice_index_or self.now.counts (tag_of the_type why) 0 }
    {
        self.counts[place_of(why)]
    }

    /// Counts a row that is refused for this.
    pub(crate) fn add(&mut self, why: RowRefusal)
        requires { self.old.all + 1 < 2 ^ 64 }
        ensures all { self.new.all ≡ self.old.all + 1 }
        ensures counts { self.new.counts ≡ with_refusal self.old.counts why }
    {
        let place = place_of(why);
        self.all += 1;
        self.counts[place] = self.counts[place].saturating_add(1);
    }
}

/// The place of a reason in the order of `RowRefusal`, from 0.
fn place_of(why: RowRefusal) -> usize
    ensures place { result ≡ tag_of the_type why }
    ensures within { result < 6 }
{
    match why {
        RowRefusal::Bad => 0,
        RowRefusal::UnknownId => 1,
        RowRefusal::NotOnRoll => 2,
        RowRefusal::TooFew => 3,
        RowRefusal::FromFile => 4,
        RowRefusal::NoShut => 5,
    }
}
