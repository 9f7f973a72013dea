//! Who looks on at a file for its warnings, and for what else of it is shown or written.

ghost use Rattle.std.specs.Prelude.{◌≡◌, ◌∷◌, map, Some, IfSome};
ghost use Rattle.std.specs.Str.{trim};
ghost use Rattle.csv.specs.Records.{fields_of};
ghost use Rattle.pb_read.specs.Shown.{ended, refused, seen};

use csv::ByteRecord;
use pb_core::election::Election;
use pb_export::{Carried, Carry};
use pb_read::{Heed, Part, Refusal, Stage, Warning, Watch};

/// Looks on at a file for its warnings, and lets another one keep what no count uses.
#[derive(Drop)]
pub(crate) struct KeepingWatch<'w, H, K> {
    pub(crate) warnings: &'w mut H,
    /// Who keeps it.
    pub(crate) keeper: K,
}

impl<H: Heed, K: Watch> Watch for KeepingWatch<'_, H, K> {
    ghost shown = { λ watch. H.shown watch.warnings.now };

    /// Who keeps what no count uses is shown the same, and so it is below.
    fn see(&mut self, record: &ByteRecord, at: u32, part: Part, election: &Election)
        ensures shown { IfSome (H.shown self.old.warnings.now) (λ old. H.shown self.new.warnings.now
            ≡ Some (seen at (map trim (fields_of record.now)) election.now ∷ old)) }
        ensures keeper { IfSome (K.shown self.old.keeper) (λ old. K.shown self.new.keeper
            ≡ Some (seen at (map trim (fields_of record.now)) election.now ∷ old)) }
    {
        self.warnings.see(record, at, part, election);
        self.keeper.see(record, at, part, election);
    }

    fn refuse(&mut self, record: &ByteRecord, refusal: Refusal, stage: &Stage)
        ensures shown { IfSome (H.shown self.old.warnings.now) (λ old. H.shown self.new.warnings.now
            ≡ Some (refused refusal ∷ old)) }
        ensures keeper { IfSome (K.shown self.old.keeper) (λ old. K.shown self.new.keeper
            ≡ Some (refused refusal ∷ old)) }
    {
        self.warnings.refuse(record, refusal, stage);
        self.keeper.refuse(record, refusal, stage);
    }

    fn end(&mut self, election: &Election)
        ensures shown { IfSome (H.shown self.old.warnings.now) (λ old. H.shown self.new.warnings.now
            ≡ Some (ended election.now ∷ old)) }
        ensures keeper { IfSome (K.shown self.old.keeper) (λ old. K.shown self.new.keeper
            ≡ Some (ended election.now ∷ old)) }
    {
        self.warnings.end(election);
        self.keeper.end(election);
    }
}

impl<H: Heed, K: Watch> Heed for KeepingWatch<'_, H, K> {
    ghost refused_for = { λ watch. H.refused_for watch.warnings.now };

    fn refusal(&self) -> Option<Warning> {
        self.warnings.refusal()
    }
}

impl<H> Carry for KeepingWatch<'_, H, Carried> {
    ghost keeps = { λ watch. watch.keeper.further };

    fn carried(&self) -> &Carried {
        &self.keeper
    }
}
