//! Which rows have an answer.

/// The rows of a desk's input that were answered or refused. A row that is refused is told before the answers
/// to the rows above it, if these are served together; no further row is refused before these answers.
#[derive(Clone, Copy)]
pub(crate) struct AnsweredRows {
    /// All rows up to the one with this number, from 1, were answered or refused.
    last: u64,
    /// The number of the row that was refused last; 0 is none.
    refused: u64,
}

impl AnsweredRows {
    /// No row yet.
    pub(crate) fn new() -> AnsweredRows {
        AnsweredRows {
            last: 0,
            refused: 0,
        }
    }

    /// Takes the number of a row that is refused.
    pub(crate) fn refuse(&mut self, row: u64) {
        self.refused = row;
        self.pass_refused()
    }

    /// Takes an answer: the number of its row.
    pub(crate) fn answer(&mut self) -> u64 {
        let row = self.last.saturating_add(1);
        self.last = row;
        self.pass_refused();
        row
    }

    fn pass_refused(&mut self) {
        if self.refused == self.last.saturating_add(1) {
            self.last = self.refused;
        }
    }
}
