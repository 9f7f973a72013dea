//! What each command has at hand.

use crate::published::Published;
use crate::system::System;
use pb_command_line::{Asked, Ballots, TextSource};
use pb_commands::{AppFault, Counting, Inputs};
use pb_streams::{
    FileText, JournalText, Kinship, ProgressLine, Typing, open_alone, open_with_journal,
};

/// What each command has at hand.
#[derive(Drop)]
pub(crate) struct CommandRun<'a, R> {
    pub(crate) counting: Counting<'a, R, ProgressLine<'a, R>>,
    pub(crate) asked: &'a Asked<'a>,
    pub(crate) kinship: &'a Kinship,
    /// What a page is compared with.
    pub(crate) published: &'a Published,
    /// What is said of the requests that come in.
    pub(crate) typing: &'a Typing,
}

impl<'a, R: System> CommandRun<'a, R> {
    /// Opens the texts with these ballots, in their order.
    pub(crate) fn inputs(
        &self,
        ballots: &Ballots<'a>,
    ) -> Result<Inputs<FileText<'a, R>, JournalText<'a, R>>, AppFault> {
        let Some(journal) = &ballots.journal else {
            let file = open_alone(self.counting.gate, &ballots.file, self.kinship)?;
            return Ok(Inputs {
                file,
                journal: None,
            });
        };
        let (file, journal) = self.with_journal(&ballots.file, journal)?;
        Ok(Inputs {
            file,
            journal: Some(journal),
        })
    }

    /// Opens a .pb file and a journal, in their order.
    pub(crate) fn with_journal(
        &self,
        file: &TextSource<'a>,
        journal: &TextSource<'a>,
    ) -> Result<(FileText<'a, R>, JournalText<'a, R>), AppFault> {
        open_with_journal(self.counting.gate, file, journal, self.kinship)
    }
}
