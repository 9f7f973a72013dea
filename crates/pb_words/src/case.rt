//! A record that is refused, in its text.

use pb_witness::faulty_record::FaultyRecord;
use pb_witness::known::Known;
use pb_witness::text::Text;

/// A record that is refused, in its text, with what is known of the file.
#[derive(Drop)]
pub(crate) struct Case<'c, R> {
    pub(crate) text: &'c Text<'c, R>,
    pub(crate) known: Known<'c>,
    pub(crate) faulty: &'c FaultyRecord,
}
