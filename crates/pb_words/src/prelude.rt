//! What most files of words use.

pub(crate) use crate::case::Case;
pub(crate) use crate::mark_words::{
    line_of, put_mark, put_over, put_record_number, put_subject, put_swallowing, put_unclosed,
};
pub(crate) use crate::words::PlaceholderValue::{
    Amount, Beside, Bytes, Count, Name, Number, Numbers, Own, Quoted,
};
pub(crate) use crate::words::{PlaceholderValue, Said, WordsWriter, failed, said};
pub(crate) use csv::ByteRecord;
pub(crate) use pb_read::ReadKind;
pub(crate) use pb_seen::fields::{bytes_at, raw_text, text_at};
pub(crate) use pb_seen::mark::Mark;
pub(crate) use pb_witness::text::Text;
pub(crate) use std::alloc::Global;
pub(crate) use std::rt::Files;
