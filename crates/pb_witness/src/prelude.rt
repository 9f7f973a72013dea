//! What most files use that look at a text.

pub(crate) use crate::text::Text;
pub(crate) use csv::ByteRecord;
pub(crate) use pb_core::election::Election;
pub(crate) use pb_core::money::Money;
pub(crate) use pb_ids::IdTable;
pub(crate) use pb_read::{Column, Oddity, Part, ReadKind, Section, Stage};
pub(crate) use pb_seen::fields::{bytes_at, column_of, raw_text, text_at};
pub(crate) use pb_seen::firsts::Firsts;
pub(crate) use pb_seen::mark::Mark;
pub(crate) use std::alloc::{AllocError, Global};
pub(crate) use std::io::Read;
pub(crate) use std::rt::Files;
