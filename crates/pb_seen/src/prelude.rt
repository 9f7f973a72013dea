//! What most files use that look at a record.

pub(crate) use crate::fields::{bytes_at, column_of, raw_text, text_at};
pub(crate) use crate::firsts::Firsts;
pub(crate) use crate::mark::Mark;
pub(crate) use csv::ByteRecord;
pub(crate) use pb_core::election::Election;
pub(crate) use pb_core::money::Money;
pub(crate) use pb_ids::IdTable;
pub(crate) use pb_read::{Column, Part, Section, Stage};
pub(crate) use std::alloc::{AllocError, Global};
