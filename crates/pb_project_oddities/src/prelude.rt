//! What most files use.

pub(crate) use csv::ByteRecord;
pub(crate) use pb_core::election::Election;
pub(crate) use pb_core::money::Money;
pub(crate) use pb_ids::IdTable;
pub(crate) use pb_oddities::oddities::{Odd, Oddities};
pub(crate) use pb_oddities::row::Row;
pub(crate) use pb_read::{Column, Oddity, Part, Section, Stage};
pub(crate) use pb_seen::fields::{bytes_at, column_of, text_at};
pub(crate) use pb_seen::firsts::Firsts;
pub(crate) use pb_seen::mark::Mark;
pub(crate) use std::alloc::{AllocError, Global};
