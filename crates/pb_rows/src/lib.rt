//! The records of a text with `;` between fields, read one at a time; rows and tables of fields written in
//! the same form; and the exact spelling of numbers and of lists of places.
#![tactic(auto)]

mod exact;
mod fault;
mod field;
mod laws;
mod number;
mod places;
mod records;
mod rows_writer;

pub use exact::put_exact;
pub use fault::RecordsFault;
pub use field::Field;
pub use laws::rows_come_back;
pub use number::read_number;
pub use places::{read_place_list, write_places};
pub use records::Records;
pub use rows_writer::RowsWriter;
