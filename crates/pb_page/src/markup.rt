//! Pages of markup: pieces of the program's own, filled with texts from outside, none of which becomes
//! markup.

mod amounts;
pub mod divided;
pub mod form;
pub mod laws;
mod pieces;
pub mod plural;
mod value;
pub mod words;
mod written;

pub use divided::Divided;
pub(crate) use divided::rounded;
pub use form::Form;
pub(crate) use pieces::fill;
pub use plural::Plural;
pub(crate) use value::Value;
pub use words::Words;
pub(crate) use written::write_byte;
