// The bottom store: a table of versions over lent words, two words to a version.
#![tactic(auto)]

pub mod check;
pub mod lend;
pub mod table;
mod words;

pub use check::{Shape, TableFault, check_words};
pub use lend::append_lent;
pub use table::Table;
