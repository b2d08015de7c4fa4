// Reads a script: its lines, and the event that each line is.
#![tactic(auto)]

mod events;
mod letters;
mod lines;
mod numbers;
mod parse;
mod pieces;
mod unread;

pub use events::{Event, EventKind};
pub use letters::kind_of;
pub use lines::{Cut, Lines, MAX_SCRIPT, fits, next_line};
pub use numbers::number;
pub use parse::event;
pub use unread::Unread;
