// Writes the answers to a script's events as lines of text.
#![tactic(auto)]

mod answers;
mod push;
mod replies;

pub use answers::{push_answer, push_unread};
