// A list of at most N items in fixed memory.
#![tactic(auto)]

mod list;
mod ops;

pub use list::{Bounded, Full};
