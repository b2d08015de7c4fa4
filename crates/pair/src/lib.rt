// The pair: two stores as one.
#![tactic(auto)]

mod halves;

pub use halves::Pair;
