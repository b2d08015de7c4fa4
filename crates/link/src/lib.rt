// The link: a store that is reached by two radios.
#![tactic(auto)]

mod radios;

pub use radios::Link;
