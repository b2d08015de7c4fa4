// The certifier: which transaction may commit, which waits and which starts again. Each call is
// given any version store beside it, and is the step that the definitions of `model` give.
#![tactic(auto)]

pub mod calls;
pub mod certifier;
pub mod reads;
mod turns;
pub mod writes;

pub use certifier::Certifier;
