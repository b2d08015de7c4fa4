// Stores put to use: what every store does with a version, and tests on tables, pairs, links and
// piles of them.
#![tactic(auto)]

pub mod append;
#[cfg(test)]
mod damaged;
#[cfg(test)]
mod faults;
#[cfg(test)]
mod layered;
#[cfg(test)]
mod lent;
#[cfg(test)]
mod words;

pub use append::append_and_read;
