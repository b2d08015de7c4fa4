// Archives and version stores, as interfaces that say what their implementations mean.
#![tactic(auto)]

pub mod archive;
pub mod query;

pub use archive::{Archive, Store};
pub use query::newest;
