// One transaction's slot, and what a slice of slots tells and becomes. No store and no entry kind
// occur here, and nothing allocates.
#![tactic(auto)]

mod conflict;
mod ops;
mod plan;
mod search;
mod slot;

pub use plan::{apply, plan as plan_of, release};
pub use search::{
    enter_section, find, free_place, held, note, older_live, other_section, other_writers, record,
    take_free, wait,
};
pub use slot::Slot;
