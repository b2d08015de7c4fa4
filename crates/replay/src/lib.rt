// Scripts put to a certifier beside any version store: events to calls, answers to lines.
#![tactic(auto)]

mod events;
mod scripts;

pub use events::put_event;
pub use scripts::replay;
