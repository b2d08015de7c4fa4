// Entry kinds: each entry has a code, and each code at most one entry.
#![tactic(auto)]

mod codes;
mod duties;
mod duty;
mod entry_kind;
mod generic;
mod licence;
mod licences;
mod roster;

pub use codes::Codes;
pub use duties::Duties;
pub use duty::Duty;
pub use entry_kind::EntryKind;
pub use generic::{again, recode};
pub use licence::{HeldLicence, Licence, Suspension};
pub use licences::Licences;
pub use roster::{RosterEntry, RosterKind};
