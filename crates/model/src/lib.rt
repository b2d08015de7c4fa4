// The words of the subject: versions, faults, phases, marks, steps, answers and refusals.
// What they mean, and what each call does, is defined in `specs/`.
#![tactic(auto)]

pub mod answer;
pub mod attempt;
pub mod fault;
pub mod limits;
pub mod numbers;
pub mod phase;
pub mod plan;
pub mod version;

pub use answer::{Opened, Refusal, Reply, Status, Step};
pub use attempt::Attempt;
pub use fault::{Cause, Fault};
pub use limits::{MOST_GRANULES, STAMP_LIMIT};
pub use phase::{Mark, Phase};
pub use plan::Plan;
pub use version::{Content, Version, Write};
