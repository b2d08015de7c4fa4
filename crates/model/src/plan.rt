// What the next advance does, and the step that it answers.
ghost use Rattle.std.specs.Prelude.{◌≡◌};
ghost use Rattle.model.specs.Plans.{step_of};

use crate::answer::Step;
use crate::version::Write;

// It is data and no closure, since the definitions name it and an advance answers by it.
#[derive(Clone, Copy, PartialEq, Eq, Debug)]
pub enum Plan {
    Idle,
    // append the next write of the transaction in its section
    Put { stamp: u64, write: Write },
    // mark the notes of the younger live transactions
    Mark { stamp: u64 },
    // restart a younger transaction that read the granule too early
    Again { stamp: u64, granule: usize },
    // let a younger transaction go on
    Pass { stamp: u64 },
    Done { stamp: u64 },
}

impl From<Plan> for Step {
    ghost from_gives = { λ plan step. step ≡ step_of plan };

    fn from(plan: Plan) -> Step {
        match plan {
            Plan::Idle => Step::Idle,
            Plan::Put { write, .. } => Step::Put {
                granule: write.granule,
            },
            Plan::Mark { .. } => Step::Mark,
            Plan::Again { stamp, granule } => Step::Again { stamp, granule },
            Plan::Pass { stamp } => Step::Pass { stamp },
            Plan::Done { stamp } => Step::Done { stamp },
        }
    }
}
