// The numbers of phases and refusals; that of a cause stands beside it.
ghost use Rattle.std.specs.Prelude.{◌≡◌};
ghost use Rattle.model.specs.Numbers.{phase_number, refusal_number, live};
ghost use Rattle.model.specs.Refusals.{running, running_or_waiting};

use crate::answer::Refusal;
use crate::phase::Phase;

impl Phase {
    pub fn number(self) -> u8
        ensures { result ≡ phase_number self }
    {
        self as u8
    }

    pub fn is_running(self) -> bool
        ensures { result ≡ running (phase_number self) }
    {
        self == Phase::Running
    }

    pub fn is_running_or_waiting(self) -> bool
        ensures { result ≡ running_or_waiting (phase_number self) }
    {
        matches!(self, Phase::Running | Phase::Waiting)
    }

    // Running, waiting, in its section or checking.
    pub fn is_live(self) -> bool
        ensures { result ≡ live (phase_number self) }
    {
        !matches!(self, Phase::Free | Phase::Committed)
    }
}

impl Refusal {
    // By a match, since a case with data has no number that `as` could give.
    pub fn number(self) -> u8
        ensures { result ≡ refusal_number self }
    {
        match self {
            Refusal::NotOpened => 1,
            Refusal::AlreadyOpened => 2,
            Refusal::BadStamp { .. } => 3,
            Refusal::NoFreeSlot => 4,
            Refusal::NoSuchGranule => 5,
            Refusal::NoSuchTransaction => 7,
            Refusal::OldAttempt { .. } => 8,
            Refusal::WrongPhase { .. } => 9,
            Refusal::InSection { .. } => 10,
            Refusal::Store { .. } => 11,
            Refusal::TooManyNotes => 12,
            Refusal::TooManyWrites => 13,
            Refusal::NoFreePlace => 14,
            Refusal::ForeignCode { .. } => 15,
        }
    }
}
