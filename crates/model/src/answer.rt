// What the calls answer.
use crate::fault::Fault;
use crate::phase::Phase;

// One step of an advance.
#[derive(Clone, Copy, PartialEq, Eq, Debug)]
pub enum Step {
    Idle,
    Put { granule: usize },
    Mark,
    Again { stamp: u64, granule: usize },
    Pass { stamp: u64 },
    Done { stamp: u64 },
}

#[derive(Clone, Copy, PartialEq, Eq, Debug)]
pub struct Opened {
    pub granules: usize,
    pub last: u64,
}

#[derive(Clone, Copy, PartialEq, Eq, Debug)]
pub struct Status {
    pub phase: Phase,
    pub attempt: u64,
    // how many live transactions are older
    pub older: usize,
    pub notes: usize,
}

// The answer of an accepted call.
#[derive(Clone, Copy, PartialEq, Eq, Debug)]
pub enum Reply {
    Opened(Opened),
    Began { attempt: u64 },
    // an entry's code, or none
    Read(Option<u64>),
    // a write or an erasure is recorded
    Recorded,
    // the phase that a commit leads to
    Committing(Phase),
    RolledBack,
    Stepped(Step),
    Status(Status),
    Noticed,
}

// Why a call is refused, in the order in which the causes are tried.
#[derive(Clone, Copy, PartialEq, Eq, Debug)]
pub enum Refusal {
    NotOpened,
    AlreadyOpened,
    BadStamp { last: u64 },
    NoFreeSlot,
    NoSuchGranule,
    NoSuchTransaction,
    OldAttempt { present: u64 },
    WrongPhase { phase: Phase },
    // another's open section writes the granule
    InSection { stamp: u64 },
    // the store refuses the step
    Store { granule: usize, fault: Fault },
    TooManyNotes,
    TooManyWrites,
    NoFreePlace,
    // the code is not of the entry kind
    ForeignCode { code: u64 },
}
