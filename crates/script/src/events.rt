// The events of a script. A begin keeps the tablet's name as a part of the script, and the other
// cases hold numbers, as was asked for.

#[derive(Clone, Copy, PartialEq, Eq, Debug)]
pub enum Event<'a> {
    Open,
    Begin {
        stamp: u64,
        name: &'a [u8],
    },
    Read {
        stamp: u64,
        attempt: u64,
        granule: usize,
    },
    Write {
        stamp: u64,
        attempt: u64,
        granule: usize,
        code: u64,
    },
    Erase {
        stamp: u64,
        attempt: u64,
        granule: usize,
    },
    Commit {
        stamp: u64,
        attempt: u64,
    },
    RollBack {
        stamp: u64,
        attempt: u64,
    },
    Advance,
    Status {
        stamp: u64,
    },
    Notice {
        number: u64,
    },
}

// What a line's letter tells, before its numbers are read.
#[derive(Clone, Copy, PartialEq, Eq, Debug)]
pub enum EventKind {
    Open,
    Begin,
    Read,
    Write,
    Erase,
    Commit,
    RollBack,
    Advance,
    Status,
    Notice,
}
