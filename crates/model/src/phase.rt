// Where a transaction stands, and whether its notes are marked.

// A phase, with its number.
#[derive(Clone, Copy, PartialEq, Eq, Debug)]
pub enum Phase {
    // no transaction has the slot
    Free = 0,
    Running = 1,
    // committing, while an older transaction is live
    Waiting = 2,
    // appending its writes
    Section = 3,
    // validating the younger live transactions one by one
    Checking = 4,
    Committed = 5,
}

// What a validation has to do with a younger transaction.
#[derive(Clone, Copy, PartialEq, Eq, Debug)]
pub enum Mark {
    Unmarked,
    // still to be checked against its first notes, of which there are so many
    Marked(usize),
    Checked,
}
