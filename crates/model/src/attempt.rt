// Who makes a call.

// An attempt of a transaction: the transaction by its stamp, its attempts counted from 1.
#[derive(Clone, Copy, PartialEq, Eq, Debug)]
pub struct Attempt {
    pub stamp: u64,
    pub number: u64,
}
