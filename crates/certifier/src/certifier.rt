// The certifier's own state, in fixed memory: the slots are an array, and a free one is in phase 0.
use slot::Slot;

#[derive(Drop)]
pub struct Certifier {
    // the stamp of the last begin, or the store's latest at open; none before it is opened
    pub(crate) last: Option<u64>,
    pub(crate) slots: [Slot; 32],
}
