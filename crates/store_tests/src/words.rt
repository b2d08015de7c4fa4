// Words that tests lend to tables.

// So many words of zero: pairs that are not in use.
pub(crate) fn zeros<const N: usize>() -> [u64; N] {
    [0; N]
}
