//! Options that control how values are read from the input.

/// Options for reading values. `limit` is the largest allowed number of 64-bit words in each value.
/// `skip` is the number of input bytes before the first value. `only` is the number of the single
/// value to report, if the option `--only` is used.
#[derive(Clone, Copy)]
pub struct ReadOptions {
    pub limit: u64,
    pub skip: u64,
    pub only: Option<u64>,
}
