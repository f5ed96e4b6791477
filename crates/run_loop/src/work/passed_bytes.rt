//! The result of consuming bytes without a call of `feed` for each item.

/// Bytes that were consumed at once. `bytes` is the number of bytes. If `copied` is true, the
/// output for the items in the bytes is the bytes themselves, and otherwise empty.
#[derive(Clone, Copy)]
pub struct PassedBytes {
    pub bytes: usize,
    pub copied: bool,
}
