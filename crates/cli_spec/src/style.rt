//! Options that control how values are printed.

/// Options for printing a value. If `pretty` is true, the text spans several lines. If `pretty` is
/// false, the text is on one line. If `decimal` is true, doubles are printed as decimals. If
/// `decimal` is false, doubles are printed as their bits.
#[derive(Clone, Copy)]
pub struct Style {
    pub pretty: bool,
    pub decimal: bool,
}
