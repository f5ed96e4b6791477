//! The headers of marshalled values, and the sizes of objects that headers state (`intext.h`).
//! `parse` decodes a header incrementally, `encode` encodes a header as the runtime writes it, and
//! `words_of` computes the size of an object.

mod header_encoding;
mod magic;
mod object_sizes;
mod parsing;

pub use base_data::model::code::Measure;
pub use base_data::model::header::Head;
pub use header_encoding::encode;
pub use object_sizes::words_of;
pub use parsing::{HeadFault, HeaderStep, parse};
