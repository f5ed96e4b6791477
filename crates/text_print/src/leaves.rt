//! Prints values that have no parts, the text around and between the parts of other values, and the
//! lines of an untyped graph. The contracts state each appended text exactly. The order in which
//! parts are printed, and labels of shared objects, are not part of this crate.

mod at_type;
mod dump;
mod escape;
mod frame;
mod number_text;
mod string_text;
mod text_bytes;

pub use at_type::{write_int_at, write_object_at};
pub use dump::{write_object_line, write_root_line};
pub use escape::{write_char, write_escaped, write_string};
pub use frame::{Frame, block_frame, doubles_frame_of};
pub use number_text::{
    write_below, write_float, write_int, write_int32, write_int64, write_native,
};
pub use text_bytes::write_few;
