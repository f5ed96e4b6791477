//! The offsets of object headers in an arena of 64-bit words. `OffsetList` maps an object's number
//! to the offset of the object's header, and an offset back to the object's number, each in
//! constant time.

mod cells;
pub mod offset_list;
