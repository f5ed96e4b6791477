//! The supported custom blocks: `Int32`, `Int64` and `Nativeint` (`ints.c`). `ident` decodes an
//! identifier, and `read_native` decodes the data of a `Nativeint`. `encode` encodes a custom block
//! as the runtime writes it.

mod custom_encoding;
mod identifier;
mod native;

pub use base_data::model::code::{Custom, CustomKind};
pub use custom_encoding::encode;
pub use identifier::ident;
pub use native::{NativeStep, read_native};
