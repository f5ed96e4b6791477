//! The kind of a token, with the bounds on its numbers.

ghost use Rattle.marshal_spec.specs.format.Code.{IsKind};
ghost use Rattle.marshal_codec.specs.codes.KnownKinds.{IsKind-prop};

use base_data::model::code::CodeKind;

/// The kind of a token. The numbers of the kind fit into the bits that the code has for them, and a
/// width is from one byte to eight.
#[derive(Clone, Copy)]
pub struct KnownKind {
    pub kind: CodeKind,
    pub ghost known: { IsKind kind } by { IsKind-prop kind },
}
