//! The identifiers of custom blocks.

ghost use Rattle.std.specs.Prelude.{◌≡◌};
ghost use Rattle.marshal_spec.specs.format.Code.{custom_of};

use base_data::model::code::CustomKind;

/// Returns the kind of the custom block with this identifier (`ints.c`), or `None` if the tool does
/// not support that kind.
#[tactic(auto, unfolding(marshal_spec::specs::format::Code::custom_of))]
pub fn ident(bytes: [u8; 3]) -> Option<CustomKind>
    ensures { result ≡ custom_of bytes }
{
    match bytes {
        [b'_', b'i', 0] => Some(CustomKind::Int32),
        [b'_', b'j', 0] => Some(CustomKind::Int64),
        [b'_', b'n', 0] => Some(CustomKind::Native),
        _ => None,
    }
}
