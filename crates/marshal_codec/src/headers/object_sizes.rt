//! Sizes of objects.

ghost use Rattle.std.specs.Prelude.{◌≡◌};
ghost use Rattle.marshal_spec.specs.format.Words.{words32, words64};
ghost use Rattle.marshal_codec.specs.headers.Counting.{IsCountable};

use base_data::model::code::Measure;

/// Returns the size of an object in words, including the header word: on a 32-bit platform and on a
/// 64-bit platform (`extern.c`).
#[inline(always)]
pub fn words_of(measure: Measure) -> (u64, u64)
    requires { IsCountable measure }
    ensures { result ≡ (words32 measure, words64 measure) }
{
    match measure {
        Measure::Block(fields) => (1 + fields, 1 + fields),
        Measure::Bytes(bytes) => (1 + (bytes + 4) / 4, 1 + (bytes + 8) / 8),
        Measure::Double => (3, 2),
        Measure::Doubles(doubles) => (1 + 2 * doubles, 1 + doubles),
        Measure::Custom(bytes32, bytes64) => (2 + (bytes32 + 3) / 4, 2 + (bytes64 + 7) / 8),
    }
}
