//! The words of objects, and sums over tokens (`extern.c`).

ghost use Rattle.std.specs.Prelude.{◌≡◌, ◌≤◌, ◌<◌, ◌^◌, length, Option};
ghost use Rattle.marshal_spec.specs.format.Words.{words32, words64, fields, objects, all_words32};
ghost use Rattle.marshal_spec.specs.format.Words.{all_words64, pending, sums_of, one_more};
ghost use Rattle.test_oracles.specs.Sums.{all_fields, sums_in, AreFew};

use base_data::model::code::Measure;

/// Sums over tokens: the objects, the pending values, and the words on 32-bit and on 64-bit
/// machines.
#[derive(Clone, Copy)]
pub struct Sums {
    pub objects: u128,
    pub pending: u128,
    pub w32: u128,
    pub w64: u128,
}

/// Returns the words of an object on a 32-bit machine, with the header word.
fn words32(measure: Measure) -> u128
    ensures words { result ≡ words32 measure }
    ensures few { result ≤ 2 ^ 65 }
{
    match measure {
        Measure::Block(n) => 1 + u128::from(n),
        Measure::Bytes(n) => 1 + (u128::from(n) + 4) / 4,
        Measure::Double => 3,
        Measure::Doubles(n) => 1 + 2 * u128::from(n),
        Measure::Custom(n, _) => 2 + (u128::from(n) + 3) / 4,
    }
}

/// Returns the words of an object on a 64-bit machine, with the header word.
fn words64(measure: Measure) -> u128
    ensures words { result ≡ words64 measure }
    ensures few { result ≤ 2 ^ 65 }
{
    match measure {
        Measure::Block(n) => 1 + u128::from(n),
        Measure::Bytes(n) => 1 + (u128::from(n) + 8) / 8,
        Measure::Double => 2,
        Measure::Doubles(n) => 1 + u128::from(n),
        Measure::Custom(_, n) => 2 + (u128::from(n) + 7) / 8,
    }
}

/// Returns the number of values that follow the token of a block as its fields.
fn fields(measure: Measure) -> u128
    ensures fields { result ≡ fields measure }
    ensures few { result ≤ 2 ^ 65 }
{
    match measure {
        Measure::Block(n) => u128::from(n),
        _ => 0,
    }
}

/// Sums over tokens: the objects, the fields of all blocks, and the words on 32-bit and on 64-bit
/// machines.
#[derive(Clone, Copy)]
struct Totals {
    objects: u128,
    fields: u128,
    w32: u128,
    w64: u128,
}

/// Returns the sums over all objects.
fn sum_up(tokens: &[Option<Measure>]) -> Totals
    requires { length tokens.now ≤ 2 ^ 62 }
    ensures objects { (result.objects ≡ objects tokens.now) × (result.objects ≤ 2 ^ 127) }
    ensures fields { (result.fields ≡ all_fields tokens.now) × (result.fields < 2 ^ 127) }
    ensures w32 { (result.w32 ≡ all_words32 tokens.now) × (result.w32 ≤ 2 ^ 127) }
    ensures w64 { (result.w64 ≡ all_words64 tokens.now) × (result.w64 ≤ 2 ^ 127) }
{
    let mut objects = 0;
    let mut all_fields = 0;
    let mut w32 = 0;
    let mut w64 = 0;
    for token in tokens {
        if let Some(measure) = token {
            objects += 1;
            all_fields += fields(*measure);
            w32 += words32(*measure);
            w64 += words64(*measure);
        }
    }
    Totals {
        objects,
        fields: all_fields,
        w32,
        w64,
    }
}

/// Returns the sums over these tokens. One value is pending at first. Each token is one of the
/// pending values, and adds its fields to the pending values.
pub fn sums_of(tokens: &[Option<Measure>]) -> Sums
    requires { length tokens.now ≤ 2 ^ 62 }
    ensures sums { sums_in result ≡ sums_of tokens.now }
    ensures few { AreFew result }
{
    let totals = sum_up(tokens);
    Sums {
        objects: totals.objects,
        pending: (1 + totals.fields).saturating_sub(tokens.len() as u128),
        w32: totals.w32,
        w64: totals.w64,
    }
}

/// Returns the sums with one more token, which is one of the pending values.
pub fn one_more(sums: Sums, measure: Option<Measure>) -> Sums
    requires { AreFew sums }
    ensures { sums_in result ≡ one_more (sums_in sums) measure }
{
    let pending = sums.pending.saturating_sub(1);
    match measure {
        None => Sums {
            objects: sums.objects,
            pending,
            w32: sums.w32,
            w64: sums.w64,
        },
        Some(measure) => Sums {
            objects: sums.objects + 1,
            pending: pending + fields(measure),
            w32: sums.w32 + words32(measure),
            w64: sums.w64 + words64(measure),
        },
    }
}
