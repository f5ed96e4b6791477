//! Laws of the definitions. Each function here is a lemma function: it has no effect and exists
//! only for its contract.

ghost use Rattle.marshal_spec.specs.format.Laws.{HasOneJudgement, NoEncodingBeginsAnother};
ghost use Rattle.marshal_spec.specs.format.Laws.{EncodesOneToken};

/// Every byte string has exactly one judgement: it is incomplete, it begins with a value, or it
/// begins with refused bytes. The value or the refusal is unique.
pub fn one_judgement()
    ensures { HasOneJudgement }
{}

/// If one encoding of a token is a prefix of another encoding of a token, then both encodings are
/// equal.
pub fn no_encoding_begins_another()
    ensures { NoEncodingBeginsAnother }
{}

/// Each byte string encodes at most one token.
pub fn one_token()
    ensures { EncodesOneToken }
{}
