//! The laws of this crate, as contracts of lemma functions.

ghost use Rattle.cert_produce.specs.Laws.{CertifiedAreAccepted, CertifiedAreShown, CertifiedAreOne};

/// If an entry certifies a value, then the verifier accepts the entry for the value, and the
/// verifier's answer is what the entry shows.
pub fn certified_sections_are_accepted()
    ensures accepted { CertifiedAreAccepted }
    ensures shown { CertifiedAreShown }
{}

/// A value has only one certificate entry.
pub fn certified_sections_are_one()
    ensures { CertifiedAreOne }
{}
