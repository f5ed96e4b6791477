//! The laws of the format, as contracts of lemma functions.

ghost use Rattle.cert_format.specs.Laws.{SectionsAreOne, CertificatesHaveNoFault, FaultsAreOne};
ghost use Rattle.cert_format.specs.Laws.{WrittenSectionsAreCertificates};

/// Proves that a text is the certificate of at most one list of entries. A certificate has no
/// faulty line, and a text has at most one first faulty line.
pub fn texts_are_one()
    ensures sections { SectionsAreOne }
    ensures no_fault { CertificatesHaveNoFault }
    ensures fault { FaultsAreOne }
{}

/// Proves that the texts of entries, one after another, form the certificate of these entries.
pub fn written_sections_are_certificates()
    ensures { WrittenSectionsAreCertificates }
{}
