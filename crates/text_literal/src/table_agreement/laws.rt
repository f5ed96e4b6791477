//! The law of agreement, stated as the contract of a lemma function.

ghost use Rattle.text_literal.specs.table_agreement.TableAgreement.{TablesReadAgree};

/// Proves that the reading of a literal at a type index of a table agrees with the literal's
/// reading at the type with this index.
pub fn tables_read_agree()
    ensures { TablesReadAgree }
{}
