//! Implements `check --cert`: writes a certificate entry for each value of the input, while the
//! bytes of the values arrive. The entry states the typed pairs of the value (`CertifiesType`) or
//! the value's first fault (`CertifiesFault`). The law `declared_certificates_are_one` proves that
//! the entry is unique.

mod certified_values;
mod certify_input;
pub mod laws;
mod value_entry;

pub use certified_values::Certifying;
pub use certify_input::certify;
pub use value_entry::value_section;
