//! Implements `verify`: checks the values of the input by the entries of a certificate, while the
//! bytes of the values arrive. If an entry is accepted, the value has the type (`ShowsType`), or
//! has the stated fault (`ShowsFault`). A missing or rejected entry ends the run. The check of a
//! single entry is in `cert_verify`.

mod certificate_file;
pub mod laws;
mod reason;
mod verified_value;
mod verified_values;
mod verify_input;

pub use certificate_file::find_certificate;
pub use verified_values::Certified;
pub use verify_input::verify;
