//! Proves that `verify` accepts what `check --cert` wrote (`written_certificates_are_accepted`).
//! For the same input, FILE and TYPE, the certificate is accepted, and `verify` prints the lines of
//! `check`.

pub mod laws;
