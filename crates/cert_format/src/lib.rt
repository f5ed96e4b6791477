//! Reads and writes the text format of certificates.
//!
//! The crate owns the certificate entry of a value (`Section`): either pairs of objects and types
//! that justify each other (`CertificatePairs`), or the paths of a fault. The crate defines the
//! text of an entry, the text of a certificate, and the first faulty line of a text (`CertFault`,
//! counted from 1).
//!
//! Promises:
//!
//! - `read_cert` returns the entries of the certificate. If the text is no certificate, `read_cert`
//!   returns the first line with which no certificate continues.
//! - `CertReader::take` and `CertReader::finish` return the result of `read_cert` for a text that
//!   arrives in chunks.
//! - `texts_are_one`: a text is the certificate of at most one list of entries, and a certificate
//!   has no faulty line. A text has at most one first faulty line.
//! - `written_sections_are_certificates`: the texts of entries, one after another, are the
//!   certificate of the entries.
//! - `write_cert` writes the text of an entry. After a write error, a proper prefix was written. If
//!   memory runs out, nothing was written.
//! - `CertificatePairs::len` ensures that the pairs increase.
//!
//! Leaves out: whether an entry is right for a value (`cert_verify`), which entry a value gets
//! (`cert_produce`), and the commands (`cmd_verify`, `cmd_certify`).
#![tactic(auto)]

mod certificate_lines;
mod certificate_number;
mod certificate_reader;
mod cuts;
mod entry_head;
mod entry_writer;
mod laws;
mod pair_lines;
mod pair_runs;
mod section;
mod stems;

pub use certificate_number::number_of;
pub use certificate_reader::{Cert, CertFault, CertReader, read_cert};
pub use entry_writer::write_cert;
pub use laws::{texts_are_one, written_sections_are_certificates};
pub use section::{CertificatePairs, Section};
