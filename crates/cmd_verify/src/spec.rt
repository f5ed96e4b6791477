//! The specification of the command `verify` in the general form of `Commands`. The specification
//! states which files are requested, and which output a value has by the certificate entry with the
//! value's number. The specification also states where the run ends early, and how the run ends.
//! `causes_of_certificates` proves the meaning of the exit statuses. The module contains only
//! definitions and laws. The command's code is in `command`.

pub mod laws;
