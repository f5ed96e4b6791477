//! The specification of the command `check --cert` in the general form of `Commands`. The
//! specification states which file is requested, and which certificate entry is written for a
//! value. The specification also states where the run ends early, and how the run ends.
//! `causes_of_sections` proves the meaning of the exit statuses. The module contains only
//! definitions and laws. The command's code is in `command`.

pub mod laws;
