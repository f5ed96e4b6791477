//! The specification of the command `gen` in the general form of `Commands`. The command generates
//! a value from a number, reads no input, and writes one line. `causes_of_gen_spec` proves the
//! meaning of the exit statuses. The module contains only definitions and laws. The command's code
//! is in `command`.

pub mod laws;
