//! The specification of the option `--skip`, which turns commands into commands that skip the first
//! bytes of their input. `skipping_is_lawful` and `causes_after_skipping` prove that the resulting
//! commands are lawful and have the exit statuses of the commands. `skipping_run_spec_at_once`
//! proves that nothing changes if no byte is skipped. The module contains only definitions and
//! laws.

pub mod laws;
