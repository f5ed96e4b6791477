//! The specification of the option `--only`, which turns commands into commands with output for one
//! item of their input. `only_command_is_lawful` and `only_command_has_exit_statuses` prove that
//! the resulting commands are lawful and their status tables exact. `only_command_run_spec_of_each`
//! proves that nothing changes if all items are selected. The module contains only definitions and
//! laws.

pub mod laws;
