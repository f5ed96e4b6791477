//! Combines two command sets into one. Each command can have its definitions, its theorems and its
//! own type of tasks in a separate crate. Proves that the sum of disjoint lawful sets is lawful
//! (`command_sums_are_lawful`), and that a request behaves as in the set to which the request
//! belongs. The crate contains no code that runs.

pub mod laws;
