//! The state of the parser for lines of a script.

use base_data::model::path::Path;

/// The role of a path in a line.
#[derive(Drop)]
pub enum Role {
    Set,
    Link,
    /// The second path of `link`. Holds the first path.
    Source(Path),
    Unshare,
    Graft,
    /// The second path of `graft`. Holds the first path and the number of the source value.
    Part(Path, u64),
}

/// A prefix of a line, at most up to the `=` of `set`.
#[derive(Drop)]
pub enum LinePrefix {
    Start,
    /// A prefix that consists of the number of the edited value.
    Value(u64),
    /// A prefix inside a path: the number of the edited value, the path's role, the steps read up
    /// to now, and whether a dot follows the steps.
    Steps(u64, Role, Path, bool),
    /// A prefix of `graft` that ends with the `=`. Holds the number of the edited value and the
    /// first path.
    Other(u64, Path),
}

/// The result of a step on one lexeme.
#[derive(Drop)]
pub enum LexemeResult {
    Onward(LinePrefix),
    /// The lexeme is the `=` of `set`. Holds the number of the edited value and the path.
    Literal(u64, Path),
    /// Syntax error: no line continues with the lexeme.
    Nowhere,
}

/// The result of reading the lexemes of a line.
#[derive(Drop)]
pub enum LineLexemes {
    /// All lexemes were read. Holds the state after the last lexeme.
    All(LinePrefix),
    /// A `set` line. Holds the number of the edited value, the path, and the index of the lexeme
    /// after `=`.
    Literal(u64, Path, usize),
    /// Syntax error: no line continues at a lexeme. Holds the lexeme's index.
    Stuck(usize),
}
