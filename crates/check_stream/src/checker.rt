//! The streaming check: types a value in one pass over the value's bytes, without a heap. If the
//! result is `PassStop::Typed`, the value has the type (`IsTypedPrefix`). If the result is
//! `PassStop::Inconclusive`, nothing is known about the value, and another checker must decide.

mod back;
mod check_state;
mod checker_step;
mod fast;
pub mod flat_blocks;
pub mod leading_token;
mod listed_tokens;
mod open_positions;
mod passing;
mod reread;
mod stated_words;
pub mod token_fits;
pub mod whole;

pub use back::mark;
pub use check_state::CheckState;
pub use open_positions::{BlockPositions, OpenPositions, values_of};
pub use passing::{Passing, pass};
pub use stated_words::Words;
pub use whole::PassStop;
