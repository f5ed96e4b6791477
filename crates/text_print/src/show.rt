//! Defines the text of a value at a type, with labels for shared parts. Also defines the text of
//! the part at a path, and the text of an untyped graph. The module contains only definitions,
//! examples of texts worked out by hand (`WorkedTextRows`), and laws (`laws`). The code that prints
//! values is in other modules.

pub mod laws;

ghost use Rattle.text_print.specs.show.WorkedTexts.{WorkedTextRows};

/// Proves that the texts of the example values are as expected.
pub fn texts_of_worked_values()
    ensures { WorkedTextRows }
{}
