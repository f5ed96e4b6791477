//! Laws about the definitions of the generator, as contracts of lemma functions.

ghost use Rattle.cmd_gen.specs.generator.Worked.{WorkedValues};

/// States worked examples: the values that some numbers generate, and the lines for these values.
pub fn worked_values_are_generated()
    ensures { WorkedValues }
{}
