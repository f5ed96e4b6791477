//! Lemma functions: a lemma function does nothing at run time, and its contract is a law.

ghost use Rattle.marshal_spec.specs.canonical.Laws.{EncodingEncodes, CanonEncodes, SameIsReflexive};
ghost use Rattle.marshal_spec.specs.canonical.Laws.{SameIsSymmetric, SameIsTransitive};
ghost use Rattle.marshal_spec.specs.canonical.Laws.{OneTreeFollows};

/// Proves that the canonical encoding of a token is an encoding of that token. A reader that
/// decodes the encoding therefore returns the token.
pub fn encoding_encodes()
    ensures { EncodingEncodes }
{}

/// Proves that canonical bytes encode their tree. The law requires that the tree's data have fewer
/// than 2^48 bytes and that the tree's 64-bit words are within the limit.
pub fn canon_encodes()
    ensures { CanonEncodes }
{}

/// Proves that isomorphism of values (equality up to the numbers of their objects) is an
/// equivalence.
pub fn same_is_an_equivalence()
    ensures reflexive { SameIsReflexive }
    ensures symmetric { SameIsSymmetric }
    ensures transitive { SameIsTransitive }
{}

/// Proves that each value of a graph has exactly one tree whose root value is isomorphic to the
/// value.
pub fn one_tree()
    ensures { OneTreeFollows }
{}
