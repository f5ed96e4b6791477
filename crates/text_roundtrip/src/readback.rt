//! Proves that the text of a value at a type is read back as the value. Texts and trees visit
//! objects in one order. Therefore the objects that are read are the objects of the tree, with the
//! numbers that the tree gives. The lemma function `texts_are_read_back` states the law in its
//! contract and does nothing.

mod laws;

pub use laws::texts_are_read_back;
