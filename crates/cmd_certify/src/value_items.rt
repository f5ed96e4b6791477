//! Definitions and lemmas for commands whose items are values. The definitions state which values
//! have been read and which output has been written for the values, while the bytes of the input
//! arrive. The module contains no code.
