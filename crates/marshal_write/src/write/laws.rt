//! Laws over the definitions, stated as contracts of lemma functions.

ghost use Rattle.marshal_write.specs.write.Laws.{WrittenIsRead, ReadIsWritten};

/// Proves that the bytes written for a value are read as the same value, under every limit that the
/// words of the value's tree respect.
pub fn written_is_read()
    ensures { WrittenIsRead }
{}

/// Proves that reading canonical bytes and writing the value again gives the same bytes.
pub fn read_is_written()
    ensures { ReadIsWritten }
{}
