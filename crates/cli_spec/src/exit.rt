//! The reasons why a run ends.

use base_data::model::list::List;

/// Exit reason of a run. A number is that of a value or of a line in a script, certificate or input
/// text. The number in `Short` is the number of bytes of an input that ends before the bytes to
/// skip. A text is a file name, the text of a fault, or the text of a refusal. `Finished` means
/// that the run has written all requested output and reads no more. The flag of `Finished` is true
/// if there were no errors.
#[derive(Drop)]
pub enum Exit {
    Usage,
    BadPath,
    NotTwoValues,
    CannotOpen(List<u8>),
    Declarations(List<u8>),
    RequestedType(List<u8>),
    Value(u64, List<u8>),
    Script(usize, List<u8>),
    Text(u64, List<u8>),
    Untyped(u64, List<u8>),
    LargeValue(u64, List<u8>),
    Certificate(usize),
    Uncertified(u64, List<u8>),
    SectionsLeft,
    Short(u64),
    Finished(bool),
    ReadFault,
    TooLong,
    Memory,
}
