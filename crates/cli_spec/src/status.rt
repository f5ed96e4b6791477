//! The exit statuses of the program, with their numbers.

ghost use Rattle.std.specs.Prelude.{◌≡◌};
ghost use Rattle.cli_spec.specs.Status.{code_of};

/// The exit status of the program, one case for each kind of ending.
#[derive(Clone, Copy)]
pub enum Status {
    /// The run ended without errors.
    AllOk,
    /// Some value does not have the type, or two compared values differ.
    No,
    /// The arguments do not form a valid command.
    Usage,
    /// The declarations or the type are refused.
    Types,
    /// Some input bytes are refused as a value.
    Value,
    /// A script is refused.
    Script,
    /// Reading the input or a file failed.
    ReadFault,
    /// Writing the output failed.
    WriteFault,
    /// A file could not be opened.
    OpenFault,
    /// The program ran out of memory.
    Memory,
    /// The input or a file has 2^48 bytes or more.
    TooLong,
    /// A value is too large for a 32-bit reader.
    Compat,
    /// A certificate has a syntax error, or does not prove its statement about each value.
    Certificate,
}

impl Status {
    /// Returns the exit code of the process for the status.
    pub fn code(self) -> u8
        ensures { result ≡ code_of self }
    {
        match self {
            Status::AllOk => 0,
            Status::No => 1,
            Status::Usage => 2,
            Status::Types => 3,
            Status::Value => 4,
            Status::Script => 5,
            Status::ReadFault => 6,
            Status::WriteFault => 7,
            Status::OpenFault => 8,
            Status::Memory => 9,
            Status::TooLong => 10,
            Status::Compat => 11,
            Status::Certificate => 12,
        }
    }
}
