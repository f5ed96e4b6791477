//! The state of the parser while a type is read.

use base_data::model::list::List;

/// The index of the node of a complete type, or of a tuple or bracket that is not yet complete, and
/// its depth. Depths above 200 are stored as 201.
#[derive(Clone, Copy)]
pub struct OpenPart {
    pub node: usize,
    pub depth: usize,
}

/// A construct whose end the parser has not yet read.
#[derive(Drop)]
pub enum OpenConstruct {
    Group,
    /// The indices of the arguments read so far, and the depth of the deepest argument.
    Arguments(List<usize>, usize),
    /// A tuple, with the components read so far.
    Component(OpenPart),
    /// A bracket without items: whether a bar was read, and the index of the bracket's node.
    Opened(bool, usize),
    /// A bracket, with the items read so far.
    Items(OpenPart),
    /// A tag whose argument comes next.
    TagArgument(List<u8>),
}

/// What the parser read last.
#[derive(Drop)]
pub enum ParsePhase {
    Due,
    Read(OpenPart),
    /// Several arguments, with the depth of the deepest one, after which the name of the type comes
    /// next.
    NameDue(List<usize>, usize),
    TagRead(List<u8>),
}

/// An item of a bracket: a tag, a tag with an argument, or an included type.
#[derive(Drop)]
pub enum OpenItem {
    Tag(List<u8>),
    TagOf(List<u8>, OpenPart),
    Included(OpenPart),
}

/// The result of a step on one lexeme inside a type.
#[derive(Drop)]
pub enum TypeStep {
    Goes(ParsePhase),
    /// The type ended before this lexeme. The last node is the type.
    Ended,
    /// Syntax error: no type continues with this lexeme.
    Stops,
}
