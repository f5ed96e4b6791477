//! The occurrences of names in a text of declarations.

ghost use Rattle.std.specs.Prelude.{◌≡◌};

use base_data::model::list::List;
use std::marker::Model;

/// A name in a text, with the index of the name's lexeme.
#[derive(Drop)]
pub struct LocatedName {
    position: usize,
    name: List<u8>,
}

impl Model for LocatedName {
    ghost use Rattle.std.specs.Prelude.{ℕ, List as Seq};

    ghost Value = { ℕ × Seq ℕ };

    ghost view = { λ p. (p.position, p.name) };
}

impl LocatedName {
    /// Makes a located name from the index of a lexeme and a name.
    pub fn new(position: usize, name: List<u8>) -> LocatedName
        ensures { result ≡ (position, name) }
    {
        LocatedName { position, name }
    }

    /// Returns the index of the name's lexeme.
    pub fn position(&self) -> usize
        ensures { result ≡ self.now.0 }
    {
        self.position
    }

    /// Returns the bytes of the name.
    pub fn name(&self) -> &[u8]
        ensures { result.now ≡ self.now.1 }
    {
        self.name.as_slice()
    }
}

/// A use of a type name, with the facts about its arguments that the rules read.
#[derive(Drop)]
pub struct TypeUse {
    pub position: usize,
    pub name: List<u8>,
    /// The number of arguments in the use.
    pub arguments: usize,
    /// True if some argument contains a variable but is not a variable itself.
    pub grows: bool,
    /// True if the use is inside the argument of a tag.
    pub in_tag: bool,
}

/// The occurrences of names in a declaration.
#[derive(Drop)]
pub struct Site {
    /// Lists of names that must be distinct: the parameters, the constructors, the fields of each
    /// record, and the tags that each bracket writes.
    pub rows: List<List<LocatedName>>,
    /// The lexemes of the names of constructors with arguments.
    pub carrying: List<usize>,
    pub uses: List<TypeUse>,
    pub variables: List<LocatedName>,
}

/// The occurrences of names in the text of a type.
#[derive(Drop)]
pub struct TypeSite {
    /// The tags that each bracket writes.
    pub rows: List<List<LocatedName>>,
    pub uses: List<TypeUse>,
}
