//! The reasons why a text of declarations, or of a type, is refused.

ghost use Rattle.std.specs.Prelude.{◌≡◌};
ghost use Rattle.types_parse.specs.parse.Parsed.{byte_of};
ghost use Rattle.types_wellformed.specs.declarations.DeclarationFault.{lexed, parsed, broken_at};
ghost use Rattle.types_wellformed.specs.declarations.DeclarationFault.{head_at};
ghost use Rattle.types_wellformed.specs.declared.declarations.declaration_fault.DeclFault.TheVariants as faults;

use crate::head_rules::HeadBreak;
use base_data::model::Memory;
use base_data::model::list::List;
use types_lex::lexeme::{LexFault, Lexeme};
use types_parse::parse::{ParseFault, byte_of};
use types_resolve::scope::{Broken, NameRule};

/// The reason why a text is refused. A number in a fault is the offset in bytes at which the
/// refused lexeme begins.
#[derive(Drop)]
pub enum DeclFault {
    /// The lexer refuses the text, because of the lexical error.
    Lex(LexFault),
    /// A syntax error: the first lexeme, or the end of the text, that no text of the grammar has
    /// after the earlier lexemes.
    Syntax(usize),
    /// The 201st open bracket, or the end of a type with a depth above 200.
    TooDeep(usize),
    /// A type name, constructor, field, parameter or tag that was declared before, or the name of a
    /// predeclared type.
    Twice(usize),
    /// A type name that is neither predeclared nor declared in the group of its use or in an
    /// earlier group.
    UnknownName(usize),
    /// A type name with a wrong number of arguments.
    Arity(usize),
    /// A variable in a declaration that is not a parameter of the declaration.
    UnboundVar(usize),
    /// The declared name of an abbreviation that expands to itself outside tag arguments.
    Cyclic(usize),
    /// A type name that is used in its own group with an irregular argument. An irregular argument
    /// contains a variable but is not a variable, as in `type 'a t = Nil | Cons of 'a list t`.
    Irregular(usize),
    /// The 245th constructor with arguments of a declaration.
    TooManyConstructors(usize),
    /// A type that a bracket includes, and that is not a polymorphic variant.
    NotVariant(usize),
    /// An item of a bracket with a tag that an earlier item has with another argument.
    TagClash(usize),
    /// An item with a tag that has the same hash as another tag of the bracket, and the names of
    /// the two tags.
    HashClash(usize, List<u8>, List<u8>),
    /// The declared name of a record whose fields all expand to `float`. At least one field expands
    /// through an abbreviation of the record's group.
    FloatInGroup(usize),
    /// The declared name of a record with fields that expand to `float` and fields that expand to
    /// `_`, and no other fields.
    MixedRecord(usize),
    /// An allocation failed.
    Memory,
}

impl From<Memory> for DeclFault {
    ghost from_gives = { λ _ e. e ≡ faults.Memory };

    fn from(_e: Memory) -> DeclFault {
        DeclFault::Memory
    }
}

/// Returns the fault for an error of the lexer.
pub fn lex_fault(fault: LexFault) -> DeclFault
    ensures { result ≡ lexed fault }
{
    match fault {
        LexFault::Memory => DeclFault::Memory,
        _ => DeclFault::Lex(fault),
    }
}

/// Returns the fault for lexemes that the grammar refuses, in a text of `end` bytes.
pub fn parse_fault(fault: ParseFault, lexemes: &[Lexeme], end: usize) -> DeclFault
    ensures { result ≡ parsed lexemes.now end fault }
{
    match fault {
        ParseFault::Syntax(k) => DeclFault::Syntax(byte_of(lexemes, end, k)),
        ParseFault::TooDeep(k) => DeclFault::TooDeep(byte_of(lexemes, end, k)),
        ParseFault::Memory => DeclFault::Memory,
    }
}

/// Returns the fault for a broken rule on names, in a text of `end` bytes with the lexemes
/// `lexemes`.
pub fn scope_fault(broken: Broken, lexemes: &[Lexeme], end: usize) -> DeclFault
    ensures { result ≡ broken_at broken.rule (byte_of lexemes.now end broken.position) }
{
    let position = byte_of(lexemes, end, broken.position);
    match broken.rule {
        NameRule::Twice => DeclFault::Twice(position),
        NameRule::UnknownName => DeclFault::UnknownName(position),
        NameRule::Arity => DeclFault::Arity(position),
        NameRule::UnboundVariable => DeclFault::UnboundVar(position),
        NameRule::Cyclic => DeclFault::Cyclic(position),
        NameRule::Irregular => DeclFault::Irregular(position),
        NameRule::TooManyConstructors => DeclFault::TooManyConstructors(position),
    }
}

/// Returns the fault for a broken rule that depends on heads, in a text of `end` bytes with the
/// lexemes `lexemes`.
pub fn head_fault(broken: HeadBreak, lexemes: &[Lexeme], end: usize) -> DeclFault
    ensures { result ≡ head_at lexemes.now end broken }
{
    match broken {
        HeadBreak::NotVariant(k) => DeclFault::NotVariant(byte_of(lexemes, end, k)),
        HeadBreak::TagClash(k) => DeclFault::TagClash(byte_of(lexemes, end, k)),
        HeadBreak::HashClash(k, one, other) => {
            DeclFault::HashClash(byte_of(lexemes, end, k), one, other)
        }
        HeadBreak::FloatInGroup(k) => DeclFault::FloatInGroup(byte_of(lexemes, end, k)),
        HeadBreak::MixedRecord(k) => DeclFault::MixedRecord(byte_of(lexemes, end, k)),
    }
}
