//! Functions that read the depth, the open brackets and the completeness of the type that is being
//! read.

ghost use Rattle.std.specs.Prelude.{◌≡◌, ◌≤◌, ◌<◌, ◌++◌, ◌∷◌, [], suc, length, take};
ghost use Rattle.types_parse.specs.grammar.LexemeKinds.{kinds_of};
ghost use Rattle.types_parse.specs.grammar.Refusals.{opened};
ghost use Rattle.types_parse.specs.parse.TypeCode.{part_depth_code, depth_code, whole_code, Finds};

use crate::parse::open::{OpenConstruct, OpenPart, ParsePhase};
use crate::parse::parse_stack::ParseStack;
use crate::parse::type_step::{TypeSoFar, add, deeper, deepest};
use base_data::model::Memory;
use types_lex::lexeme::{Lexeme, LexemeKind, Symbol};
use types_spec::types::ty::TypeTreeNode;

/// Returns the kind of the lexeme with this index.
pub fn kind_at(lexemes: &[Lexeme], position: usize) -> &LexemeKind
    requires { position < length lexemes.now }
    ensures { take (suc position) (kinds_of lexemes.now)
        ≡ take position (kinds_of lexemes.now) ++ result.now ∷ [] }
{
    let lexeme = &lexemes[position];
    &lexeme.kind
}

/// Returns the number of open brackets after the lexeme `kind`, where `brackets` is the number
/// before the lexeme.
pub fn opened(kind: &LexemeKind, brackets: usize) -> usize
    requires { brackets ≤ 200 }
    ensures { result ≡ opened kind.now brackets }
{
    match kind {
        LexemeKind::Symbol(Symbol::OpenParen | Symbol::OpenBracket | Symbol::OpenBrace) => brackets
            + 1,
        LexemeKind::Symbol(Symbol::CloseParen | Symbol::CloseBracket | Symbol::CloseBrace) =>
            brackets.saturating_sub(1),
        _ => brackets,
    }
}

/// Returns the depth of the deepest type that ends with this component.
fn part_depth(frames: &ParseStack, component: &OpenPart) -> usize
    ensures { result ≡ part_depth_code frames.now component.now }
{
    match frames.top() {
        Some(OpenConstruct::Component(tuple)) => deeper(deepest(tuple.depth, component.depth)),
        _ => component.depth,
    }
}

/// Returns the depth of the deepest type that ends at the last lexeme. Depths above 200 are
/// returned as 201.
pub fn depth(frames: &ParseStack, phase: &ParsePhase) -> usize
    ensures { result ≡ depth_code frames.now phase.now }
{
    match phase {
        ParsePhase::Read(component) => part_depth(frames, component),
        _ => 0,
    }
}

/// Returns true if every construct is closed. If the result is true, the last node is the complete
/// type.
pub fn whole(so_far: &mut TypeSoFar, phase: ParsePhase) -> Result<bool, Memory>
    ensures { Finds result so_far.new.nodes.items
        (whole_code so_far.old.nodes.items so_far.old.frames phase) }
{
    let ParsePhase::Read(component) = phase else {
        return Ok(false);
    };
    match so_far.frames.pop() {
        None => Ok(true),
        Some(OpenConstruct::Component(tuple)) => match so_far.frames.pop() {
            None => {
                add(
                    &mut so_far.nodes,
                    TypeTreeNode::Part(tuple.node, component.node),
                )?;
                Ok(true)
            }
            Some(_) => Ok(false),
        },
        Some(_) => Ok(false),
    }
}
