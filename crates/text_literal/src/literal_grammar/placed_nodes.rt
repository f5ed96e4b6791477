//! The parser for a literal's text. The parser reads one lexeme of the text at a time.

ghost use Rattle.std.specs.Prelude.{◌≡◌, ◌+◌, ◌<◌, ◌≤◌, ◌^◌, ℕ, List, [], length, IfOk};
ghost use Rattle.types_lex.specs.declared.lexeme.Lexeme.{Lexeme};
ghost use Rattle.types_lex.specs.LexText.{Faults, UnlessMemory};
ghost use Rattle.types_lex.specs.Lexemes.{Reached};
ghost use Rattle.text_literal.specs.literal_grammar.LiteralCode.{step_code, end_code, Steps};
ghost use Rattle.text_literal.specs.literal_grammar.PlacedLiterals.{IsLexed, Stopped, ReadsAt};
ghost use Rattle.text_literal.specs.literal_grammar.PlacedLiterals.{ReadsPlaced};

use crate::literal_grammar::literal_nodes::LiteralNodes;
use crate::literal_grammar::literal_so_far::{LiteralSoFar, NextStage};
use crate::literal_grammar::pending_node::{Opens, Stage};
use base_data::model::Memory;
use std::alloc::Global;
use types_lex::lexeme::{LexFault, Lexeme, LexemeSpan};
use types_lex::{next_brief, see_lexemes};

/// An estimate for reserving memory: few texts have more lexemes or nodes per byte. If memory is
/// reserved in advance, growth copies nothing. Unused reserved memory costs nothing.
const BYTES_A_LEXEME: usize = 2;

const BYTES_A_NODE: usize = 6;

/// The nodes of a literal, and the byte offsets of the lexemes in the literal's text.
#[derive(Drop)]
pub struct PlacedNodes {
    pub positions: Vec<u32>,
    pub tree: LiteralNodes,
}

/// An error in the text of a literal. Positions are byte offsets.
#[derive(Clone, Copy)]
pub enum PlacedFault {
    /// Lexical error.
    Lex(LexFault),
    /// Syntax error: the offset of the first lexeme at which no literal continues, or the end of
    /// the text.
    Syntax(usize),
    /// The text has 2^32 bytes or more.
    TooLong,
    /// Out of memory.
    Memory,
}

/// Converts a lexical error to an error in the text of a literal.
fn lexed(fault: LexFault) -> PlacedFault
    ensures { (text : List ℕ) → UnlessMemory (Faults text) fault → IsLexed text result }
{
    match fault {
        LexFault::Memory => PlacedFault::Memory,
        _ => PlacedFault::Lex(fault),
    }
}

/// Returns the error of a text in which no literal continues at the lexeme with this span. If the
/// remaining text has a lexical error, the lexical error takes precedence.
fn stopped(alloc: Global, text: &[u8], span: LexemeSpan) -> PlacedFault
    requires { span.first + span.len ≤ length text.now }
    ensures { (prefix : List Lexeme) → Reached text.now (span.first + span.len) prefix
        → Stopped text.now prefix span.first result }
{
    match see_lexemes(alloc, text, span.first + span.len) {
        Ok(()) => PlacedFault::Syntax(span.first),
        Err(fault) => lexed(fault),
    }
}

/// Parses one lexeme and returns the next stage, or `None` if no literal continues with the lexeme.
#[inline(always)]
fn take(so_far: &mut LiteralSoFar, stage: Stage, position: usize, lexeme: Lexeme) -> NextStage
    ensures { Steps result so_far.new.nodes so_far.new.opens
        (step_code so_far.old.nodes so_far.old.opens stage position lexeme.kind) }
{
    so_far.step(stage, position, &lexeme.kind)
}

/// Returns the nodes of the literal that ends at the current stage, or `None` if no literal can end
/// at this stage.
fn ended(so_far: LiteralSoFar, stage: Stage) -> Result<Option<LiteralNodes>, Memory>
    ensures { IfOk result (λ tree. tree ≡ end_code so_far.nodes so_far.opens stage) }
{
    let mut so_far = so_far;
    if so_far.end(stage)? {
        Ok(Some(so_far.nodes))
    } else {
        Ok(None)
    }
}

/// Parses a text that is not blank, and appends the byte offsets of the text's lexemes to
/// `positions`.
fn read_at(
    alloc: Global,
    text: &[u8],
    positions: &mut Vec<u32>,
) -> Result<Option<LiteralNodes>, PlacedFault>
    requires empty { positions.old.items ≡ [] }
    requires short { length text.now < 2 ^ 32 }
    ensures { ReadsAt text.now positions.new.items result }
{
    let nodes = LiteralNodes::with_room(alloc, text.len() / BYTES_A_NODE);
    let opens = Opens::new(alloc);
    let mut so_far = LiteralSoFar { nodes, opens };
    let mut stage = Stage::Due;
    let mut at: usize = 0;
    while at < text.len() {
        match next_brief(alloc, text, at) {
            Ok(Some(lexeme)) => {
                let span = lexeme.span;
                match take(&mut so_far, stage, positions.len(), lexeme) {
                    Ok(Some(next)) => stage = next,
                    Ok(None) => return Err(stopped(alloc, text, span)),
                    Err(_) => return Err(PlacedFault::Memory),
                }
                let Ok(()) = positions.push(span.first as u32) else {
                    return Err(PlacedFault::Memory);
                };
                at = span.first + span.len;
            }
            Ok(None) => at = text.len(),
            Err(fault) => return Err(lexed(fault)),
        }
    }
    if positions.is_empty() {
        return Ok(None);
    }
    match ended(so_far, stage) {
        Ok(Some(tree)) => Ok(Some(tree)),
        Ok(None) => Err(PlacedFault::Syntax(text.len())),
        Err(_) => Err(PlacedFault::Memory),
    }
}

/// Parses the text of a literal. Returns `None` if the text is blank. Fails with the first error of
/// the text.
pub fn read_placed_tree(alloc: Global, text: &[u8]) -> Result<Option<PlacedNodes>, PlacedFault>
    // If nodes are returned, the offsets are those of the text's lexemes, and the nodes are those
    // of the literal with these lexemes. If no nodes are returned, the text has no lexemes or has
    // the returned error.
    ensures { ReadsPlaced text.now result }
{
    if text.len() >= 1 << 32 {
        return Err(PlacedFault::TooLong);
    }
    let mut positions = Vec::new(alloc);
    let _room = positions.reserve(text.len() / BYTES_A_LEXEME);
    match read_at(alloc, text, &mut positions) {
        Ok(Some(tree)) => Ok(Some(PlacedNodes { positions, tree })),
        Ok(None) => Ok(None),
        Err(fault) => Err(fault),
    }
}
