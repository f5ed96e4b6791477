//! One step of the parser on a lexeme. A step returns the next stage, or `None` if no literal
//! continues with the lexeme.

ghost use Rattle.std.specs.Prelude.{◌≡◌, ◌++◌, ◌∷◌, [], List, length, Option, Some, None};
ghost use Rattle.std.specs.Prelude.{if◌then◌else◌, IfOk};
ghost use Rattle.text_literal.specs.declared.literal_grammar.literal_node.LiteralNode.{LiteralNode};
ghost use Rattle.text_literal.specs.declared.literal_grammar.literal_node.NodeForm.TheVariants as forms;
ghost use Rattle.types_parse.specs.grammar.LexemeKinds.{number_of};
ghost use Rattle.text_literal.specs.literal_grammar.LiteralCode.{bare_node, next_number, with_part};
ghost use Rattle.text_literal.specs.literal_grammar.LiteralCode.{with_form};
ghost use Rattle.text_literal.specs.literal_grammar.LiteralCode.{word_form, form_of, head_stage};
ghost use Rattle.text_literal.specs.literal_grammar.LiteralCode.{entered};
ghost use Rattle.text_literal.specs.literal_grammar.LiteralCode.{begin_plain_code, is_unit};
ghost use Rattle.text_literal.specs.literal_grammar.LiteralCode.{is_empty_array};
ghost use Rattle.text_literal.specs.literal_grammar.LiteralCode.{close_unit_code, close_empty_code};
ghost use Rattle.text_literal.specs.literal_grammar.LiteralCode.{begin_code};
ghost use Rattle.text_literal.specs.literal_grammar.LiteralCode.{next_code, shut_code};
ghost use Rattle.text_literal.specs.literal_grammar.LiteralCode.{shut_tuple_code};
ghost use Rattle.text_literal.specs.literal_grammar.LiteralCode.{close_arguments_code};
ghost use Rattle.text_literal.specs.literal_grammar.LiteralCode.{close_parens_code};
ghost use Rattle.text_literal.specs.literal_grammar.LiteralCode.{close_array_code};
ghost use Rattle.text_literal.specs.literal_grammar.LiteralCode.{close_fields_code, close_code};
ghost use Rattle.text_literal.specs.literal_grammar.LiteralCode.{take_number_code};
ghost use Rattle.text_literal.specs.literal_grammar.LiteralCode.{after_number_code};
ghost use Rattle.text_literal.specs.literal_grammar.LiteralCode.{after_bracket_code};
ghost use Rattle.text_literal.specs.literal_grammar.LiteralCode.{after_head_code};
ghost use Rattle.text_literal.specs.literal_grammar.LiteralCode.{take_name_code, take_equals_code};
ghost use Rattle.text_literal.specs.literal_grammar.LiteralCode.{step_code};
ghost use Rattle.text_literal.specs.literal_grammar.LiteralCode.{end_code, Steps, code};

use crate::literal_grammar::literal_node::{LiteralNode, NodeForm};
use crate::literal_grammar::literal_nodes::LiteralNodes;
use crate::literal_grammar::literal_so_far::{LiteralSoFar, NextStage};
use crate::literal_grammar::pending_node::{OpenKind, Opens, PendingNode, Stage};
use base_data::model::Memory;
use types_lex::lexeme::{Integer, LexemeKind, Symbol};
use types_parse::parse::number_of;

/// Returns the form that begins with this word, or `None` if no form begins with this word.
fn word_form(word: &[u8]) -> Option<NodeForm>
    ensures { result ≡ word_form word.now }
{
    if word == b"true".as_slice() || word == b"false".as_slice() {
        Some(NodeForm::Truth)
    } else if word == b"ref".as_slice() {
        Some(NodeForm::Named)
    } else {
        None
    }
}

/// Returns the form that begins with this lexeme, or `None` if no form begins with this lexeme.
#[inline(always)]
fn form_of(kind: &LexemeKind) -> Option<NodeForm>
    ensures { result ≡ form_of kind.now }
{
    match kind {
        LexemeKind::Integer(_) => Some(NodeForm::Integer),
        LexemeKind::Character(_) => Some(NodeForm::Character),
        LexemeKind::Text(_) => Some(NodeForm::Text),
        LexemeKind::Double(_) => Some(NodeForm::Double),
        LexemeKind::Lower(word) => word_form(word.as_slice()),
        LexemeKind::Upper(_) => Some(NodeForm::Named),
        LexemeKind::Tag(_) => Some(NodeForm::Named),
        LexemeKind::Symbol(Symbol::DoubleColon) => Some(NodeForm::Named),
        LexemeKind::Symbol(Symbol::OpenBracket) => Some(NodeForm::Named),
        LexemeKind::Symbol(Symbol::OpenParen) => Some(NodeForm::Unit),
        LexemeKind::Symbol(Symbol::OpenArray) => Some(NodeForm::Array),
        LexemeKind::Symbol(Symbol::OpenBrace) => Some(NodeForm::Fields),
        _ => None,
    }
}

/// Appends a node and returns the node's index. Fails with `Memory` if memory runs out.
#[inline(always)]
fn add(nodes: &mut LiteralNodes, node: LiteralNode) -> Result<usize, Memory>
    ensures number { IfOk result (λ n. n ≡ length nodes.old) }
    ensures added { IfOk result (λ _. nodes.new ≡ nodes.old ++ node ∷ []) }
{
    let number = nodes.len();
    nodes.push(node)?;
    Ok(number)
}

/// Returns `n` plus one, saturating at the greatest number.
#[inline(always)]
fn next_number(n: usize) -> usize
    ensures { result ≡ next_number n }
{
    if n < usize::MAX { n + 1 } else { n }
}

/// Returns the node with one more part.
#[inline(always)]
fn with_part(node: LiteralNode) -> LiteralNode
    ensures { result ≡ with_part node }
{
    LiteralNode {
        form: node.form,
        label: node.label,
        first: node.first,
        parts: next_number(node.parts),
    }
}

/// Returns the node with another form.
#[inline(always)]
fn with_form(form: NodeForm, node: LiteralNode) -> LiteralNode
    ensures { result ≡ with_form form node }
{
    LiteralNode {
        form,
        label: node.label,
        first: node.first,
        parts: node.parts,
    }
}

/// Returns the stage after the first lexeme of a head, which is a name or `[`.
#[inline(always)]
fn head_stage(kind: &LexemeKind, index: usize, node: LiteralNode) -> Stage
    ensures { result ≡ head_stage kind.now index node }
{
    match kind {
        LexemeKind::Symbol(Symbol::OpenBracket) => Stage::Bracket(index, node),
        _ => Stage::Head(index, node),
    }
}

/// Opens the bracket that the last node begins, and returns the next stage.
#[inline(always)]
fn enter(
    opens: &mut Opens,
    kind: &LexemeKind,
    index: usize,
    node: LiteralNode,
    form: NodeForm,
) -> Result<Stage, Memory>
    ensures { IfOk result
        (λ stage. (ns : List LiteralNode)
        → code ns opens.new stage ≡ entered ns opens.old kind.now index node form) }
{
    match form {
        NodeForm::Named => Ok(head_stage(kind, index, node)),
        NodeForm::Unit => {
            opens.push(PendingNode {
                bracket: OpenKind::Parens,
                index,
                node,
            })?;
            Ok(Stage::Due)
        }
        NodeForm::Array => {
            opens.push(PendingNode {
                bracket: OpenKind::Array,
                index,
                node,
            })?;
            Ok(Stage::Due)
        }
        NodeForm::Fields => Ok(Stage::FieldDue(index, node)),
        _ => Ok(Stage::Whole),
    }
}

#[inline(always)]
fn is_unit(bracket: OpenKind, parts: usize) -> bool
    ensures { result ≡ is_unit bracket parts }
{
    match bracket {
        OpenKind::Parens => parts == 0,
        _ => false,
    }
}

#[inline(always)]
fn is_empty_array(bracket: OpenKind, parts: usize) -> bool
    ensures { result ≡ is_empty_array bracket parts }
{
    match bracket {
        OpenKind::Array => parts == 0,
        _ => false,
    }
}

/// Returns the node of a reference to a label.
fn again(first: usize, number: u64) -> LiteralNode
    ensures { result ≡ bare_node forms.Again (Some number) first }
{
    LiteralNode {
        form: NodeForm::Again,
        label: Some(number),
        first,
        parts: 0,
    }
}

impl LiteralSoFar {
    /// Parses the first lexeme of a literal after the literal's label, if the literal has a label.
    #[inline(always)]
    fn begin_plain(&mut self, first: usize, label: Option<u64>, kind: &LexemeKind) -> NextStage
        ensures { Steps result self.new.nodes self.new.opens
            (begin_plain_code self.old.nodes self.old.opens first label kind.now) }
    {
        let Some(form) = form_of(kind) else {
            return Ok(None);
        };
        let node = LiteralNode {
            form,
            label,
            first,
            parts: 0,
        };
        let index = add(&mut self.nodes, node)?;
        let stage = enter(&mut self.opens, kind, index, node, form)?;
        Ok(Some(stage))
    }

    /// Closes parentheses without parts.
    fn close_unit(&mut self) -> NextStage
        ensures { Steps result self.new.nodes self.new.opens
            (close_unit_code self.old.nodes self.old.opens) }
    {
        match self.opens.pop() {
            None => Ok(None),
            Some(outer) => {
                if is_unit(outer.bracket, outer.node.parts) {
                    Ok(Some(Stage::Whole))
                } else {
                    Ok(None)
                }
            }
        }
    }

    /// Closes an array without parts.
    fn close_empty(&mut self) -> NextStage
        ensures { Steps result self.new.nodes self.new.opens
            (close_empty_code self.old.nodes self.old.opens) }
    {
        match self.opens.pop() {
            None => Ok(None),
            Some(outer) => {
                if is_empty_array(outer.bracket, outer.node.parts) {
                    Ok(Some(Stage::Whole))
                } else {
                    Ok(None)
                }
            }
        }
    }

    /// Parses lexeme `position` as the first lexeme of a literal.
    #[inline(always)]
    fn begin(&mut self, position: usize, kind: &LexemeKind) -> NextStage
        ensures { Steps result self.new.nodes self.new.opens
            (begin_code self.old.nodes self.old.opens position kind.now) }
    {
        match kind {
            LexemeKind::Symbol(Symbol::Hash) => Ok(Some(Stage::Hash(position))),
            LexemeKind::Symbol(Symbol::CloseParen) => self.close_unit(),
            LexemeKind::Symbol(Symbol::CloseArray) => self.close_empty(),
            _ => self.begin_plain(position, None, kind),
        }
    }

    /// Returns the stage in which one more part must follow.
    #[inline(always)]
    fn next(&mut self, outer: PendingNode) -> NextStage
        ensures { Steps result self.new.nodes self.new.opens
            (next_code self.old.nodes self.old.opens outer) }
    {
        self.opens.push(PendingNode {
            bracket: outer.bracket,
            index: outer.index,
            node: with_part(outer.node),
        })?;
        Ok(Some(Stage::Due))
    }

    /// Closes a bracket after its last part.
    #[inline(always)]
    fn shut(&mut self, outer: PendingNode) -> NextStage
        ensures { Steps result self.new.nodes self.new.opens
            (shut_code self.old.nodes self.old.opens outer) }
    {
        self.nodes.set(outer.index, with_part(outer.node))?;
        Ok(Some(Stage::Whole))
    }

    /// Closes a tuple after its last part. Returns `None` if the tuple has only one part.
    #[inline(always)]
    fn shut_tuple(&mut self, outer: PendingNode) -> NextStage
        ensures { Steps result self.new.nodes self.new.opens
            (shut_tuple_code self.old.nodes self.old.opens outer) }
    {
        if outer.node.parts == 0 {
            return Ok(None);
        }
        self.nodes.set(
            outer.index,
            with_form(NodeForm::Tuple, with_part(outer.node)),
        )?;
        Ok(Some(Stage::Whole))
    }

    #[inline(always)]
    fn close_arguments(&mut self, outer: PendingNode, kind: &LexemeKind) -> NextStage
        ensures { Steps result self.new.nodes self.new.opens
            (close_arguments_code self.old.nodes self.old.opens outer kind.now) }
    {
        match kind {
            LexemeKind::Symbol(Symbol::Comma) => self.next(outer),
            LexemeKind::Symbol(Symbol::CloseParen) => self.shut(outer),
            _ => Ok(None),
        }
    }

    #[inline(always)]
    fn close_parens(&mut self, outer: PendingNode, kind: &LexemeKind) -> NextStage
        ensures { Steps result self.new.nodes self.new.opens
            (close_parens_code self.old.nodes self.old.opens outer kind.now) }
    {
        match kind {
            LexemeKind::Symbol(Symbol::Comma) => self.next(outer),
            LexemeKind::Symbol(Symbol::CloseParen) => self.shut_tuple(outer),
            _ => Ok(None),
        }
    }

    #[inline(always)]
    fn close_array(&mut self, outer: PendingNode, kind: &LexemeKind) -> NextStage
        ensures { Steps result self.new.nodes self.new.opens
            (close_array_code self.old.nodes self.old.opens outer kind.now) }
    {
        match kind {
            LexemeKind::Symbol(Symbol::Semicolon) => self.next(outer),
            LexemeKind::Symbol(Symbol::CloseArray) => self.shut(outer),
            _ => Ok(None),
        }
    }

    #[inline(always)]
    fn close_fields(&mut self, outer: PendingNode, kind: &LexemeKind) -> NextStage
        ensures { Steps result self.new.nodes self.new.opens
            (close_fields_code self.old.nodes self.old.opens outer kind.now) }
    {
        match kind {
            LexemeKind::Symbol(Symbol::Semicolon) => Ok(Some(Stage::FieldDue(
                outer.index,
                with_part(outer.node),
            ))),
            LexemeKind::Symbol(Symbol::CloseBrace) => self.shut(outer),
            _ => Ok(None),
        }
    }

    /// Parses the lexeme after a complete literal.
    #[inline(always)]
    fn close(&mut self, kind: &LexemeKind) -> NextStage
        ensures { Steps result self.new.nodes self.new.opens
            (close_code self.old.nodes self.old.opens kind.now) }
    {
        match self.opens.pop() {
            None => Ok(None),
            Some(outer) => match outer.bracket {
                OpenKind::Arguments => self.close_arguments(outer, kind),
                OpenKind::Parens => self.close_parens(outer, kind),
                OpenKind::Array => self.close_array(outer, kind),
                OpenKind::Fields => self.close_fields(outer, kind),
            },
        }
    }

    /// Parses the lexeme after `#` and a number.
    fn after_number(&mut self, first: usize, number: u64, kind: &LexemeKind) -> NextStage
        ensures { Steps result self.new.nodes self.new.opens
            (after_number_code self.old.nodes self.old.opens first number kind.now) }
    {
        match kind {
            LexemeKind::Symbol(Symbol::Equals) => Ok(Some(Stage::PlainDue(first, number))),
            _ => {
                add(&mut self.nodes, again(first, number))?;
                self.close(kind)
            }
        }
    }

    /// Parses the lexeme after a name.
    #[inline(always)]
    fn after_head(&mut self, index: usize, node: LiteralNode, kind: &LexemeKind) -> NextStage
        ensures { Steps result self.new.nodes self.new.opens
            (after_head_code self.old.nodes self.old.opens index node kind.now) }
    {
        match kind {
            LexemeKind::Symbol(Symbol::OpenParen) => {
                self.opens.push(PendingNode {
                    bracket: OpenKind::Arguments,
                    index,
                    node,
                })?;
                Ok(Some(Stage::Due))
            }
            LexemeKind::Symbol(Symbol::OpenBrace) => Ok(Some(Stage::FieldDue(
                index,
                with_form(NodeForm::Fields, node),
            ))),
            _ => self.close(kind),
        }
    }

    /// Parses the lexeme after a field's name.
    #[inline(always)]
    fn take_equals(&mut self, index: usize, node: LiteralNode, kind: &LexemeKind) -> NextStage
        ensures { Steps result self.new.nodes self.new.opens
            (take_equals_code self.old.nodes self.old.opens index node kind.now) }
    {
        match kind {
            LexemeKind::Symbol(Symbol::Equals) => {
                self.opens.push(PendingNode {
                    bracket: OpenKind::Fields,
                    index,
                    node,
                })?;
                Ok(Some(Stage::Due))
            }
            _ => Ok(None),
        }
    }

    /// Parses the lexeme after `#`.
    fn take_number(&mut self, first: usize, kind: &LexemeKind) -> NextStage
        ensures { Steps result self.new.nodes self.new.opens
            (take_number_code self.old.nodes self.old.opens first kind.now) }
    {
        match number_of(kind) {
            None => Ok(None),
            Some(number) => Ok(Some(Stage::Number(first, number))),
        }
    }

    /// Parses the lexeme after `[`.
    #[inline(always)]
    fn after_bracket(&mut self, index: usize, node: LiteralNode, kind: &LexemeKind) -> NextStage
        ensures { Steps result self.new.nodes self.new.opens
            (after_bracket_code self.old.nodes self.old.opens index node kind.now) }
    {
        match kind {
            LexemeKind::Symbol(Symbol::CloseBracket) => Ok(Some(Stage::Head(index, node))),
            _ => Ok(None),
        }
    }

    /// Parses the lexeme at the position of a field's name.
    #[inline(always)]
    fn take_name(&mut self, index: usize, node: LiteralNode, kind: &LexemeKind) -> NextStage
        ensures { Steps result self.new.nodes self.new.opens
            (take_name_code self.old.nodes self.old.opens index node kind.now) }
    {
        match kind {
            LexemeKind::Lower(_) => Ok(Some(Stage::NameRead(index, node))),
            _ => Ok(None),
        }
    }

    /// Parses the lexeme with index `position`.
    #[inline(always)]
    pub fn step(&mut self, stage: Stage, position: usize, kind: &LexemeKind) -> NextStage
        ensures { Steps result self.new.nodes self.new.opens
            (step_code self.old.nodes self.old.opens stage position kind.now) }
    {
        match stage {
            Stage::Due => self.begin(position, kind),
            Stage::Hash(first) => self.take_number(first, kind),
            Stage::Number(first, number) => self.after_number(first, number, kind),
            Stage::PlainDue(first, number) => self.begin_plain(first, Some(number), kind),
            Stage::Bracket(index, node) => self.after_bracket(index, node, kind),
            Stage::Head(index, node) => self.after_head(index, node, kind),
            Stage::FieldDue(index, node) => self.take_name(index, node, kind),
            Stage::NameRead(index, node) => self.take_equals(index, node, kind),
            Stage::Whole => self.close(kind),
        }
    }

    /// Returns true if a literal can end at this stage. If the result is true, the nodes are
    /// complete.
    pub fn end(&mut self, stage: Stage) -> Result<bool, Memory>
        ensures { IfOk result
            (λ ends. end_code self.old.nodes self.old.opens stage
            ≡ (if ends then Some self.new.nodes else None)) }
    {
        match self.opens.pop() {
            Some(_) => Ok(false),
            None => match stage {
                Stage::Whole => Ok(true),
                Stage::Head(_, _) => Ok(true),
                Stage::Number(first, number) => {
                    add(&mut self.nodes, again(first, number))?;
                    Ok(true)
                }
                _ => Ok(false),
            },
        }
    }
}
