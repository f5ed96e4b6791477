//! One step of the parser on a lexeme of a type.

ghost use Rattle.std.specs.Prelude.{List as Seq, ◌≡◌, ◌++◌, ◌∷◌, [], max, length, IfOk, OnOk};
ghost use Rattle.types_parse.specs.parse.TypeCode.{deeper, part, reads, begin_item_code};
ghost use Rattle.types_parse.specs.parse.TypeCode.{begin_code};
ghost use Rattle.types_parse.specs.parse.TypeCode.{item_node, item_depth_code, after_items_code};
ghost use Rattle.types_parse.specs.parse.TypeCode.{after_item_code, after_group_code};
ghost use Rattle.types_parse.specs.parse.TypeCode.{after_argument_code};
ghost use Rattle.types_parse.specs.parse.TypeCode.{close_type_code, after_single_code};
ghost use Rattle.types_parse.specs.parse.TypeCode.{after_tuple_code};
ghost use Rattle.types_parse.specs.parse.TypeCode.{outermost_code, close_part_code};
ghost use Rattle.types_parse.specs.parse.TypeCode.{after_part_code};
ghost use Rattle.types_parse.specs.parse.TypeCode.{parts_nodes, parts_node, take_name_code};
ghost use Rattle.types_parse.specs.parse.TypeCode.{after_tag_code};
ghost use Rattle.types_parse.specs.parse.TypeCode.{step_code, Steps};
ghost use Rattle.types_parse.specs.declared.parse.open.OpenConstruct.{OpenConstruct as AFrame};
ghost use Rattle.types_spec.specs.declared.types.ty.TypeTreeNode.{TypeTreeNode as ANode};
ghost use Rattle.types_lex.specs.declared.lexeme.LexemeKind.TheVariants as kinds;
ghost use Rattle.types_lex.specs.declared.lexeme.Symbol.TheVariants as symbols;

use crate::parse::open::{OpenConstruct, OpenItem, OpenPart, ParsePhase, TypeStep};
use crate::parse::parse_stack::ParseStack;
use base_data::model::Memory;
use base_data::model::list::List;
use base_data::text::copied_name;
use std::alloc::Global;
use types_lex::lexeme::{Keyword, LexemeKind, Symbol};
use types_spec::types::ty::TypeTreeNode;

/// The nodes of a type that were read so far, and the open constructs.
#[derive(Drop)]
pub struct TypeSoFar {
    pub nodes: Vec<TypeTreeNode>,
    pub frames: ParseStack,
}

/// The step after a lexeme of a type, or `Memory`.
pub type NextStep = Result<TypeStep, Memory>;

/// Returns the depth of a type that directly contains a type of this depth. Depths above 200 are
/// returned as 201.
pub fn deeper(depth: usize) -> usize
    ensures { result ≡ deeper depth }
{
    if depth < 200 { depth + 1 } else { 201 }
}

/// Returns the greater of two depths.
pub fn deepest(a: usize, b: usize) -> usize
    ensures { result ≡ max a b }
{
    if a < b { b } else { a }
}

/// Appends a node and returns its index.
pub fn add(nodes: &mut Vec<TypeTreeNode>, node: TypeTreeNode) -> Result<usize, Memory>
    ensures number { IfOk result (λ n. n ≡ length nodes.old.items) }
    ensures added { OnOk result (nodes.new.items ≡ nodes.old.items ++ node ∷ []) }
{
    let number = nodes.len();
    nodes.push(node)?;
    Ok(number)
}

/// Appends a node, which becomes the node that was read last.
fn reads(nodes: &mut Vec<TypeTreeNode>, node: TypeTreeNode, depth: usize) -> NextStep
    ensures { (fs : Seq AFrame)
        → Steps result nodes.new.items fs (reads nodes.old.items fs node depth) }
{
    let node = add(nodes, node)?;
    Ok(TypeStep::Goes(ParsePhase::Read(OpenPart { node, depth })))
}

/// Appends a node and returns the node's index with the depth `depth`.
fn part(nodes: &mut Vec<TypeTreeNode>, node: TypeTreeNode, depth: usize) -> Result<OpenPart, Memory>
    ensures part { IfOk result (λ r. r ≡ part (length nodes.old.items) depth) }
    ensures added { OnOk result (nodes.new.items ≡ nodes.old.items ++ node ∷ []) }
{
    let node = add(nodes, node)?;
    Ok(OpenPart { node, depth })
}

/// Parses a bar before the first item of a bracket.
fn begin_bar(frames: &mut ParseStack) -> NextStep
    ensures { (ns : Seq ANode)
        → Steps result ns frames.new (begin_item_code ns frames.old (kinds.Symbol symbols.Bar)) }
{
    match frames.pop() {
        Some(OpenConstruct::Opened(false, bracket)) => {
            frames.push(OpenConstruct::Opened(true, bracket))?;
            Ok(TypeStep::Goes(ParsePhase::Due))
        }
        _ => Ok(TypeStep::Stops),
    }
}

/// Parses a tag at the beginning of an item.
fn begin_tag(alloc: Global, frames: &ParseStack, name: &List<u8>) -> NextStep
    ensures { (ns : Seq ANode)
        → Steps result ns frames.now (begin_item_code ns frames.now (kinds.Tag name.now)) }
{
    match frames.top() {
        Some(OpenConstruct::Opened(_, _) | OpenConstruct::Items(_)) => Ok(TypeStep::Goes(
            ParsePhase::TagRead(copied_name(alloc, name)?),
        )),
        _ => Ok(TypeStep::Stops),
    }
}

/// Returns the node for a bracket with one more item.
fn item_node(whole: usize, item: OpenItem) -> TypeTreeNode
    ensures { result ≡ item_node whole item }
{
    match item {
        OpenItem::Tag(name) => TypeTreeNode::Tag(whole, name),
        OpenItem::TagOf(name, argument) => TypeTreeNode::TagOf(whole, name, argument.node),
        OpenItem::Included(included) => TypeTreeNode::Including(whole, included.node),
    }
}

/// Returns the depth of the type in an item of a bracket.
fn item_depth(item: &OpenItem) -> usize
    ensures { result ≡ item_depth_code item.now }
{
    match item {
        OpenItem::Tag(_) => 0,
        OpenItem::TagOf(_, argument) => argument.depth,
        OpenItem::Included(included) => included.depth,
    }
}

/// Appends these parts to a node one by one, and returns the index of the last node.
fn add_parts(nodes: &mut Vec<TypeTreeNode>, whole: usize, parts: &[usize]) -> Result<usize, Memory>
    ensures node { IfOk result (λ n. n ≡ parts_node nodes.old.items whole parts.now) }
    ensures added { OnOk result (nodes.new.items ≡ parts_nodes nodes.old.items whole parts.now) }
{
    let mut last = whole;
    for part in parts {
        last = add(nodes, TypeTreeNode::Part(last, *part))?;
    }
    Ok(last)
}

impl TypeSoFar {
    /// Parses the first lexeme of an item.
    fn begin_item(&mut self, alloc: Global, kind: &LexemeKind) -> NextStep
        ensures { Steps result self.new.nodes.items self.new.frames
            (begin_item_code self.old.nodes.items self.old.frames kind.now) }
    {
        match kind {
            LexemeKind::Symbol(Symbol::Bar) => begin_bar(&mut self.frames),
            LexemeKind::Tag(name) => begin_tag(alloc, &self.frames, name),
            _ => Ok(TypeStep::Stops),
        }
    }

    /// Parses the first lexeme of a component, an argument or an included type.
    pub fn begin(&mut self, alloc: Global, kind: &LexemeKind) -> NextStep
        ensures { Steps result self.new.nodes.items self.new.frames
            (begin_code self.old.nodes.items self.old.frames kind.now) }
    {
        match kind {
            LexemeKind::Variable(name) => reads(
                &mut self.nodes,
                TypeTreeNode::Variable(copied_name(alloc, name)?),
                1,
            ),
            LexemeKind::Lower(name) => reads(
                &mut self.nodes,
                TypeTreeNode::Named(copied_name(alloc, name)?),
                1,
            ),
            LexemeKind::Symbol(Symbol::OpenParen) => {
                self.frames.push(OpenConstruct::Group)?;
                Ok(TypeStep::Goes(ParsePhase::Due))
            }
            LexemeKind::Symbol(Symbol::OpenBracket) => {
                let bracket = add(&mut self.nodes, TypeTreeNode::Bracket)?;
                self.frames.push(OpenConstruct::Opened(false, bracket))?;
                Ok(TypeStep::Goes(ParsePhase::Due))
            }
            _ => self.begin_item(alloc, kind),
        }
    }

    /// Parses the lexeme after the items of a bracket.
    fn after_items(&mut self, bracket: OpenPart, kind: &LexemeKind) -> NextStep
        ensures { Steps result self.new.nodes.items self.new.frames
            (after_items_code self.old.nodes.items self.old.frames bracket kind.now) }
    {
        match kind {
            LexemeKind::Symbol(Symbol::Bar) => {
                self.frames.push(OpenConstruct::Items(bracket))?;
                Ok(TypeStep::Goes(ParsePhase::Due))
            }
            LexemeKind::Symbol(Symbol::CloseBracket) => Ok(TypeStep::Goes(ParsePhase::Read(
                OpenPart {
                    node: bracket.node,
                    depth: deeper(bracket.depth),
                },
            ))),
            _ => Ok(TypeStep::Stops),
        }
    }

    /// Parses the lexeme after an item.
    fn after_item(&mut self, item: OpenItem, kind: &LexemeKind) -> NextStep
        ensures { Steps result self.new.nodes.items self.new.frames
            (after_item_code self.old.nodes.items self.old.frames item kind.now) }
    {
        let depth = item_depth(&item);
        match self.frames.pop() {
            Some(OpenConstruct::Opened(_, bracket)) => {
                let bracket = part(&mut self.nodes, item_node(bracket, item), depth)?;
                self.after_items(bracket, kind)
            }
            Some(OpenConstruct::Items(bracket)) => {
                let depth = deepest(bracket.depth, depth);
                let bracket = part(&mut self.nodes, item_node(bracket.node, item), depth)?;
                self.after_items(bracket, kind)
            }
            _ => Ok(TypeStep::Stops),
        }
    }

    /// Parses the lexeme after the first type in parentheses.
    fn after_group(&mut self, alloc: Global, ty: OpenPart, kind: &LexemeKind) -> NextStep
        ensures { Steps result self.new.nodes.items self.new.frames
            (after_group_code self.old.nodes.items self.old.frames ty kind.now) }
    {
        match kind {
            LexemeKind::Symbol(Symbol::CloseParen) => Ok(TypeStep::Goes(ParsePhase::Read(
                OpenPart {
                    node: ty.node,
                    depth: deeper(ty.depth),
                },
            ))),
            LexemeKind::Symbol(Symbol::Comma) => {
                let mut arguments = List::new(alloc);
                arguments.push(ty.node)?;
                self.frames
                    .push(OpenConstruct::Arguments(arguments, ty.depth))?;
                Ok(TypeStep::Goes(ParsePhase::Due))
            }
            _ => Ok(TypeStep::Stops),
        }
    }

    /// Parses the lexeme after a second or later type in parentheses.
    fn after_argument(
        &mut self,
        mut arguments: List<usize>,
        depth: usize,
        ty: OpenPart,
        kind: &LexemeKind,
    ) -> NextStep
        ensures { Steps result self.new.nodes.items self.new.frames
            (after_argument_code self.old.nodes.items self.old.frames arguments depth ty kind.now) }
    {
        arguments.push(ty.node)?;
        let depth = deepest(depth, ty.depth);
        match kind {
            LexemeKind::Symbol(Symbol::CloseParen) => Ok(TypeStep::Goes(ParsePhase::NameDue(
                arguments, depth,
            ))),
            LexemeKind::Symbol(Symbol::Comma) => {
                self.frames
                    .push(OpenConstruct::Arguments(arguments, depth))?;
                Ok(TypeStep::Goes(ParsePhase::Due))
            }
            _ => Ok(TypeStep::Stops),
        }
    }

    /// Parses the lexeme after a type that is complete.
    fn close_type(&mut self, alloc: Global, ty: OpenPart, kind: &LexemeKind) -> NextStep
        ensures { Steps result self.new.nodes.items self.new.frames
            (close_type_code self.old.nodes.items self.old.frames ty kind.now) }
    {
        match self.frames.pop() {
            None => Ok(TypeStep::Ended),
            Some(OpenConstruct::Group) => self.after_group(alloc, ty, kind),
            Some(OpenConstruct::Arguments(arguments, depth)) => self.after_argument(
                arguments, depth, ty, kind,
            ),
            Some(OpenConstruct::TagArgument(name)) => self.after_item(
                OpenItem::TagOf(name, ty),
                kind,
            ),
            Some(_) => Ok(TypeStep::Stops),
        }
    }

    /// Parses the lexeme after the first component of a type.
    fn after_single(&mut self, alloc: Global, component: OpenPart, kind: &LexemeKind) -> NextStep
        ensures { Steps result self.new.nodes.items self.new.frames
            (after_single_code self.old.nodes.items self.old.frames component kind.now) }
    {
        match kind {
            LexemeKind::Symbol(Symbol::Star) => {
                let tuple = add(&mut self.nodes, TypeTreeNode::Tuple)?;
                let tuple = part(
                    &mut self.nodes,
                    TypeTreeNode::Part(tuple, component.node),
                    component.depth,
                )?;
                self.frames.push(OpenConstruct::Component(tuple))?;
                Ok(TypeStep::Goes(ParsePhase::Due))
            }
            _ => self.close_type(alloc, component, kind),
        }
    }

    /// Parses the lexeme after a second or later component of a tuple.
    fn after_tuple(
        &mut self,
        alloc: Global,
        tuple: OpenPart,
        component: OpenPart,
        kind: &LexemeKind,
    ) -> NextStep
        ensures { Steps result self.new.nodes.items self.new.frames
            (after_tuple_code self.old.nodes.items self.old.frames tuple component kind.now) }
    {
        let node = TypeTreeNode::Part(tuple.node, component.node);
        let depth = deepest(tuple.depth, component.depth);
        match kind {
            LexemeKind::Symbol(Symbol::Star) => {
                let tuple = part(&mut self.nodes, node, depth)?;
                self.frames.push(OpenConstruct::Component(tuple))?;
                Ok(TypeStep::Goes(ParsePhase::Due))
            }
            _ => {
                let tuple = part(&mut self.nodes, node, deeper(depth))?;
                self.close_type(alloc, tuple, kind)
            }
        }
    }

    /// Parses the lexeme after a component that is complete. If `alone` is true, the outermost
    /// component cannot begin a tuple.
    fn close_part(
        &mut self,
        alloc: Global,
        alone: bool,
        component: OpenPart,
        kind: &LexemeKind,
    ) -> NextStep
        ensures { Steps result self.new.nodes.items self.new.frames
            (close_part_code alone self.old.nodes.items self.old.frames component kind.now) }
    {
        match self.frames.pop() {
            Some(OpenConstruct::Component(tuple)) => self.after_tuple(
                alloc, tuple, component, kind,
            ),
            Some(OpenConstruct::Opened(bar, bracket)) => {
                self.frames.push(OpenConstruct::Opened(bar, bracket))?;
                self.after_item(OpenItem::Included(component), kind)
            }
            Some(OpenConstruct::Items(bracket)) => {
                self.frames.push(OpenConstruct::Items(bracket))?;
                self.after_item(OpenItem::Included(component), kind)
            }
            Some(frame) => {
                self.frames.push(frame)?;
                self.after_single(alloc, component, kind)
            }
            None => self.outermost(alloc, alone, component, kind),
        }
    }

    /// Parses the lexeme after the outermost component.
    fn outermost(
        &mut self,
        alloc: Global,
        alone: bool,
        component: OpenPart,
        kind: &LexemeKind,
    ) -> NextStep
        requires { self.old.frames ≡ [] }
        ensures { Steps result self.new.nodes.items self.new.frames
            (outermost_code alone self.old.nodes.items component kind.now) }
    {
        if alone {
            Ok(TypeStep::Ended)
        } else {
            self.after_single(alloc, component, kind)
        }
    }

    /// Parses the lexeme after a component.
    fn after_part(
        &mut self,
        alloc: Global,
        alone: bool,
        component: OpenPart,
        kind: &LexemeKind,
    ) -> NextStep
        ensures { Steps result self.new.nodes.items self.new.frames
            (after_part_code alone self.old.nodes.items self.old.frames component kind.now) }
    {
        match kind {
            LexemeKind::Lower(name) => {
                let whole = add(
                    &mut self.nodes,
                    TypeTreeNode::Named(copied_name(alloc, name)?),
                )?;
                reads(
                    &mut self.nodes,
                    TypeTreeNode::Part(whole, component.node),
                    deeper(component.depth),
                )
            }
            _ => self.close_part(alloc, alone, component, kind),
        }
    }

    /// Parses the name after several arguments in parentheses.
    fn take_name(
        &mut self,
        alloc: Global,
        arguments: List<usize>,
        depth: usize,
        kind: &LexemeKind,
    ) -> NextStep
        ensures { Steps result self.new.nodes.items self.new.frames
            (take_name_code self.old.nodes.items self.old.frames arguments depth kind.now) }
    {
        match kind {
            LexemeKind::Lower(name) => {
                let whole = add(
                    &mut self.nodes,
                    TypeTreeNode::Named(copied_name(alloc, name)?),
                )?;
                let node = add_parts(&mut self.nodes, whole, arguments.as_slice())?;
                Ok(TypeStep::Goes(ParsePhase::Read(OpenPart {
                    node,
                    depth: deeper(depth),
                })))
            }
            _ => Ok(TypeStep::Stops),
        }
    }

    /// Parses the lexeme after a tag.
    fn after_tag(&mut self, name: List<u8>, kind: &LexemeKind) -> NextStep
        ensures { Steps result self.new.nodes.items self.new.frames
            (after_tag_code self.old.nodes.items self.old.frames name kind.now) }
    {
        match kind {
            LexemeKind::Keyword(Keyword::Of) => {
                self.frames.push(OpenConstruct::TagArgument(name))?;
                Ok(TypeStep::Goes(ParsePhase::Due))
            }
            _ => self.after_item(OpenItem::Tag(name), kind),
        }
    }

    /// Parses one lexeme of a type.
    pub fn step(
        &mut self,
        alloc: Global,
        alone: bool,
        phase: ParsePhase,
        kind: &LexemeKind,
    ) -> NextStep
        ensures { Steps result self.new.nodes.items self.new.frames
            (step_code alone self.old.nodes.items self.old.frames phase kind.now) }
    {
        match phase {
            ParsePhase::Due => self.begin(alloc, kind),
            ParsePhase::Read(component) => self.after_part(alloc, alone, component, kind),
            ParsePhase::NameDue(arguments, depth) => self.take_name(alloc, arguments, depth, kind),
            ParsePhase::TagRead(name) => self.after_tag(name, kind),
        }
    }
}
