//! Builds the graph of a value from its tokens, from the last token to the first.

ghost use Rattle.std.specs.Prelude.{◌≡◌, ◌++◌, ◌∷◌, ◌≤◌, take, drop, map, IfOk, OnOk};
ghost use Rattle.marshal_spec.specs.format.Tree.{value_of, made_by, object_of};
ghost use Rattle.test_oracles.specs.Token.{token_of};
ghost use Rattle.test_oracles.specs.Graph.{size_of, all_made, AreTokens, IsGraph};

use crate::token::Token;
use base_data::model::Memory;
use base_data::model::list::List;
use base_data::model::value::{Obj, Val};
use std::alloc::{AllocError, Global};

/// A value: its root, and its objects in the order of their tokens.
#[derive(Drop)]
pub struct Graph {
    pub root: Val,
    pub objects: Vec<Obj>,
}

/// Returns the number of fields that follow a token.
fn size_of(token: &Token) -> u64
    ensures { result ≡ size_of (token_of token.now) }
{
    match token {
        Token::Block(_, size) => *size,
        _ => 0,
    }
}

/// Returns the number of objects that a token makes.
fn made_by(token: &Token) -> u64
    ensures made { result ≡ made_by (token_of token.now) }
    ensures few { result ≤ 1 }
{
    match token {
        Token::Block(_, _) => 1,
        Token::Leaf(Obj::Block(_, _)) => 0,
        Token::Leaf(_) => 1,
        _ => 0,
    }
}

/// Returns the number of objects that the tokens make.
fn all_made(tokens: &[Token]) -> u64
    ensures { result ≡ all_made (map token_of tokens.now) }
{
    let mut made = 0;
    for token in tokens {
        made += made_by(token);
    }
    made
}

/// Returns the value of a token after `c` objects.
fn value_of(token: &Token, c: u64) -> Val
    ensures { result ≡ value_of (token_of token.now) c }
{
    match token {
        Token::Integer(value) => Val::Int(*value),
        Token::Atom(tag) => Val::Atom(*tag),
        Token::Shared(offset) => Val::Ref(c.saturating_sub(*offset)),
        Token::Block(_, _) => Val::Ref(c),
        Token::Leaf(_) => Val::Ref(c),
    }
}

/// Returns the first `size` values, which are the fields of a token. If there are fewer values,
/// returns all values.
fn first_values(values: &[Val], size: u64) -> &[Val]
    ensures { result.now ≡ take size values.now }
{
    if size < values.len() as u64 {
        &values[..size as usize]
    } else {
        values
    }
}

/// Returns the values after the first `size` values.
fn values_after(values: &[Val], size: u64) -> &[Val]
    ensures { result.now ≡ drop size values.now }
{
    if size < values.len() as u64 {
        &values[size as usize..]
    } else {
        &values[values.len()..]
    }
}

/// Inserts the object of a token with these fields before the objects made so far.
fn write_object(
    alloc: Global,
    token: Token,
    fields: &[Val],
    objects: &mut Vec<Obj>,
) -> Result<(), AllocError>
    ensures { OnOk result
        (objects.new.items ≡ object_of (token_of token) fields.now ++ objects.old.items) }
{
    match token {
        Token::Block(tag, _) => {
            let fields = Vec::from_slice(alloc, fields)?;
            objects.insert(0, Obj::Block(tag, List::of(fields)))?;
        }
        Token::Leaf(object) => objects.insert(0, object)?,
        _ => {}
    }
    Ok(())
}

/// Returns the values with `value` at the beginning.
fn with_value(alloc: Global, value: Val, rest: &[Val]) -> Result<Vec<Val>, AllocError>
    ensures { IfOk result (λ values. values.items ≡ value ∷ rest.now) }
{
    let mut values = Vec::new(alloc);
    values.push(value)?;
    values.extend_from_slice(rest)?;
    Ok(values)
}

/// Builds the graph, token by token.
fn build(alloc: Global, mut tokens: Vec<Token>) -> Result<Graph, AllocError>
    requires { AreTokens (map token_of tokens.items) }
    ensures { IfOk result (IsGraph (map token_of tokens.items)) }
{
    let mut values = Vec::new(alloc);
    let mut objects = Vec::new(alloc);
    'next: while let Some(token) = tokens.pop() {
        let c = all_made(&tokens);
        let size = size_of(&token);
        let value = value_of(&token, c);
        write_object(alloc, token, first_values(&values, size), &mut objects)?;
        values = with_value(alloc, value, values_after(&values, size))?;
    }
    Ok(Graph {
        root: values[0],
        objects,
    })
}

/// Returns the graph of the tree with these tokens.
pub fn graph_of(alloc: Global, tokens: Vec<Token>) -> Result<Graph, Memory>
    requires { AreTokens (map token_of tokens.items) }
    ensures { IfOk result (IsGraph (map token_of tokens.items)) }
{
    Ok(build(alloc, tokens)?)
}
