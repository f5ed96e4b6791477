//! Generates a value from a number.

ghost use Rattle.std.specs.Prelude.{◌≡◌, ◌^◌, ◌<◌, ◌≤◌, length, OnOk, IfOk};
ghost use Rattle.base_data.specs.model.Graph.{IsValue};
ghost use Rattle.cmd_gen.specs.generator.Generated.{generated, next_made};
ghost use Rattle.cmd_gen.specs.generator.GeneratedItems.{made_of, AreSound};

use crate::generator::generated_item::draw_item;
use crate::generator::item_objects::{add_item, add_list};
use base_data::model::Memory;
use base_data::model::value::Val;
use marshal_heap::heap::Heap;
use std::alloc::Global;

/// A generated value: its heap and its root.
#[derive(Drop)]
pub struct Generated {
    pub heap: Heap,
    pub root: Val,
}

/// The items so far: the heap with their objects, their values, and the state of the random
/// generator.
#[derive(Drop)]
struct GeneratedItems {
    heap: Heap,
    values: Vec<Val>,
    state: u64,
}

/// Generates the value for `number`, with `count` items.
pub fn generate(alloc: Global, number: u64, count: u64) -> Result<Generated, Memory>
    requires number { number < 2 ^ 31 }
    requires count { count ≤ 1000000 }
    ensures made { IfOk result (λ made. (made.heap, made.root) ≡ generated number count) }
    ensures value { IfOk result (λ made. IsValue (length made.heap) made.root) }
{
    let mut items = GeneratedItems {
        heap: Heap::new(alloc),
        values: Vec::with_capacity(alloc, count as usize)?,
        state: number,
    };
    for _item in 0..count {
        items.add()?;
    }
    let root = add_list(&mut items.heap, &items.values)?;
    Ok(Generated {
        heap: items.heap,
        root,
    })
}

impl GeneratedItems {
    /// Draws one more item, and appends the item's objects to the heap.
    fn add(&mut self) -> Result<(), Memory>
        requires { AreSound self.old }
        ensures made { OnOk result (made_of self.new ≡ next_made (made_of self.old)) }
        ensures sound { OnOk result (AreSound self.new) }
    {
        let item = draw_item(&mut self.state, self.values.len() as u64);
        let v = add_item(&mut self.heap, &self.values, item)?;
        self.values.push(v)?;
        Ok(())
    }
}
