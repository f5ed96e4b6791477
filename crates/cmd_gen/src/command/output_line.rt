//! The output line for a generated value.

ghost use Rattle.std.specs.Prelude.{◌^◌, ◌<◌, ◌≤◌, IfOk};
ghost use Rattle.run_types.specs.Language.{declared_types};
ghost use Rattle.run_types.specs.RequestedTexts.{type_over};
ghost use Rattle.cmd_gen.specs.spec.GenSpec.{IsMadeLine};
ghost use Rattle.cmd_gen.specs.command.OutputLines.{output_of, making_of, IsGraphLine};

use crate::command::verdict_line::{Line, verdict_of};
use crate::generator::{generate, generated_line};
use base_data::model::Memory;
use base_data::text::write;
use marshal_heap::heap::Rooted;
use run_types::Requested;
use std::alloc::Global;
use text_print::same_type::{the_same_has_the_same_line, the_same_has_the_same_types};

/// Returns the output line for the value that is generated from `number`, with `count` items.
pub fn made_line(
    alloc: Global,
    number: u64,
    count: u64,
    requested: &Requested,
) -> Result<Line, Memory>
    requires number { number < 2 ^ 31 }
    requires count { count ≤ 1000000 }
    ensures { IfOk result (λ line. IsMadeLine declared_types
        (making_of number count requested.now) (output_of line)) }
{
    let made = generate(alloc, number, count)?;
    let value = Rooted {
        heap: &made.heap,
        root: made.root,
    };
    line_of(alloc, &value, requested)
}

/// Returns the output line for a value: the numbers of its canonical bytes, and its verdict.
fn line_of(alloc: Global, value: &Rooted<'_>, requested: &Requested) -> Result<Line, Memory>
    ensures { IfOk result (λ line. IsGraphLine (type_over requested.now) value.now.heap.now
        value.now.root (output_of line)) }
{
    the_same_has_the_same_types();
    the_same_has_the_same_line();
    let _graph = value.heap.count();
    requested.holds();
    let verdict = verdict_of(alloc, value, requested)?;
    let mut text = generated_line(alloc, value, verdict.text.as_slice())?;
    write(&mut text, b"\n")?;
    Ok(Line {
        text,
        ok: verdict.ok,
    })
}
