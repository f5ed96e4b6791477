//! The verdict on a value, as a text.

ghost use Rattle.std.specs.Prelude.{IfOk};
ghost use Rattle.cli_spec.specs.Outcome.{the_verdict};
ghost use Rattle.run_types.specs.Language.{IsTypeLine};
ghost use Rattle.run_types.specs.RequestedTexts.{type_over};
ghost use Rattle.run_types.specs.TypeVerdict.{IsVerdictOf};

use base_data::model::Memory;
use base_data::text::write;
use check_heap::check::Verdict;
use marshal_heap::heap::Rooted;
use run_types::{Requested, find_verdict, write_no};
use std::alloc::Global;
use types_theory::table::tables_decide;

/// The text of the output for a value, and whether the value is ok.
#[derive(Drop)]
pub struct Line {
    pub text: Vec<u8>,
    pub ok: bool,
}

/// Checks a value. Returns `yes` if the value has the type. If the value does not have the type,
/// returns `no` and the first fault.
pub fn verdict_of(alloc: Global, value: &Rooted<'_>, requested: &Requested) -> Result<Line, Memory>
    ensures { IfOk result (λ line. IsTypeLine the_verdict (type_over requested.now)
        value.now.heap.now value.now.root line.text.items line.ok) }
{
    let verdict = find_verdict(alloc, value, requested)?;
    text_of(alloc, value, requested, &verdict)
}

/// Returns the text of a verdict.
fn text_of(
    alloc: Global,
    value: &Rooted<'_>,
    requested: &Requested,
    verdict: &Verdict,
) -> Result<Line, Memory>
    requires verdict { IsVerdictOf requested.now value.now.heap.now value.now.root verdict.now }
    ensures { IfOk result (λ line. IsTypeLine the_verdict (type_over requested.now)
        value.now.heap.now value.now.root line.text.items line.ok) }
{
    tables_decide();
    requested.holds();
    let mut text = Vec::new(alloc);
    match verdict {
        Verdict::Yes(_) => {
            write(&mut text, b"yes")?;
            Ok(Line { text, ok: true })
        }
        Verdict::No(fault) => {
            write_no(&mut text, alloc, value, requested, fault)?;
            Ok(Line { text, ok: false })
        }
    }
}
