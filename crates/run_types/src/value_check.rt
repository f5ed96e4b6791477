//! Checks that a value has the type, and ends the run if it does not.

ghost use Rattle.run_types.specs.Checked.{ChecksType};
ghost use Rattle.run_types.specs.TypeVerdict.{IsVerdictOf};

use crate::requested::Requested;
use crate::type_verdict::{find_verdict, write_no};
use base_data::model::list::List;
use check_heap::check::Verdict;
use cli_errors::exit_line::Error;
use cli_spec::exit::Exit;
use marshal_heap::heap::Rooted;
use std::alloc::Global;
use types_theory::table::tables_decide;

/// Checks that value `number` has the type. If the value does not have the type, fails with the
/// exit reason of its first fault. If memory runs out, fails with the exit reason for that.
pub fn check_type(
    alloc: Global,
    value: &Rooted<'_>,
    number: u64,
    requested: &Requested,
) -> Result<(), Error>
    ensures { ChecksType requested.now number value.now.heap.now value.now.root result }
{
    let verdict = find_verdict(alloc, value, requested)?;
    check_verdict(alloc, value, number, requested, &verdict)
}

/// Checks that the verdict on the value is `Yes`. Fails with the exit reason of the fault if the
/// verdict is `No`.
fn check_verdict(
    alloc: Global,
    value: &Rooted<'_>,
    number: u64,
    requested: &Requested,
    verdict: &Verdict,
) -> Result<(), Error>
    requires verdict { IsVerdictOf requested.now value.now.heap.now value.now.root verdict.now }
    ensures { ChecksType requested.now number value.now.heap.now value.now.root result }
{
    tables_decide();
    requested.holds();
    match verdict {
        Verdict::Yes(_) => Ok(()),
        Verdict::No(fault) => {
            let mut text = Vec::new(alloc);
            write_no(&mut text, alloc, value, requested, fault)?;
            Err(Error::Exit(Exit::Untyped(number, List::of(text))))
        }
    }
}
