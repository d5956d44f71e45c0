//! Sources of a few samples.
ghost use Rattle.std.specs.Prelude.{◌≡◌, ◌<◌, ◌^◌, IsTrue, None, OnOk};
ghost use Rattle.stack_core.specs.Ledgers.{IsRead};
ghost use Rattle.merged_stacks.specs.Merged.{all_samples};
ghost use Rattle.merged_stacks.specs.Timeline.{samples_of, timeline, total_weight};

use stack_core::{Close, Ledger, Names, Sample, SourceEnd, SourceList};
use std::alloc::{AllocError, Global};

/// Stacks, root first, with their weights.
pub(super) type Rows<'a> = &'a [(&'a [&'a str], u64)];

/// Takes a sample, if it is a small one.
fn take_row(
    alloc: Global,
    ledger: &mut Ledger,
    names: &[&str],
    weight: u64,
) -> Result<(), AllocError>
    requires { ledger.old.close ≡ None }
    ensures { OnOk result (ledger.new.close ≡ None) }
{
    if names.len() >= 10 || weight >= 100 {
        return Ok(());
    }
    let stack = Names::from_strs(alloc, names)?;
    ledger.take(Sample { stack, weight })
}

/// Takes all samples, and closes the ledger.
fn fill(alloc: Global, ledger: &mut Ledger, rows: Rows<'_>) -> Result<(), AllocError>
    requires { ledger.old.close ≡ None }
    ensures { OnOk result (IsRead ledger.new.close) }
{
    for (names, weight) in rows {
        take_row(alloc, ledger, names, *weight)?;
    }
    ledger.close(Close::Read(SourceEnd::Clean { ignored: 0 }));
    Ok(())
}

/// The list of a source with these samples.
fn list(alloc: Global, rows: Rows<'_>) -> Result<SourceList, AllocError> {
    let mut ledger = Ledger::new(alloc);
    fill(alloc, &mut ledger, rows)?;
    Ok(ledger.into_list())
}

/// Adds the lists of sources.
pub(super) fn add_lists(
    alloc: Global,
    lists: &mut Vec<SourceList>,
    sources: &[Rows<'_>],
) -> Result<(), AllocError> {
    for rows in sources {
        lists.push(list(alloc, rows)?)?;
    }
    Ok(())
}

/// Whether lists don't weigh much together.
pub(super) fn are_light(lists: &[SourceList]) -> bool
    ensures merged { IsTrue result → total_weight (all_samples (samples_of lists.now)) < 2 ^ 64 }
    ensures drawn { IsTrue result → total_weight (timeline (samples_of lists.now)) < 2 ^ 64 }
{
    let mut room = 2_000;
    for list in lists {
        let weight = list.total();
        if weight >= room {
            return false;
        }
        room -= weight;
    }
    true
}
