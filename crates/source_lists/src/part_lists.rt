//! The lists of the parts of a source, put together.

ghost use Rattle.std.specs.Prelude.{◌≡◌, ◌++◌, [], None, IfOk, IfSome, OnOk, map};
ghost use Rattle.stack_core.specs.Parts.{joined, samples_of_parts};
ghost use Rattle.ring_collect.specs.Collection.{seen_as_rest};
ghost use Rattle.source_lists.specs.checked.Joining.{AreFound, named_stacks};
ghost use Rattle.source_lists.specs.checked.Parts.{AreCleanParts, ignored_by};

use crate::joined_names::numbers_of_names;
use crate::joined_stacks::numbers_of_stacks;
use sample_tables::NumberCache;
use stack_core::{Close, Ledger, SourceEnd, SourceList, WEIGHT_LIMIT};
use std::alloc::{AllocError, Global};

/// How many lines the parts of a source ignored. `None` where one has a fault, or where all weigh more together than a source may.
pub(crate) fn ignored_by_clean(parts: &[SourceList]) -> Option<u64>
    ensures { IfSome result (λ ignored. AreCleanParts (map seen_as_rest parts.now) ignored) }
{
    let mut ignored = 0u64;
    let mut weight = 0u128;
    for part in parts {
        let SourceEnd::Clean { ignored: more } = part.ending() else {
            return None;
        };
        ignored = ignored.checked_add(*more)?;
        weight = weight.checked_add(part.total())?;
    }
    if weight <= WEIGHT_LIMIT as u128 {
        Some(ignored)
    } else {
        None
    }
}

/// What helps to find the names and the stacks that a ledger has.
#[derive(Drop)]
struct Known {
    names: NumberCache,
    stacks: NumberCache,
}

impl Known {
    /// Nothing is known, and there is room for what these lists have.
    fn with_room(alloc: Global, parts: &[SourceList]) -> Result<Known, AllocError> {
        let mut names = 0usize;
        let mut stacks = 0usize;
        for part in parts {
            names = names.saturating_add(part.told());
            stacks = stacks.saturating_add(part.stack_count());
        }
        Ok(Known {
            names: NumberCache::with_room(alloc, names)?,
            stacks: NumberCache::with_room(alloc, stacks)?,
        })
    }
}

/// Takes the samples of a list into a ledger that has the stacks of the list under these numbers.
fn take_samples(ledger: &mut Ledger, list: &SourceList, stacks: &[u32]) -> Result<(), AllocError>
    requires open { ledger.old.close ≡ None }
    requires stacks { AreFound [] (named_stacks ledger.old.told ledger.old.stacks) stacks.now
        (named_stacks list.now.told list.now.stacks) }
    ensures open { OnOk result (ledger.new.close ≡ None) }
    ensures samples { OnOk result
        (ledger.new.samples ≡ ledger.old.samples ++ list.now.samples) }
{
    for at in 0..list.len() {
        let stack = stacks[list.stack_number(at)] as usize;
        ledger.take_again(stack, list.weight(at))?;
    }
    Ok(())
}

/// Takes all samples of a list. Names and stacks that are known are not kept again.
fn take_list(
    alloc: Global,
    ledger: &mut Ledger,
    known: &mut Known,
    list: &SourceList,
) -> Result<(), AllocError>
    requires { ledger.old.close ≡ None }
    ensures open { OnOk result (ledger.new.close ≡ None) }
    ensures samples { OnOk result
        (ledger.new.samples ≡ ledger.old.samples ++ list.now.samples) }
{
    let names = numbers_of_names(alloc, ledger, &mut known.names, list)?;
    let stacks = numbers_of_stacks(alloc, ledger, &mut known.stacks, list, &names)?;
    take_samples(ledger, list, &stacks)
}

/// Takes all samples of lists, one list after another, into a ledger that has none.
fn take_lists(
    alloc: Global,
    ledger: &mut Ledger,
    known: &mut Known,
    lists: Vec<SourceList>,
) -> Result<(), AllocError>
    requires open { ledger.old.close ≡ None }
    requires none { ledger.old.samples ≡ [] }
    ensures open { OnOk result (ledger.new.close ≡ None) }
    ensures samples { OnOk result
        (ledger.new.samples ≡ samples_of_parts (map seen_as_rest lists.items)) }
{
    for list in lists {
        take_list(alloc, ledger, known, &list)?;
    }
    Ok(())
}

/// The lists of the parts of a source as one, where they ignored so many lines. Names and stacks of several parts are
/// kept once, as far as they are known again.
pub(crate) fn joined_list(
    alloc: Global,
    parts: Vec<SourceList>,
    ignored: u64,
) -> Result<SourceList, AllocError>
    requires { ignored ≡ ignored_by (map seen_as_rest parts.items) }
    ensures { IfOk result (λ list. seen_as_rest list ≡ joined (map seen_as_rest parts.items)) }
{
    let mut known = Known::with_room(alloc, &parts)?;
    let mut ledger = Ledger::new(alloc);
    take_lists(alloc, &mut ledger, &mut known, parts)?;
    ledger.close(Close::Read(SourceEnd::Clean { ignored }));
    Ok(ledger.into_list())
}
